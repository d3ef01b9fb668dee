// What is left to be written of an expression.
use p416_sheet::{Gap, TextView, Token16};
use p416_syntax::{CastType, ExpView, Literal16, Type16};

/// Some tokens that are written at once.
#[derive(Drop)]
pub enum Part<'a> {
    /// A token, or the two of a shift.
    Put(Gap, Token16<'a>),
    /// `.word`.
    Member(TextView<'a>),
    /// `[NUMBER]`.
    Index(Literal16),
    /// `[NUMBER:NUMBER]`.
    Slice(Literal16, Literal16),
    /// `.lookahead<TYPE>(`.
    Lookahead(&'a Type16),
    /// `(bit<WIDTH>)` or `(bool)`.
    Cast(Gap, CastType),
}

/// Where an expression stands, so that parentheses are written around it or not.
#[derive(Clone, Copy)]
pub enum Form {
    /// Where no parentheses are written around it: it stands in parentheses already, or it is an argument list.
    Within,
    /// Where they are written around an operator between operands.
    Full,
    /// In front of a `.`, a `[` or a `(`, where they are written around casts and operators in front of an operand too.
    Base,
}

/// A step of what is left.
#[derive(Drop)]
pub enum Work<'a> {
    /// Tokens.
    Say(Part<'a>),
    /// An expression or an argument list, with what stands in front of it.
    Visit(Gap, Form, ExpView<'a>),
}
