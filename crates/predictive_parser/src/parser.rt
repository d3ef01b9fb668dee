// The parser.
ghost use Rattle.std.specs.Prelude.{◌≡◌, ◌<◌, ℕ, length, Some, IfOk, OnOk, slice_get};
ghost use Rattle.predictive_parser.specs.declared.parser.ParseError.TheVariants.{Memory};
ghost use Rattle.predictive_parser.specs.Machine.{settle, finish};
ghost use Rattle.predictive_parser.specs.Grammar as grammar;
ghost use Rattle.predictive_parser.specs.Grammar.{move, passed};
ghost use Rattle.predictive_parser.specs.internal.Steps.{Settles, Finishes, Passing};
ghost use Rattle.predictive_parser.specs.Answers.{Parses};

use crate::choosing::choose;
use crate::{Builder, Otherwise, Stack, Symbol};
use p4x_bits::OutOfMemory;
use std::alloc::Global;
use thiserror::Error;

/// Why tokens can't be read.
#[derive(Clone, Copy, Debug, PartialEq, Eq, Error)]
pub enum ParseError {
    /// Memory ran out.
    #[error("out of memory")]
    Memory,
    /// The token with this number, from 0, can't stand where it stands; or the tokens end too early, and
    /// it is the number of all of them.
    #[error("token {at} can't stand there")]
    Refused { at: usize },
}

impl From<OutOfMemory> for ParseError {
    ghost from_gives = { λ _ error. error ≡ Memory };

    fn from(_: OutOfMemory) -> ParseError {
        ParseError::Memory
    }
}

/// Reads the tokens that the builder holds, all of them, as the word. What the builder has built grows to what the
/// grammar builds of them, and the tokens stay. Where the grammar refuses a token, that is the error, with the number of
/// the token. Memory may run out in any case. Of the builder after an error nothing is said.
pub fn parse<B: Builder>(alloc: Global, builder: &mut B, word: B::Word) -> Result<(), ParseError>
    ensures is { Parses result (grammar.parse B.grammar word (B.held builder.old) (B.tokens builder.old))
        (λ done built. B.held builder.new ≡ built) }
    ensures tokens { OnOk result (B.tokens builder.new ≡ B.tokens builder.old) }
{
    let mut stack = Stack::new(alloc);
    stack.push(Symbol::Word(word))?;
    let count = builder.count();
    for place in 0..count {
        if !settle(builder, &mut stack, place)? {
            return Err(ParseError::Refused { at: place });
        }
    }
    if finish(builder, &mut stack)? {
        Ok(())
    } else {
        Err(ParseError::Refused { at: count })
    }
}

/// Goes over the symbols that stand for no token up to one that takes the token at this place. Whether
/// there is one.
fn settle<B: Builder>(
    builder: &mut B,
    stack: &mut Stack<B::Class, B::Action, B::Word>,
    place: usize,
) -> Result<bool, OutOfMemory>
    requires { place < length (B.tokens builder.old) }
    ensures settles { IfOk result (λ taken. (token : B.Token) → slice_get (B.tokens builder.old) place ≡ Some token
        → Settles taken (settle (move B.grammar) stack.old (B.held builder.old) token) stack.new
        (λ built. B.held builder.new ≡ built)) }
    ensures tokens { OnOk result (B.tokens builder.new ≡ B.tokens builder.old) }
{
    while let Some(symbol) = stack.pop() {
        match symbol {
            Symbol::Put(action) => builder.put(action)?,
            Symbol::Token(class) => {
                let fits = builder.accepts(class, place);
                if fits {
                    builder.shift(class, place)?;
                }
                return Ok(fits);
            }
            Symbol::Word(word) => {
                if let Some(first) = choose(builder, word, place, stack)? {
                    builder.shift(first, place)?;
                    return Ok(true);
                }
                if !pass(builder, word)? {
                    return Ok(false);
                }
            }
        }
    }
    Ok(false)
}

/// Goes over the symbols behind the last token. Whether each of them can stand for no token.
fn finish<B: Builder>(
    builder: &mut B,
    stack: &mut Stack<B::Class, B::Action, B::Word>,
) -> Result<bool, OutOfMemory>
    ensures finishes { IfOk result (λ done. (place : ℕ) → Finishes done place (finish (move B.grammar) stack.old (B.held builder.old) place)
        (λ built. B.held builder.new ≡ built)) }
    ensures tokens { OnOk result (B.tokens builder.new ≡ B.tokens builder.old) }
{
    while let Some(symbol) = stack.pop() {
        match symbol {
            Symbol::Put(action) => builder.put(action)?,
            Symbol::Token(_) => return Ok(false),
            Symbol::Word(word) => {
                if !pass(builder, word)? {
                    return Ok(false);
                }
            }
        }
    }
    Ok(true)
}

/// Does what the word does where it stands for no token. Whether it can.
fn pass<B: Builder>(builder: &mut B, word: B::Word) -> Result<bool, OutOfMemory>
    ensures passes { IfOk result (λ done. Passing done (passed B.grammar (B.grammar.otherwise word) (B.held builder.old))
        (λ built. B.held builder.new ≡ built)) }
    ensures tokens { OnOk result (B.tokens builder.new ≡ B.tokens builder.old) }
{
    match builder.rows(word).otherwise {
        Otherwise::Refuse => Ok(false),
        Otherwise::Pass => Ok(true),
        Otherwise::Build(action) => {
            builder.put(action)?;
            Ok(true)
        }
    }
}
