// What is left to be written of a statement.
use p416_exp_writer::Form;
use p416_sheet::{Gap, TextView, Token16};
use p416_syntax::{CaseLabel, ExpView, StmtView, Type16};

/// A step of what is left, with what stands in front of it.
#[derive(Drop)]
pub enum Work<'a> {
    /// A token.
    Put(Gap, Token16<'a>),
    /// A type.
    Type(Gap, &'a Type16),
    /// An expression.
    Exp(Gap, Form, ExpView<'a>),
    /// `switch (TABLE.apply().action_run) {`.
    Run(Gap, TextView<'a>),
    /// `LABEL: {`.
    Label(Gap, &'a CaseLabel),
    /// A statement, a list of statements or a list of cases, whose lines stand at this level.
    Stmt(Gap, u8, StmtView<'a>),
}
