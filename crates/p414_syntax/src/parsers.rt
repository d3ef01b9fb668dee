// Parser states (P4_14 1.0.5, "Parser Specification").
use crate::lexeme::Literal;
use crate::parts::{Inst, Number, Ref};
use p4x_bits::{Rows, Text};

/// A value in a parser state.
pub enum PValue {
    /// `current(OFFSET, WIDTH)`: octets that aren't extracted yet, both numbers in bits.
    Current(Literal, Literal),
    /// `latest.FIELD`: a field of the instance that was extracted last.
    Latest(Text),
    /// A field.
    Field(Ref),
    /// A number. None stands in `select`.
    Number(Number),
}

impl Drop for PValue {
    fn drop(self) {
        match self {
            PValue::Current(_a, _b) => {}
            PValue::Latest(_a) => {}
            PValue::Field(_a) => {}
            PValue::Number(_a) => {}
        }
    }
}

/// A statement of a parser state.
pub enum PStmt {
    /// `extract(INSTANCE);`.
    Extract(Inst),
    /// `set_metadata(FIELD, VALUE);`.
    SetMetadata(Ref, PValue),
}

impl Drop for PStmt {
    fn drop(self) {
        match self {
            PStmt::Extract(_a) => {}
            PStmt::SetMetadata(_a, _b) => {}
        }
    }
}

/// `NUMBER` or `NUMBER mask NUMBER` in a case of a `select`.
#[derive(Clone, Copy, PartialEq, Eq, Drop)]
pub struct Masked {
    /// The value.
    pub value: Literal,
    /// The mask, where one is written.
    pub mask: Option<Literal>,
}

/// The values of a case.
pub enum CaseValues {
    /// `default`.
    Default,
    /// Values with commas between them, at least one.
    Values(Rows<Masked>),
}

impl Drop for CaseValues {
    fn drop(self) {
        match self {
            CaseValues::Default => {}
            CaseValues::Values(_a) => {}
        }
    }
}

/// Where a case leads.
pub enum CaseTarget {
    /// `parse_error NAME`.
    ParseError(Text),
    /// The name of a parser state or of a control.
    State(Text),
}

impl Drop for CaseTarget {
    fn drop(self) {
        match self {
            CaseTarget::ParseError(_a) => {}
            CaseTarget::State(_a) => {}
        }
    }
}

/// A case of a `select`: `VALUES : TARGET;`.
pub struct Case {
    /// The values.
    pub values: CaseValues,
    /// Where the case leads.
    pub target: CaseTarget,
}

impl Drop for Case {
    fn drop(self) {
        let Case {
            values: _values,
            target: _target,
        } = self;
    }
}

/// How a parser state ends.
pub enum Return {
    /// `return select(VALUE, ..) { CASE .. }`: at least one value, none of them a number, and at least one case.
    Select(Rows<PValue>, Rows<Case>),
    /// `return NAME;`.
    State(Text),
    /// `parse_error NAME;`.
    ParseError(Text),
}

impl Drop for Return {
    fn drop(self) {
        match self {
            Return::Select(_a, _b) => {}
            Return::State(_a) => {}
            Return::ParseError(_a) => {}
        }
    }
}

/// `parser NAME { STATEMENT .. RETURN }`.
pub struct Parser {
    /// The name of the state.
    pub name: Text,
    /// The statements in order.
    pub statements: Rows<PStmt>,
    /// How the state ends.
    pub end: Return,
}

impl Drop for Parser {
    fn drop(self) {
        let Parser {
            name: _name,
            statements: _statements,
            end: _end,
        } = self;
    }
}
