// Actions (P4_14 1.0.5, "Actions").
use crate::parts::{Inst, Number, Ref};
use p4x_bits::{Rows, Text};

/// An argument of a call.
pub enum Arg {
    /// A number.
    Number(Number),
    /// A field.
    Field(Ref),
    /// An instance; by its name also a parameter, an object, a list or a calculation.
    Instance(Inst),
}

impl Drop for Arg {
    fn drop(self) {
        match self {
            Arg::Number(_a) => {}
            Arg::Field(_a) => {}
            Arg::Instance(_a) => {}
        }
    }
}

/// A call of a primitive or of an action: `NAME(ARGUMENT, ..);`.
pub struct Call {
    /// The name of what is called.
    pub name: Text,
    /// The arguments in order.
    pub arguments: Rows<Arg>,
}

impl Drop for Call {
    fn drop(self) {
        let Call {
            name: _name,
            arguments: _arguments,
        } = self;
    }
}

/// `action NAME(PARAMETER, ..) { CALL .. }`.
pub struct Action {
    /// The name.
    pub name: Text,
    /// The names of the parameters in order.
    pub parameters: Rows<Text>,
    /// The calls in order.
    pub calls: Rows<Call>,
}

impl Drop for Action {
    fn drop(self) {
        let Action {
            name: _name,
            parameters: _parameters,
            calls: _calls,
        } = self;
    }
}
