// Parsers and their states (P4_16 1.2, "Packet parsing").
use crate::blocks::{Block16, Exp};
use crate::parts::{Param, Type16};
use p4x_bits::{Rows, Text};

/// A variable: `TYPE NAME;`, or `TYPE NAME = VALUE;` (P4_16 1.2, "Variable declarations").
pub struct Var {
    /// The type.
    pub of: Type16,
    /// The name.
    pub name: Text,
    /// The initial value, where one is written.
    pub initial: Option<Exp>,
}

impl Drop for Var {
    fn drop(self) {
        let Var {
            of: _of,
            name: _name,
            initial: _initial,
        } = self;
    }
}

/// Where a transition leads.
pub enum Target {
    /// A state by its name.
    State(Text),
    /// `accept`.
    Accept,
    /// `reject`.
    Reject,
}

impl Drop for Target {
    fn drop(self) {
        match self {
            Target::State(_a) => {}
            Target::Accept => {}
            Target::Reject => {}
        }
    }
}

/// What a select key is compared with.
pub enum Simple {
    /// `default`.
    Default,
    /// `_`.
    Any,
    /// `VALUE &&& MASK`.
    Mask(Exp, Exp),
    /// `LOW .. HIGH`.
    Range(Exp, Exp),
    /// A value.
    Value(Exp),
}

impl Drop for Simple {
    fn drop(self) {
        match self {
            Simple::Default => {}
            Simple::Any => {}
            Simple::Mask(_a, _b) => {}
            Simple::Range(_a, _b) => {}
            Simple::Value(_a) => {}
        }
    }
}

/// What the select keys are compared with (P4_16 1.2, "Select expressions").
pub enum Keyset {
    /// One for each key, in parentheses; at least one.
    Tuple(Rows<Simple>),
    /// One without parentheses around it.
    One(Simple),
}

impl Drop for Keyset {
    fn drop(self) {
        match self {
            Keyset::Tuple(_a) => {}
            Keyset::One(_a) => {}
        }
    }
}

/// `KEYSET : TARGET;`.
pub struct SelectCase {
    /// What the keys are compared with.
    pub keyset: Keyset,
    /// Where it leads.
    pub target: Target,
}

impl Drop for SelectCase {
    fn drop(self) {
        let SelectCase {
            keyset: _keyset,
            target: _target,
        } = self;
    }
}

/// What a state ends with.
pub enum Transition {
    /// `transition TARGET;`.
    Go(Target),
    /// `transition select(KEY, ..) { CASE .. }`, with at least one key.
    Select(Rows<Exp>, Rows<SelectCase>),
}

impl Drop for Transition {
    fn drop(self) {
        match self {
            Transition::Go(_a) => {}
            Transition::Select(_a, _b) => {}
        }
    }
}

/// `state NAME { STATEMENT .. TRANSITION }`.
pub struct State {
    /// The name.
    pub name: Text,
    /// The statements.
    pub body: Block16,
    /// What the state ends with.
    pub transition: Transition,
}

impl Drop for State {
    fn drop(self) {
        let State {
            name: _name,
            body: _body,
            transition: _transition,
        } = self;
    }
}

/// `parser NAME(PARAMETER, ..) { VARIABLE .. STATE .. }`, with at least one parameter.
pub struct Parser16 {
    /// The name.
    pub name: Text,
    /// The parameters in order.
    pub parameters: Rows<Param>,
    /// The variables in order.
    pub vars: Rows<Var>,
    /// The states in order.
    pub states: Rows<State>,
}

impl Drop for Parser16 {
    fn drop(self) {
        let Parser16 {
            name: _name,
            parameters: _parameters,
            vars: _vars,
            states: _states,
        } = self;
    }
}
