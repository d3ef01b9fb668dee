// A block made ready.
use p4x_bits::{Numbers, Rows};
use v1_statement_run::Code;

/// An action: the place of its body, and the slots of its parameters where tables call it.
#[derive(Drop)]
pub struct ReadyAction {
    /// The body.
    pub body: usize,
    /// The slots.
    pub parameters: Rows<u32>,
}

/// An action that a table lists.
#[derive(Drop)]
pub struct Chosen {
    /// Its number in the control.
    pub action: u32,
    /// Its number among those of the table in the signature.
    pub number: u32,
    /// The arguments.
    pub arguments: Numbers,
}

/// A table.
pub struct ReadyTable {
    /// Its number in the signature.
    pub number: u32,
    /// The places of its keys among the expressions.
    pub keys: Rows<usize>,
    /// The number of its direct counter.
    pub direct: Option<u32>,
    /// For each of its actions in the signature its number in the control.
    pub actions: Rows<u32>,
    /// Its `default_action`, where that isn't `NoAction`.
    pub default: Option<Chosen>,
}

impl Drop for ReadyTable {
    fn drop(self) {
        let ReadyTable {
            number: _number,
            keys: _keys,
            direct: _direct,
            actions: _actions,
            default: _default,
        } = self;
    }
}

/// A block: its statements and expressions, its actions and tables, and the place of its body.
pub struct ReadyBlock<'l> {
    /// The statements.
    pub code: Code<'l>,
    /// The actions.
    pub actions: Rows<ReadyAction>,
    /// The tables.
    pub tables: Rows<ReadyTable>,
    /// The body.
    pub body: usize,
}

impl Drop for ReadyBlock<'_> {
    fn drop(self) {
        let ReadyBlock {
            code: _code,
            actions: _actions,
            tables: _tables,
            body: _body,
        } = self;
    }
}
