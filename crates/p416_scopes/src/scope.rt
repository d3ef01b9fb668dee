// The names in scope (P4_16 1.2, "Name resolution").
ghost use Rattle.std.specs.Prelude.{◌≡◌, length};

use name_stack::NameStack;
use p416_names::{Sort, Top};

/// The part of a declaration that something stands in.
#[derive(Clone, Copy, Drop)]
pub enum Part<'a> {
    /// A parser.
    InParser,
    /// A control, but none of its actions and keys.
    InApply,
    /// The action of this name.
    InAction(&'a [u8]),
    /// A key of a table.
    InKey,
    /// Neither a parser nor a control.
    Elsewhere,
}

/// The names in scope, where the block stands in `main`, and in which part of it something stands.
pub struct Scope<'t, 'a> {
    /// The names at the top.
    pub top: &'t Top<'a>,
    /// The names that are declared within, in the order of their declarations.
    pub names: NameStack<'a>,
    /// What these are declared as.
    pub sorts: Vec<Sort<'a>>,
    /// The places of the block in `main`, from 0.
    pub positions: &'t [usize],
    /// The part.
    pub part: Part<'a>,
    ghost same: { length names ≡ length sorts.items },
}

impl Drop for Scope<'_, '_> {
    fn drop(self) {
        let Scope {
            top: _top,
            names: _names,
            sorts: _sorts,
            positions: _positions,
            part: _part,
        } = self;
    }
}
