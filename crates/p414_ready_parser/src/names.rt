// The names of a program's parser.
ghost use Rattle.std.specs.Prelude.{◌≡◌, ◌++◌, map, option_to_list, IfOk, OnOk};
ghost use Rattle.p414_syntax.specs.References.{referred};
ghost use Rattle.p414_syntax.specs.ParserGraph.{state_in, state_name, states};
ghost use Rattle.p414_ready_parser.specs.Rows.{next_row};

use crate::rows::Next;
use name_numbers::{Numbering, number_names};
use p4x_bits::OutOfMemory;
use p414_names::Names14;
use p414_slots::Slots;
use p414_syntax::Decl;
use std::alloc::Global;
use std::marker::Model;

/// The parser states, instances and fields of a program by number. Contracts see the declarations of the program.
pub struct ParserNames<'n, 'a> {
    slots: Slots<'n, 'a>,
    states: Numbering<'a>,
}

impl Drop for ParserNames<'_, '_> {
    fn drop(self) {
        let ParserNames {
            slots: _slots,
            states: _states,
        } = self;
    }
}

impl<'n, 'a> Model for ParserNames<'n, 'a> {
    ghost use Rattle.std.specs.Prelude.{◌≡◌, List, map};
    ghost use Rattle.std.specs.Coded.{codes};
    ghost use Rattle.p414_syntax.specs.declared.syntax.Decl.{Decl};
    ghost use Rattle.p414_syntax.specs.contracts.syntax.Decl as declaration;
    ghost use Rattle.p414_syntax.specs.ParserGraph as parser_graph;

    ghost Value = { List Decl };

    ghost coded = { Prim.hlevel (codes, declaration.the_row.coded) };

    ghost view = { λ n. n.slots };

    ghost invariant = { λ n. n.states ≡ map parser_graph.state_name (parser_graph.states n.slots) };
}

/// Puts the name of a state last, if a declaration is one.
fn add_state<'a>(found: &mut Vec<&'a [u8]>, decl: &'a Decl) -> Result<(), OutOfMemory>
    ensures { OnOk result (map referred found.new.items ≡ map referred found.old.items ++ map state_name (option_to_list (state_in decl.now))) }
{
    if let Decl::Parser(state) = decl {
        found.push(state.name.as_slice())?;
    }
    Ok(())
}

/// The names of the states, in order.
#[tactic(auto, using(crate::proofs::Loops::kept_now))]
fn state_names(alloc: Global, decls: &[Decl]) -> Result<Vec<&[u8]>, OutOfMemory>
    ensures { IfOk result (λ found. map referred found.items ≡ map state_name (states decls.now)) }
{
    let mut found = Vec::new(alloc);
    for decl in decls {
        add_state(&mut found, decl)?;
    }
    Ok(found)
}

impl<'n, 'a> ParserNames<'n, 'a> {
    /// The parser states, instances and fields of the program of these names. The one error is want of memory.
    pub fn of(alloc: Global, names: &'n Names14<'a>) -> Result<Self, OutOfMemory>
        ensures { IfOk result (λ made. made ≡ names.now) }
    {
        let found = state_names(alloc, names.decls())?;
        let states = number_names(alloc, found)?;
        let slots = Slots::of(alloc, names)?;
        Ok(ParserNames { slots, states })
    }

    /// The instances and fields.
    pub fn slots(&self) -> &Slots<'n, 'a>
        ensures { result.now ≡ self.now }
    {
        &self.slots
    }

    /// Where a state leads that names this state, or the control `ingress`.
    pub fn next(&self, name: &[u8]) -> Next
        ensures { result ≡ next_row self.now name.now }
    {
        match self.states.find(name) {
            Some(number) => Next::State(number),
            None => Next::Accept,
        }
    }
}
