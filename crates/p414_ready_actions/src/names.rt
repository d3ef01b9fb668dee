// What the actions of a program are made of, by number.
ghost use Rattle.std.specs.Prelude.{◌≡◌, ◌++◌, length, map, option_copied, option_to_list, slice_get, unwrap_or, IfOk, IsTrue, OnOk};
ghost use Rattle.p414_syntax.specs.References.{referred};
ghost use Rattle.p414_syntax.specs.declared.syntax.Sort.TheVariants as sort;
ghost use Rattle.p414_syntax.specs.Names.{find_name, name_in, names_in};
ghost use Rattle.p414_syntax.specs.Expansion.{list_number};
ghost use Rattle.p414_syntax.specs.Arguments.{action_number, actions, invocations_of};
ghost use Rattle.p414_sem.specs.Operations.{in_order, object_number};
ghost use Rattle.p414_ready_actions.specs.Words.{calculation_number};
ghost use Rattle.p414_ready_actions.specs.internal.Empty.{IsEmpty};

use crate::empties::{empties, is_marked};
use digraph::Components;
use name_numbers::{Numbering, narrow, number_names};
use p4x_bits::OutOfMemory;
use p414_calls::{ActionCalls, action_graph, action_number, calls_of};
use p414_list_check::list_number;
use p414_names::Names14;
use p414_slots::Slots;
use p414_syntax::Decl;
use std::alloc::Global;
use std::marker::Model;

/// The actions of a program with what their calls name: fields, headers, stateful objects, calculations and field lists, by
/// number. Contracts see the declarations of the program.
pub struct ActionNames<'n, 'a> {
    slots: Slots<'n, 'a>,
    calls: Vec<ActionCalls<'a>>,
    objects: Numbering<'a>,
    calculations: Numbering<'a>,
    empty: Vec<bool>,
}

impl Drop for ActionNames<'_, '_> {
    fn drop(self) {
        let ActionNames {
            slots: _slots,
            calls: _calls,
            objects: _objects,
            calculations: _calculations,
            empty: _empty,
        } = self;
    }
}

impl<'n, 'a> Model for ActionNames<'n, 'a> {
    ghost use Rattle.std.specs.Prelude.{List};
    ghost use Rattle.std.specs.Coded.{codes};
    ghost use Rattle.p414_syntax.specs.declared.syntax.Decl.{Decl};
    ghost use Rattle.p414_syntax.specs.contracts.syntax.Decl as declaration;
    ghost use Rattle.p414_ready_actions.specs.internal.Known.{AreKnown};

    ghost Value = { List Decl };

    ghost coded = { Prim.hlevel (codes, declaration.the_row.coded) };

    ghost view = { λ n. n.slots };

    ghost invariant = { λ n. AreKnown n.slots n.calls.items n.objects n.calculations n.empty.items };
}

/// Puts the name of a calculation last, if a declaration is one.
fn add_calculation<'a>(found: &mut Vec<&'a [u8]>, decl: &'a Decl) -> Result<(), OutOfMemory>
    ensures { OnOk result (map referred found.new.items ≡ map referred found.old.items ++ option_to_list (name_in sort.Calculation decl.now)) }
{
    match decl {
        Decl::FieldListCalculation(declared) => found.push(declared.name.as_slice())?,
        _ => {}
    }
    Ok(())
}

/// The names of all calculations, in order.
#[tactic(auto, using(crate::proofs::Loops::name_now))]
fn calculation_names(alloc: Global, decls: &[Decl]) -> Result<Vec<&[u8]>, OutOfMemory>
    ensures { IfOk result (λ found. map referred found.items ≡ names_in sort.Calculation decls.now) }
{
    let mut found = Vec::new(alloc);
    for decl in decls {
        add_calculation(&mut found, decl)?;
    }
    Ok(found)
}

/// The number of a name among these, or how many there are.
fn number_among(numbering: &Numbering<'_>, name: &[u8]) -> Result<u32, OutOfMemory>
    ensures { IfOk result (λ number. number ≡ unwrap_or (find_name numbering.now name.now) (length numbering.now)) }
{
    match numbering.find(name) {
        Some(number) => Ok(number),
        None => narrow(numbering.len()),
    }
}

impl<'n, 'a> ActionNames<'n, 'a> {
    /// The actions of the program of these names, whose stateful objects have these names, in the order of their octets. In
    /// time O(n log n) in the program; the one error is want of memory.
    #[tactic(auto, using(p414_action_check::proofs::Answering::closed_by))]
    pub fn of(
        alloc: Global,
        names: &'n Names14<'a>,
        objects: Vec<&'a [u8]>,
    ) -> Result<Self, OutOfMemory>
        requires { map referred objects.items ≡ in_order (names_in sort.Object names.now) }
        ensures { IfOk result (λ made. made ≡ names.now) }
    {
        let calls = calls_of(alloc, names.decls())?;
        let graph = action_graph(alloc, names, &calls)?;
        let components = Components::of(alloc, &graph)?;
        let empty = empties(alloc, names, &calls, components.order())?;
        let calculations = calculation_names(alloc, names.decls())?;
        Ok(ActionNames {
            slots: Slots::of(alloc, names)?,
            calls,
            objects: number_names(alloc, objects)?,
            calculations: number_names(alloc, calculations)?,
            empty,
        })
    }

    /// The instances and fields.
    pub fn slots(&self) -> &Slots<'n, 'a>
        ensures { result.now ≡ self.now }
    {
        &self.slots
    }

    /// The number of a counter, a meter or a register, from 0 in the order of all their names; that behind the last of a name
    /// that none has.
    pub fn object(&self, name: &[u8]) -> Result<u32, OutOfMemory>
        ensures { IfOk result (λ number. number ≡ object_number self.now name.now) }
    {
        number_among(&self.objects, name)
    }

    /// The number of a calculation, from 0 in the order of declaration; that behind the last of a name that none has.
    pub fn calculation(&self, name: &[u8]) -> Result<u32, OutOfMemory>
        ensures { IfOk result (λ number. number ≡ calculation_number self.now name.now) }
    {
        number_among(&self.calculations, name)
    }

    /// The number of a field list, from 0 in the order of declaration.
    pub fn list(&self, name: &[u8]) -> Result<Option<u32>, OutOfMemory>
        ensures { IfOk result (λ number. number ≡ list_number self.now name.now) }
    {
        match list_number(self.slots.names(), name) {
            Some(number) => Ok(Some(narrow(number)?)),
            None => Ok(None),
        }
    }

    /// The number of an action; none of a primitive.
    pub fn action(&self, name: &[u8]) -> Option<usize>
        ensures { result ≡ action_number self.now name.now }
    {
        action_number(self.slots.names(), name)
    }

    /// The calls of the action with a number.
    pub fn calls(&self, action: usize) -> Option<&ActionCalls<'a>>
        ensures { option_copied result ≡ slice_get (map invocations_of (actions self.now)) action }
    {
        self.calls.get(action)
    }

    /// Whether an action is known to come to no primitive.
    #[tactic(auto, using(crate::proofs::Emptying::known_empty))]
    pub fn is_empty(&self, action: usize) -> bool
        ensures { IsTrue result → IsEmpty self.now action }
    {
        is_marked(&self.empty, action)
    }
}
