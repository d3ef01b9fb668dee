// The actions of a program.
ghost use Rattle.std.specs.Prelude.{◌≡◌, ◌<◌, length, IfOk, OnOk};
ghost use Rattle.p414_syntax.specs.Arguments.{actions};
ghost use Rattle.p414_sem.specs.Expanded.{Expanded, IsExpanded};
ghost use Rattle.p414_sem.specs.Meanings.{Act14};
ghost use Rattle.p414_layout.specs.Shapes.{layout_of};
ghost use Rattle.p414_ready_actions.specs.Meaning.{AreSums, Means};
ghost use Rattle.p414_act_run.specs.Moments.{IsMoved, moment};
ghost use Rattle.p414_act_run.specs.Sums.{sums_in};

use crate::calculations::Calculations;
use crate::fits::fit_all;
use crate::making::calculation_rows;
use crate::run::act_ready;
use p4x_bits::{OutOfMemory, Rows};
use p414_body_check::Program14;
use p414_field_lists::field_lists14;
use p414_names::{Names14, names_of};
use p414_ready_actions::{ActionNames, ReadyPrimitive, ready_action};
use p414_signature::object_names;
use p414_state::State14;
use p414_syntax::Rule14;
use state_store::Store;
use std::alloc::Global;

/// The action with this number of the program of these names, ready to run.
fn ready_by(
    alloc: Global,
    names: &Names14<'_>,
    action: u32,
) -> Result<Rows<ReadyPrimitive>, OutOfMemory>
    ensures { IfOk result (Means names.now action) }
{
    let objects = object_names(alloc, names.decls())?;
    let known = ActionNames::of(alloc, names, objects)?;
    ready_action(alloc, &known, action)
}

/// The action of a program with this number, ready to run on its states and stores. The one error is want of memory.
#[tactic(auto, using(crate::proofs::Accepted::names_once))]
pub fn ready14(
    alloc: Global,
    program: &Program14,
    action: u32,
) -> Result<Rows<ReadyPrimitive>, OutOfMemory>
    ensures { IfOk result (Means program.now.decls action) }
{
    let decls = program.syntax().decls.as_slice();
    match names_of(alloc, decls)? {
        Some(names) => ready_by(alloc, &names, action),
        None => unreachable!(),
    }
}

/// The calculations of a program, ready to run on its states. The one error is want of memory.
#[tactic(auto, using(crate::proofs::Accepted::names_once, crate::proofs::Summing::sums_are))]
pub fn calculations14(alloc: Global, program: &Program14) -> Result<Calculations, OutOfMemory>
    ensures { IfOk result (λ made. (x : Expanded) → IsExpanded program.now.decls x → AreSums program.now.decls x (sums_in made)) }
{
    let decls = program.syntax().decls.as_slice();
    let lists = field_lists14(alloc, program)?;
    match names_of(alloc, decls)? {
        Some(names) => {
            let rows = calculation_rows(alloc, &names, decls)?;
            Ok(Calculations { lists, rows })
        }
        None => unreachable!(),
    }
}

/// Does with a packet's state and the store what the action of a program with this number, from 0 in the order of declaration,
/// does when it is called with these arguments under this rule (P4_14 1.0.5, "Actions", "Primitive Actions"; the rules are this
/// project's own). Of a number that no action has nothing is said. It makes the action ready anew: for many packets `ready14`
/// and `calculations14` make what `act_ready` runs once. The one error is want of memory, which a store of other objects than
/// the program's counts as, and state and store aren't used again after it.
#[tactic(auto, using(crate::proofs::Summing::act_moves))]
pub fn act14(
    alloc: Global,
    program: &Program14,
    rule: Rule14,
    action: u32,
    arguments: &[u128],
    state: &mut State14,
    store: &mut Store,
) -> Result<(), OutOfMemory>
    requires { state.old.layout ≡ layout_of program.now.decls }
    ensures layout { OnOk result (state.new.layout ≡ state.old.layout) }
    ensures shapes { OnOk result (store.new.shapes ≡ store.old.shapes) }
    ensures acts { OnOk result ((x : Expanded) → IsExpanded program.now.decls x → action < length (actions program.now.decls)
        → IsMoved state.old state.new store.old store.new (Act14 program.now.decls x rule action arguments.now (moment state.old store.old))) }
{
    let rows = ready14(alloc, program, action)?;
    let calculations = calculations14(alloc, program)?;
    if !fit_all(state, store, rows.as_slice()) {
        return Err(OutOfMemory);
    }
    act_ready(
        alloc,
        rows.as_slice(),
        &calculations,
        rule,
        arguments,
        state,
        store,
    )?;
    Ok(())
}
