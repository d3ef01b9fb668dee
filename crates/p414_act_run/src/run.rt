// Actions under both rules.
ghost use Rattle.std.specs.Prelude.{◌++◌, List, map, flat_map, All, IfOk, OnOk};
ghost use Rattle.p414_sem.specs.Effects as sem;
ghost use Rattle.p414_sem.specs.Effects.{all_fallen};
ghost use Rattle.p414_ready_actions.specs.Running.{row_effects, rows_acted, rows_in_parallel, rows_in_sequence};
ghost use Rattle.p414_act_run.specs.Fits.{FitsEffect, FitsRow};
ghost use Rattle.p414_act_run.specs.Sums.{sums_in};
ghost use Rattle.p414_act_run.specs.Moments.{AreHeld, IsMoved, moment, shown_effect};

use crate::calculations::Calculations;
use crate::effect::Effect;
use crate::effects::effect_of;
use crate::falls::fall;
use p4x_bits::OutOfMemory;
use p414_ready_actions::ReadyPrimitive;
use p414_state::State14;
use p414_syntax::Rule14;
use state_store::Store;
use std::alloc::Global;
use work_stack::Stack;

/// A row, on what the row before left.
#[tactic(auto, using(crate::proofs::Turns::one_falls, crate::proofs::Turns::none_falls, crate::proofs::Turns::given_fits))]
fn run_row(
    alloc: Global,
    state: &mut State14,
    store: &mut Store,
    calculations: &Calculations,
    arguments: &[u128],
    row: ReadyPrimitive,
) -> Result<(), OutOfMemory>
    requires { FitsRow state.old.layout store.old.shapes row }
    ensures { OnOk result (IsMoved state.old state.new store.old store.new (all_fallen (moment state.old store.old) (row_effects (sums_in calculations.now) arguments.now (moment state.old store.old) row))) }
{
    match effect_of(alloc, state, store, calculations, arguments, row)? {
        Some(effect) => {
            fall(state, store, effect)?;
            Ok(())
        }
        None => Ok(()),
    }
}

/// Rows, each on what the one before left.
#[tactic(auto, using(crate::proofs::Turns::next_moves))]
fn run_in_sequence(
    alloc: Global,
    state: &mut State14,
    store: &mut Store,
    calculations: &Calculations,
    arguments: &[u128],
    rows: &[ReadyPrimitive],
) -> Result<(), OutOfMemory>
    requires { All (FitsRow state.old.layout store.old.shapes) rows.now }
    ensures { OnOk result (IsMoved state.old state.new store.old store.new (rows_in_sequence (sums_in calculations.now) arguments.now rows.now (moment state.old store.old))) }
{
    for row in rows {
        run_row(alloc, state, store, calculations, arguments, *row)?;
    }
    Ok(())
}

/// Puts the effect of a row in front of those behind it, if it has one.
#[tactic(auto, using(crate::proofs::Turns::one_held, crate::proofs::Turns::none_held))]
fn read_row(
    alloc: Global,
    effects: &mut Stack<Effect>,
    state: &State14,
    store: &Store,
    calculations: &Calculations,
    arguments: &[u128],
    row: ReadyPrimitive,
) -> Result<(), OutOfMemory>
    requires { FitsRow state.now.layout store.now.shapes row }
    ensures { OnOk result ((due : List sem.Effect) → AreHeld state.now.layout store.now.shapes effects.old due
        → AreHeld state.now.layout store.now.shapes effects.new (row_effects (sums_in calculations.now) arguments.now (moment state.now store.now) row ++ due)) }
{
    if let Some(effect) = effect_of(alloc, state, store, calculations, arguments, row)? {
        effects.push(effect)?;
    }
    Ok(())
}

/// The effects of rows in order, all of which read one moment.
#[tactic(auto, using(crate::proofs::Turns::none_read, crate::proofs::Turns::next_read, crate::proofs::Turns::all_read))]
fn read_rows(
    alloc: Global,
    state: &State14,
    store: &Store,
    calculations: &Calculations,
    arguments: &[u128],
    rows: &[ReadyPrimitive],
) -> Result<Stack<Effect>, OutOfMemory>
    requires { All (FitsRow state.now.layout store.now.shapes) rows.now }
    ensures { IfOk result (λ effects. AreHeld state.now.layout store.now.shapes effects (flat_map (row_effects (sums_in calculations.now) arguments.now (moment state.now store.now)) rows.now)) }
{
    let mut effects = Stack::new(alloc);
    let count = rows.len();
    for done in 0..count {
        let row = rows[count - 1 - done];
        read_row(
            alloc,
            &mut effects,
            state,
            store,
            calculations,
            arguments,
            row,
        )?;
    }
    Ok(effects)
}

/// Effects fall one after another.
#[tactic(auto, using(crate::proofs::Turns::front_fits, crate::proofs::Turns::rest_fit, crate::proofs::Turns::rest_shorter, crate::proofs::Turns::front_falls, crate::proofs::Turns::all_fell))]
fn let_fall(
    state: &mut State14,
    store: &mut Store,
    effects: &mut Stack<Effect>,
) -> Result<(), OutOfMemory>
    requires { All (FitsEffect state.old.layout store.old.shapes) effects.old }
    ensures { OnOk result (IsMoved state.old state.new store.old store.new (all_fallen (moment state.old store.old) (map (shown_effect state.old.layout) effects.old))) }
{
    while let Some(effect) = effects.pop() {
        fall(state, store, effect)?;
    }
    Ok(())
}

/// Rows that all read the moment of entry, whose effects then fall in order.
#[tactic(auto, using(crate::proofs::Turns::parallel_moves))]
fn run_in_parallel(
    alloc: Global,
    state: &mut State14,
    store: &mut Store,
    calculations: &Calculations,
    arguments: &[u128],
    rows: &[ReadyPrimitive],
) -> Result<(), OutOfMemory>
    requires { All (FitsRow state.old.layout store.old.shapes) rows.now }
    ensures { OnOk result (IsMoved state.old state.new store.old store.new (rows_in_parallel (sums_in calculations.now) arguments.now (moment state.old store.old) rows.now (moment state.old store.old))) }
{
    let mut effects = read_rows(alloc, state, store, calculations, arguments, rows)?;
    let_fall(state, store, &mut effects)?;
    Ok(())
}

/// Runs the rows of an action, called with these arguments, on a packet's state and on the store (P4_14 1.0.5, "Actions",
/// "Primitive Actions"; the two rules are this project's own). Under the sequential rule each row reads what the one before
/// left. Under the parallel rule all rows read the moment of entry, and their effects then fall in order. The rows fit the
/// state and the store, as `fit_all` tells. Under the sequential rule it takes memory for no more than the headers that are
/// copied or moved and the bits that are hashed. The one error is want of memory, and state and store aren't used again after
/// it.
pub fn act_ready(
    alloc: Global,
    rows: &[ReadyPrimitive],
    calculations: &Calculations,
    rule: Rule14,
    arguments: &[u128],
    state: &mut State14,
    store: &mut Store,
) -> Result<(), OutOfMemory>
    requires { All (FitsRow state.old.layout store.old.shapes) rows.now }
    ensures { OnOk result (IsMoved state.old state.new store.old store.new (rows_acted (sums_in calculations.now) rule arguments.now rows.now (moment state.old store.old))) }
{
    match rule {
        Rule14::Sequential => run_in_sequence(alloc, state, store, calculations, arguments, rows),
        Rule14::Parallel => run_in_parallel(alloc, state, store, calculations, arguments, rows),
    }
}
