// The actions of a program, ready to run.
ghost use Rattle.std.specs.Prelude.{◌≡◌, ◌<◌, [], length, slice_index_or, All, IfOk, IsTrue, OnOk};
ghost use Rattle.p414_act_run.specs.Moments.{IsMoved, moment};
ghost use Rattle.p414_ready_tables.specs.internal.Acting.{AreActions, AreMeant, FitAll, FitsActions, acted};

use name_numbers::narrow;
use p4x_bits::{OutOfMemory, Rows};
use p414_act_run::{Calculations, act_ready, calculations14, fit_all};
use p414_body_check::Program14;
use p414_names::names_of;
use p414_ready_actions::{ActionNames, ReadyPrimitive, ready_action};
use p414_signature::object_names;
use p414_state::State14;
use p414_syntax::{Decl, Rule14};
use state_store::Store;
use std::alloc::Global;

/// The actions of a program in the order of declaration, ready to run under a rule.
pub struct ReadyActions {
    pub(crate) rule: Rule14,
    pub(crate) rows: Rows<Rows<ReadyPrimitive>>,
    pub(crate) calculations: Calculations,
}

impl Drop for ReadyActions {
    fn drop(self) {
        let ReadyActions {
            rule: _rule,
            rows: _rows,
            calculations: _calculations,
        } = self;
    }
}

/// Whether the rows of an action fit a state and a store.
fn rows_fit(state: &State14, store: &Store, rows: &Rows<ReadyPrimitive>) -> bool
    ensures { IsTrue result → FitAll state.now.layout store.now.shapes rows.now }
{
    fit_all(state, store, rows.as_slice())
}

/// Whether the rows of these actions do.
#[tactic(auto, using(crate::proofs::Acting::fit_more, crate::proofs::Acting::fit_end))]
fn all_fit(state: &State14, store: &Store, all: &[Rows<ReadyPrimitive>]) -> bool
    ensures { IsTrue result → All (FitAll state.now.layout store.now.shapes) all.now }
{
    for rows in all {
        if !rows_fit(state, store, rows) {
            return false;
        }
    }
    true
}

impl ReadyActions {
    /// Whether there is an action with this number.
    pub fn has(&self, action: u32) -> bool
        ensures { IsTrue result → action < length self.now.rows }
    {
        (action as usize) < self.rows.len()
    }

    /// The rows of the action with a number; none where there is no such action.
    fn rows_of(&self, action: u32) -> &[ReadyPrimitive]
        ensures { result.now ≡ slice_index_or self.now.rows action [] }
    {
        match self.rows.get(action as usize) {
            Some(rows) => rows.as_slice(),
            None => &[],
        }
    }

    /// The action with a number runs, called with these arguments. The one error is want of memory.
    #[tactic(auto, using(crate::proofs::Acting::rows_fit))]
    pub fn run(
        &self,
        alloc: Global,
        action: u32,
        arguments: &[u128],
        state: &mut State14,
        store: &mut Store,
    ) -> Result<(), OutOfMemory>
        requires { FitsActions state.old.layout store.old.shapes self.now }
        ensures { OnOk result (IsMoved state.old state.new store.old store.new (acted self.now action arguments.now (moment state.old store.old))) }
    {
        act_ready(
            alloc,
            self.rows_of(action),
            &self.calculations,
            self.rule,
            arguments,
            state,
            store,
        )
    }

    /// Whether the rows of all actions fit a state and a store.
    pub fn fit(&self, state: &State14, store: &Store) -> bool
        ensures { IsTrue result → FitsActions state.now.layout store.now.shapes self.now }
    {
        all_fit(state, store, self.rows.as_slice())
    }
}

/// Makes the next action ready, if a declaration is one.
#[tactic(auto, using(crate::proofs::Acting::one_meant))]
fn add_action(
    alloc: Global,
    names: &ActionNames<'_, '_>,
    rows: &mut Rows<Rows<ReadyPrimitive>>,
    decl: &Decl,
) -> Result<(), OutOfMemory>
    requires { AreMeant names.now rows.old }
    ensures { OnOk result (AreMeant names.now rows.new) }
{
    if let Decl::Action(_) = decl {
        let made = ready_action(alloc, names, narrow(rows.len())?)?;
        rows.push(made)?;
    }
    Ok(())
}

/// The rows of all actions.
#[tactic(auto, using(crate::proofs::Acting::none_meant))]
fn rows_of_all(
    alloc: Global,
    names: &ActionNames<'_, '_>,
    decls: &[Decl],
) -> Result<Rows<Rows<ReadyPrimitive>>, OutOfMemory>
    ensures { IfOk result (AreMeant names.now) }
{
    let mut rows = Rows::new(alloc);
    for decl in decls {
        add_action(alloc, names, &mut rows, decl)?;
    }
    Ok(rows)
}

/// The rows of all actions of a program.
fn action_rows(alloc: Global, decls: &[Decl]) -> Result<Rows<Rows<ReadyPrimitive>>, OutOfMemory>
    ensures { IfOk result (AreMeant decls.now) }
{
    match names_of(alloc, decls)? {
        Some(names) => {
            let objects = object_names(alloc, decls)?;
            let known = ActionNames::of(alloc, &names, objects)?;
            rows_of_all(alloc, &known, decls)
        }
        // No name is declared twice in a program that breaks no rule.
        None => Err(OutOfMemory),
    }
}

/// The actions of a program, ready to run under a rule. The one error is want of memory.
pub fn ready_actions(
    alloc: Global,
    program: &Program14,
    rule: Rule14,
) -> Result<ReadyActions, OutOfMemory>
    ensures is { IfOk result (AreActions program.now.decls) }
    ensures rule { IfOk result (λ made. made.rule ≡ rule) }
{
    let calculations = calculations14(alloc, program)?;
    let rows = action_rows(alloc, program.syntax().decls.as_slice())?;
    Ok(ReadyActions {
        rule,
        rows,
        calculations,
    })
}
