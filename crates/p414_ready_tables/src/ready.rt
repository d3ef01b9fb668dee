// The tables of a program, filled and ready to be applied.
ghost use Rattle.std.specs.Prelude.{◌≡◌, All, IfOk, IsTrue, OnOk};
ghost use Rattle.match_core.specs.Fits.{Fits};
ghost use Rattle.match_core.specs.Signatures.{IsSignature};
ghost use Rattle.match_core.specs.Stores.{shapes_of};
ghost use Rattle.p414_layout.specs.Shapes.{layout_of};
ghost use Rattle.p414_syntax.specs.Names.{Name};
ghost use Rattle.p414_sem.specs.Controls.{applied};
ghost use Rattle.p414_sem.specs.Expanded.{Expanded, IsExpanded};
ghost use Rattle.p414_sem.specs.Signatures.{signature14};
ghost use Rattle.p414_act_run.specs.Moments.{moment};
ghost use Rattle.p414_ready_controls.specs.Nodes.{table_place};
ghost use Rattle.p414_ready_tables.specs.Loaded.{setting};
ghost use Rattle.p414_ready_tables.specs.Tables.{FitsDirect, FitsTable};
ghost use Rattle.p414_ready_tables.specs.Applied.{IsApplied};
ghost use Rattle.p414_ready_tables.specs.internal.Acting.{FitsActions};

use crate::actions::{ReadyActions, ready_actions};
use crate::applied::ReadyApplied;
use crate::apply::{apply_found, found_by};
use crate::making::all_tables;
use crate::tables::ReadyTable;
use match_core::{Entries, Signature, Table, build_tables};
use p4x_bits::{Octets, OutOfMemory, Rows};
use p414_body_check::Program14;
use p414_state::State14;
use p414_syntax::Rule14;
use state_store::{Shape, Store};
use std::alloc::Global;
use std::marker::Model;

/// The tables of a program, filled with entries, and its actions, ready to run under a rule. Contracts see the declarations of the
/// program, the rule and the entries.
pub struct ReadyTables<'r> {
    program: &'r Program14,
    entries: &'r Entries,
    tables: Rows<ReadyTable>,
    filled: Rows<Table<'r>>,
    actions: ReadyActions,
}

impl Drop for ReadyTables<'_> {
    fn drop(self) {
        let ReadyTables {
            program: _program,
            entries: _entries,
            tables: _tables,
            filled: _filled,
            actions: _actions,
        } = self;
    }
}

impl<'r> Model for ReadyTables<'r> {
    ghost use Rattle.std.specs.Coded.{codes};
    ghost use Rattle.p414_syntax.specs.contracts.syntax.Decl as declaration;
    ghost use Rattle.p414_ready_tables.specs.Loaded.{Loaded};
    ghost use Rattle.p414_ready_tables.specs.internal.Applying.{AreReady};

    ghost Value = { Loaded };

    ghost coded = { Prim.hlevel (codes, declaration.the_row.coded) };

    ghost view = { λ t. record { decls = t.program.now.decls; rule = t.actions.rule; entries = t.entries.now } };

    ghost invariant = { λ t. AreReady (record { decls = t.program.now.decls; rule = t.actions.rule; entries = t.entries.now }) t.tables t.filled t.actions };
}

/// Whether a counter has this number, where one is given.
fn fits_direct(store: &Store, direct: Option<u32>) -> bool
    ensures { IsTrue result → FitsDirect store.now.shapes direct }
{
    let Some(counter) = direct else {
        return true;
    };
    let shapes = store.shapes();
    if counter as usize >= shapes.len() {
        return false;
    }
    match shapes[counter as usize] {
        Shape::Counter { .. } | Shape::Direct { .. } => true,
        _ => false,
    }
}

/// Whether all direct counters are counters.
#[tactic(auto, using(crate::proofs::Acting::fit_more, crate::proofs::Acting::fit_end))]
fn tables_fit(store: &Store, tables: &[ReadyTable]) -> bool
    ensures { IsTrue result → All (FitsTable store.now.shapes) tables.now }
{
    for table in tables {
        if !fits_direct(store, table.direct) {
            return false;
        }
    }
    true
}

/// Whether the actions fit the states of a program and a store.
fn actions_fit(
    alloc: Global,
    program: &Program14,
    store: &Store,
    actions: &ReadyActions,
) -> Result<bool, OutOfMemory>
    ensures { IfOk result (λ fit. IsTrue fit → FitsActions (layout_of program.now.decls) store.now.shapes actions.now) }
{
    let octets = Octets::new(alloc);
    let state = State14::new(alloc, program, &octets, 0, 0)?;
    Ok(actions.fit(&state, store))
}

/// The tables of a program with this signature, filled with entries that fit it, ready to be applied under a rule of actions to the
/// states of the program, and to stores of the same objects as this one, which is only looked at. In time O(n log n) in the program
/// and the entries; the one error is want of memory, which numbers and widths count as that are too large to keep: no program has one
/// that breaks no rule.
pub fn ready_tables<'r>(
    alloc: Global,
    program: &'r Program14,
    rule: Rule14,
    signature: &Signature,
    entries: &'r Entries,
    store: &Store,
) -> Result<ReadyTables<'r>, OutOfMemory>
    requires signature { signature.now ≡ signature14 program.now.decls }
    requires well_formed { IsSignature signature.now }
    requires fits { Fits entries.now signature.now }
    requires shapes { store.now.shapes ≡ shapes_of signature.now entries.now }
    ensures { IfOk result (λ made. made ≡ record { decls = program.now.decls; rule = rule; entries = entries.now }) }
{
    let actions = ready_actions(alloc, program, rule)?;
    if !actions_fit(alloc, program, store, &actions)? {
        return Err(OutOfMemory);
    }
    let tables = all_tables(alloc, program.syntax().decls.as_slice(), signature)?;
    if !tables_fit(store, tables.as_slice()) {
        return Err(OutOfMemory);
    }
    let filled = build_tables(alloc, signature, entries)?;
    Ok(ReadyTables {
        program,
        entries,
        tables,
        filled,
        actions,
    })
}

impl<'r> ReadyTables<'r> {
    /// The table with a number in the signature is applied to a packet's state and the store (P4_14 1.0.5, "Table Declarations",
    /// "Packet Processing and Control Flow"): the best entry for its keys is found, the application is noted, the direct counter
    /// counts the entry, and the action runs: on a hit the entry's, on a miss the default of the entries, else that of the program, if
    /// there is one. It takes memory for keys beyond eight, for the event, and where the action does. The one error is want of
    /// memory, which a number that no table has counts as; state and store aren't used again after it.
    pub fn apply(
        &self,
        alloc: Global,
        number: u32,
        state: &mut State14,
        store: &mut Store,
    ) -> Result<ReadyApplied, OutOfMemory>
        requires layout { state.old.layout ≡ layout_of self.now.decls }
        requires shapes { store.old.shapes ≡ shapes_of (signature14 self.now.decls) self.now.entries }
        ensures layout { OnOk result (state.new.layout ≡ state.old.layout) }
        ensures shapes { OnOk result (store.new.shapes ≡ store.old.shapes) }
        ensures applies { IfOk result (λ a. (x : Expanded) → IsExpanded self.now.decls x → (name : Name) → number ≡ table_place self.now.decls name
            → IsApplied self.now.decls a (moment state.new store.new) (applied (setting self.now x) name (moment state.old store.old))) }
    {
        let place = number as usize;
        let Some(table) = self.tables.get(place) else {
            return Err(OutOfMemory);
        };
        let Some(filled) = self.filled.get(place) else {
            return Err(OutOfMemory);
        };
        let Some(fill) = self.entries.tables.get(place) else {
            return Err(OutOfMemory);
        };
        let entry = found_by(alloc, state, table, filled)?;
        apply_found(
            alloc,
            &self.actions,
            number,
            table,
            fill,
            entry,
            state,
            store,
        )
    }
}
