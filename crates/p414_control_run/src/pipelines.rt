// The pipelines of a program.
ghost use Rattle.std.specs.Prelude.{◌≡◌, IfOk, OnOk};
ghost use Rattle.match_core.specs.Fits.{Fits};
ghost use Rattle.match_core.specs.Signatures.{IsSignature};
ghost use Rattle.match_core.specs.Stores.{shapes_of};
ghost use Rattle.p414_layout.specs.Shapes.{layout_of};
ghost use Rattle.p414_sem.specs.Expanded.{Expanded, IsExpanded};
ghost use Rattle.p414_sem.specs.Meanings.{Control14};
ghost use Rattle.p414_sem.specs.Signatures.{signature14};
ghost use Rattle.p414_act_run.specs.Moments.{moment};
ghost use Rattle.p414_ready_tables.specs.Loaded.{setting};

use crate::bodies::{Bodies, bodies_of};
use crate::work::ControlStack;
use match_core::{Entries, Signature};
use p4x_bits::OutOfMemory;
use p414_body_check::Program14;
use p414_ready_tables::{ReadyTables, ready_tables};
use p414_state::State14;
use p414_syntax::Rule14;
use state_store::Store;
use std::alloc::Global;
use std::marker::Model;

/// The pipelines of a program, ready to run on its packets: its controls, its tables filled with entries, and its actions under a
/// rule. Contracts see the declarations of the program, the rule and the entries.
pub struct ReadyPipelines<'e> {
    pub(crate) tables: ReadyTables<'e>,
    pub(crate) bodies: Bodies,
}

impl Drop for ReadyPipelines<'_> {
    fn drop(self) {
        let ReadyPipelines {
            tables: _tables,
            bodies: _bodies,
        } = self;
    }
}

impl<'e> Model for ReadyPipelines<'e> {
    ghost use Rattle.std.specs.Coded.{codes};
    ghost use Rattle.p414_syntax.specs.contracts.syntax.Decl as declaration;
    ghost use Rattle.p414_ready_tables.specs.Loaded.{Loaded};
    ghost use Rattle.p414_control_run.specs.internal.Bodies.{AreBodies};

    ghost Value = { Loaded };

    ghost coded = { Prim.hlevel (codes, declaration.the_row.coded) };

    ghost view = { λ p. p.tables };

    ghost invariant = { λ p. AreBodies p.tables.decls p.bodies };
}

/// The pipelines of a program with this signature, filled with entries that fit it, ready to run under a rule of actions on the states
/// of the program, and on stores of the same objects as this one, which is only looked at. In time O(n log n) in the program and the
/// entries; the one error is want of memory, which numbers and widths count as that are too large to keep: no program has one that
/// breaks no rule.
pub fn ready_pipelines<'e>(
    alloc: Global,
    program: &'e Program14,
    rule: Rule14,
    signature: &Signature,
    entries: &'e Entries,
    store: &Store,
) -> Result<ReadyPipelines<'e>, OutOfMemory>
    requires signature { signature.now ≡ signature14 program.now.decls }
    requires well_formed { IsSignature signature.now }
    requires fits { Fits entries.now signature.now }
    requires shapes { store.now.shapes ≡ shapes_of signature.now entries.now }
    ensures { IfOk result (λ made. made ≡ record { decls = program.now.decls; rule = rule; entries = entries.now }) }
{
    let bodies = bodies_of(alloc, program.syntax().decls.as_slice(), signature)?;
    let tables = ready_tables(alloc, program, rule, signature, entries, store)?;
    Ok(ReadyPipelines { tables, bodies })
}

impl<'e> ReadyPipelines<'e> {
    /// The control `ingress` runs on a packet's state and the store (P4_14 1.0.5, "Packet Processing and Control Flow"); nothing where
    /// there is none. It takes memory where the stack grows, and where a table's application does. The one error is want of
    /// memory, and stack, state and store aren't used again after it.
    pub fn run_ingress<'r>(
        &'r self,
        alloc: Global,
        stack: &mut ControlStack<'r>,
        state: &mut State14,
        store: &mut Store,
    ) -> Result<(), OutOfMemory>
        requires layout { state.old.layout ≡ layout_of self.now.decls }
        requires shapes { store.old.shapes ≡ shapes_of (signature14 self.now.decls) self.now.entries }
        ensures layout { OnOk result (state.new.layout ≡ state.old.layout) }
        ensures shapes { OnOk result (store.new.shapes ≡ store.old.shapes) }
        ensures runs { OnOk result ((x : Expanded) → IsExpanded self.now.decls x
            → moment state.new store.new ≡ Control14 (setting self.now x) x.ingress (moment state.old store.old)) }
    {
        self.run_control(alloc, stack, self.bodies.ingress, state, store)?;
        Ok(())
    }

    /// The control `egress` runs, the same way.
    pub fn run_egress<'r>(
        &'r self,
        alloc: Global,
        stack: &mut ControlStack<'r>,
        state: &mut State14,
        store: &mut Store,
    ) -> Result<(), OutOfMemory>
        requires layout { state.old.layout ≡ layout_of self.now.decls }
        requires shapes { store.old.shapes ≡ shapes_of (signature14 self.now.decls) self.now.entries }
        ensures layout { OnOk result (state.new.layout ≡ state.old.layout) }
        ensures shapes { OnOk result (store.new.shapes ≡ store.old.shapes) }
        ensures runs { OnOk result ((x : Expanded) → IsExpanded self.now.decls x
            → moment state.new store.new ≡ Control14 (setting self.now x) x.egress (moment state.old store.old)) }
    {
        self.run_control(alloc, stack, self.bodies.egress, state, store)?;
        Ok(())
    }
}
