// Statements run.
ghost use Rattle.std.specs.Prelude.{◌≡◌, [], ◌∷◌, drop, if◌then◌else◌, Some, None, IfOk, OnOk};
ghost use Rattle.match_core.specs.Stores.{shapes_of};
ghost use Rattle.p414_layout.specs.Shapes.{layout_of};
ghost use Rattle.p414_syntax.specs.Tree.{Stmt};
ghost use Rattle.p414_syntax.specs.ControlExpansion.{PipelineExpands, control_number};
ghost use Rattle.p414_syntax.specs.Names.{Name};
ghost use Rattle.p414_sem.specs.Expanded.{Expanded, IsExpanded};
ghost use Rattle.p414_sem.specs.Meanings.{Control14};
ghost use Rattle.p414_sem.specs.Signatures.{signature14};
ghost use Rattle.p414_act_run.specs.Moments.{moment};
ghost use Rattle.p414_ready_conditions.specs.Running.{rows_hold};
ghost use Rattle.p414_ready_controls.specs.Nodes.{control_nodes};
ghost use Rattle.p414_ready_controls.specs.declared.nodes.ControlNode.TheVariants as piece;
ghost use Rattle.p414_ready_tables.specs.Loaded.{setting};
ghost use Rattle.p414_control_run.specs.Branches.{takes_label};
ghost use Rattle.p414_control_run.specs.Leads.{body_at, left_of};
ghost use Rattle.p414_control_run.specs.Steps.{Applies, GoesOn, PassesOn};

use crate::pipelines::ReadyPipelines;
use crate::taken::{Taken, taken_of, takes_label};
use crate::work::{ControlStack, Work, behind, first_of};
use p4x_bits::OutOfMemory;
use p414_ready_conditions::ReadyCondition;
use p414_ready_controls::{ControlNode, ReadyLabel};
use p414_ready_tables::ReadyApplied;
use p414_state::State14;
use state_store::Store;
use std::alloc::Global;

/// Two parts are to be run, one after the other.
fn run_both<'r>(
    stack: &mut ControlStack<'r>,
    taken: Option<Taken>,
    first: u32,
    rest: &'r [ControlNode],
) -> Result<(), OutOfMemory>
    ensures { OnOk result (stack.new.left ≡ left_of taken rest.now ∷ left_of taken (drop first rest.now) ∷ stack.old.left) }
{
    let second = behind(rest, first);
    stack.push(taken, second)?;
    stack.push(taken, rest)?;
    Ok(())
}

/// Of two parts the first is to be run where a condition holds, and else the second.
fn run_if<'r>(
    stack: &mut ControlStack<'r>,
    taken: Option<Taken>,
    condition: &ReadyCondition,
    first: u32,
    rest: &'r [ControlNode],
    state: &State14,
) -> Result<(), OutOfMemory>
    ensures { OnOk result (stack.new.left ≡ left_of taken (if rows_hold state.now.state condition.now then rest.now else drop first rest.now) ∷ stack.old.left) }
{
    if condition.holds(state, &mut stack.numbers)? {
        stack.push(taken, rest)?;
        Ok(())
    } else {
        stack.push(taken, behind(rest, first))?;
        Ok(())
    }
}

/// Of two parts the first is to be run where a label isn't taken, and else the second.
fn run_branch<'r>(
    stack: &mut ControlStack<'r>,
    taken: Option<Taken>,
    label: ReadyLabel,
    first: u32,
    rest: &'r [ControlNode],
) -> Result<(), OutOfMemory>
    ensures { OnOk result (stack.new.left ≡ left_of taken (if takes_label taken label then drop first rest.now else rest.now) ∷ stack.old.left) }
{
    if takes_label(taken, label) {
        stack.push(taken, behind(rest, first))?;
        Ok(())
    } else {
        stack.push(taken, rest)?;
        Ok(())
    }
}

impl<'e> ReadyPipelines<'e> {
    /// The nodes of a control; none where there is none.
    #[tactic(auto, using(crate::proofs::Passing::body_is))]
    fn body<'r>(&'r self, control: Option<u32>) -> &'r [ControlNode]
        ensures { result.now ≡ body_at (control_nodes self.now.decls) control }
    {
        match control {
            Some(number) => self.bodies.controls.body(number),
            None => &[],
        }
    }

    /// The table with a number is applied.
    fn apply(
        &self,
        alloc: Global,
        table: u32,
        state: &mut State14,
        store: &mut Store,
    ) -> Result<ReadyApplied, OutOfMemory>
        requires layout { state.old.layout ≡ layout_of self.now.decls }
        requires shapes { store.old.shapes ≡ shapes_of (signature14 self.now.decls) self.now.entries }
        ensures layout { OnOk result (state.new.layout ≡ state.old.layout) }
        ensures shapes { OnOk result (store.new.shapes ≡ store.old.shapes) }
        ensures applies { IfOk result (λ a. Applies self.now table a (moment state.old store.old) (moment state.new store.new)) }
    {
        let applied = self.tables.apply(alloc, table, state, store)?;
        Ok(applied)
    }

    /// A table is applied, and no block follows.
    fn run_apply<'r>(
        &self,
        alloc: Global,
        stack: &mut ControlStack<'r>,
        taken: Option<Taken>,
        table: u32,
        rest: &'r [ControlNode],
        state: &mut State14,
        store: &mut Store,
    ) -> Result<(), OutOfMemory>
        requires layout { state.old.layout ≡ layout_of self.now.decls }
        requires shapes { store.old.shapes ≡ shapes_of (signature14 self.now.decls) self.now.entries }
        ensures { OnOk result (PassesOn self.now taken (piece.Apply table) rest.now stack.old.left stack.new.left state.old state.new store.old store.new) }
    {
        self.apply(alloc, table, state, store)?;
        Ok(())
    }

    /// A table is applied, and branches follow.
    fn run_branches<'r>(
        &self,
        alloc: Global,
        stack: &mut ControlStack<'r>,
        taken: Option<Taken>,
        table: u32,
        named: &[u32],
        rest: &'r [ControlNode],
        state: &mut State14,
        store: &mut Store,
    ) -> Result<(), OutOfMemory>
        requires layout { state.old.layout ≡ layout_of self.now.decls }
        requires shapes { store.old.shapes ≡ shapes_of (signature14 self.now.decls) self.now.entries }
        ensures { OnOk result (PassesOn self.now taken (piece.ApplyBranches table named.now) rest.now stack.old.left stack.new.left state.old state.new store.old store.new) }
    {
        let applied = self.apply(alloc, table, state, store)?;
        let taken = taken_of(applied, named);
        stack.push(Some(taken), rest)?;
        Ok(())
    }

    /// The node in front runs, with these behind it.
    #[tactic(auto, using(crate::proofs::Passing::nothing_passes, crate::proofs::Passing::both_passes, crate::proofs::Passing::inner_passes, crate::proofs::Passing::call_passes, crate::proofs::Passing::branch_passes))]
    fn run_node<'r>(
        &'r self,
        alloc: Global,
        stack: &mut ControlStack<'r>,
        taken: Option<Taken>,
        node: &'r ControlNode,
        rest: &'r [ControlNode],
        state: &mut State14,
        store: &mut Store,
    ) -> Result<(), OutOfMemory>
        requires layout { state.old.layout ≡ layout_of self.now.decls }
        requires shapes { store.old.shapes ≡ shapes_of (signature14 self.now.decls) self.now.entries }
        ensures { OnOk result (PassesOn self.now taken node.now rest.now stack.old.left stack.new.left state.old state.new store.old store.new) }
    {
        match node {
            ControlNode::Nothing => Ok(()),
            ControlNode::Both(first) => {
                run_both(stack, taken, *first, rest)?;
                Ok(())
            }
            ControlNode::Apply(table) => {
                self.run_apply(alloc, stack, taken, *table, rest, state, store)
            }
            ControlNode::ApplyBranches(table, named) => {
                let named = named.as_slice();
                self.run_branches(alloc, stack, taken, *table, named, rest, state, store)
            }
            ControlNode::NoBranches => Err(OutOfMemory),
            ControlNode::If(condition, first) => {
                run_if(stack, taken, condition, *first, rest, state)?;
                Ok(())
            }
            ControlNode::Call(control) => {
                stack.push(taken, self.body(*control))?;
                Ok(())
            }
            ControlNode::Inner => {
                stack.push(taken, rest)?;
                Ok(())
            }
            ControlNode::Branch(label, first) => {
                run_branch(stack, taken, *label, *first, rest)?;
                Ok(())
            }
        }
    }

    /// What is in front runs.
    fn run_first<'r>(
        &'r self,
        alloc: Global,
        stack: &mut ControlStack<'r>,
        work: Work<'r>,
        state: &mut State14,
        store: &mut Store,
    ) -> Result<(), OutOfMemory>
        requires layout { state.old.layout ≡ layout_of self.now.decls }
        requires shapes { store.old.shapes ≡ shapes_of (signature14 self.now.decls) self.now.entries }
        ensures { OnOk result (GoesOn self.now (work.entry ∷ stack.old.left) stack.new.left state.old state.new store.old store.new) }
    {
        // No statement is without nodes.
        let Some((node, rest)) = first_of(work.nodes) else {
            return Err(OutOfMemory);
        };
        self.run_node(alloc, stack, work.taken, node, rest, state, store)?;
        Ok(())
    }

    /// Statements run until none is left. The number of turns is only there to show that they end.
    #[tactic(auto, using(crate::proofs::Passing::goes_nowhere, crate::proofs::Passing::goes_turn, crate::proofs::Passing::goes_end))]
    fn run_all<'r>(
        &'r self,
        alloc: Global,
        stack: &mut ControlStack<'r>,
        state: &mut State14,
        store: &mut Store,
    ) -> Result<(), OutOfMemory>
        requires layout { state.old.layout ≡ layout_of self.now.decls }
        requires shapes { store.old.shapes ≡ shapes_of (signature14 self.now.decls) self.now.entries }
        ensures { OnOk result (GoesOn self.now stack.old.left [] state.old state.new store.old store.new) }
    {
        for _ in 0..u64::MAX {
            match stack.left.pop() {
                Some(work) => self.run_first(alloc, stack, work, state, store)?,
                None => return Ok(()),
            }
        }
        Err(OutOfMemory)
    }

    /// The body of the control with a number runs.
    #[tactic(auto, using(crate::proofs::Passing::begun_goes))]
    fn run_body<'r>(
        &'r self,
        alloc: Global,
        stack: &mut ControlStack<'r>,
        control: u32,
        state: &mut State14,
        store: &mut Store,
    ) -> Result<(), OutOfMemory>
        requires layout { state.old.layout ≡ layout_of self.now.decls }
        requires shapes { store.old.shapes ≡ shapes_of (signature14 self.now.decls) self.now.entries }
        ensures { OnOk result (GoesOn self.now (left_of None (body_at (control_nodes self.now.decls) (Some control)) ∷ []) [] state.old state.new store.old store.new) }
    {
        stack.begin(self.body(Some(control)))?;
        self.run_all(alloc, stack, state, store)?;
        Ok(())
    }

    /// The control with a number runs; nothing where there is none.
    pub(crate) fn run_control<'r>(
        &'r self,
        alloc: Global,
        stack: &mut ControlStack<'r>,
        control: Option<u32>,
        state: &mut State14,
        store: &mut Store,
    ) -> Result<(), OutOfMemory>
        requires layout { state.old.layout ≡ layout_of self.now.decls }
        requires shapes { store.old.shapes ≡ shapes_of (signature14 self.now.decls) self.now.entries }
        ensures layout { OnOk result (state.new.layout ≡ state.old.layout) }
        ensures shapes { OnOk result (store.new.shapes ≡ store.old.shapes) }
        ensures runs { OnOk result ((x : Expanded) → IsExpanded self.now.decls x → (pipeline : Name) → control ≡ control_number self.now.decls pipeline → (body : Stmt) → PipelineExpands self.now.decls pipeline body
            → moment state.new store.new ≡ Control14 (setting self.now x) body (moment state.old store.old)) }
    {
        match control {
            Some(number) => {
                self.run_body(alloc, stack, number, state, store)?;
                Ok(())
            }
            None => Ok(()),
        }
    }
}
