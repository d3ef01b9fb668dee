// Ready expressions and ready statements over them.
ghost use Rattle.std.specs.Prelude.{◌≡◌, ◌<◌, [], length, option_map, IfOk, IfSome, OnOk};
ghost use Rattle.node_lists.specs.Trees.{Adds};
ghost use Rattle.p416_syntax.specs.Declarations.{layouts_of};
ghost use Rattle.p416_calls.specs.Seen.{seen_place};
ghost use Rattle.p416_scopes.specs.Seen.{seen_scope};
ghost use Rattle.v1_core.specs.Nodes.{ready_at};
ghost use Rattle.v1_core.specs.Kept as expressions;
ghost use Rattle.v1_ready_forms.specs.Expressions.{ready_of_exp};
ghost use Rattle.v1_ready_blocks.specs.Nodes.{tree_of};
ghost use Rattle.v1_ready_blocks.specs.Kept as statements;
ghost use Rattle.v1_ready_program.specs.Seen.{seen_seats};
ghost use Rattle.v1_ready_program.specs.internal.Coded.{seen_plan, seen_value, seen_parts, IsValueIn, ArePartsIn};
ghost use Rattle.v1_ready_program.specs.internal.Passes.{made};
ghost use Rattle.v1_ready_nodes.specs.Held.{ready_in, trees_in, IsHeld, IsOver, Grows};

use p4x_bits::OutOfMemory;
use p416_calls::Place;
use p416_syntax::ExpView;
use state_store::Shape;
use std::alloc::Global;
use std::marker::Model;
use v1_core::{Expressions, FrameLayout};
use v1_ready_blocks::{Node, Statements};
use v1_ready_program::build::{Parts, make};
use v1_ready_program::plans::{Around, Plan};
use v1_ready_program::ready_expression;

/// Ready expressions, and over them the nodes of ready statements.
#[derive(Drop)]
pub struct ReadyNodes<'l> {
    /// The expressions.
    pub expressions: Expressions<'l>,
    /// The nodes of statements.
    pub statements: Statements<'l>,
}

impl<'l> Model for ReadyNodes<'l> {
    ghost use Rattle.v1_ready_nodes.specs.Held.{Held};

    ghost Value = { Held };

    ghost view = { λ n. record { expressions = n.expressions; statements = n.statements } };
}

impl<'l> ReadyNodes<'l> {
    /// Nothing, over the frames of a layout and objects of these shapes. The one error is want of memory.
    #[tactic(auto, using(crate::proofs::Growing::none_held))]
    pub fn new(
        alloc: Global,
        layout: &'l FrameLayout,
        shapes: &[Shape],
    ) -> Result<Self, OutOfMemory>
        ensures is { IfOk result (λ n. n ≡ record { expressions = expressions.kept layout.now []; statements = statements.kept (record { layout = layout.now; shapes = shapes.now; expressions = 0 }) [] }) }
        ensures held { IfOk result IsHeld }
    {
        let statements = Statements::new(alloc, layout, shapes)?;
        Ok(ReadyNodes {
            expressions: Expressions::new(alloc, layout),
            statements,
        })
    }

    /// Makes the expression of a plan with these parts. The one error is want of memory.
    #[tactic(auto, using(crate::proofs::Growing::grows_ready))]
    pub fn make(&mut self, plan: Plan, parts: Parts) -> Result<Option<usize>, OutOfMemory>
        requires held { IsHeld self.old }
        ensures value { IfOk result (λ v. seen_value (ready_in self.new) v ≡ made (seen_plan plan) (seen_parts (ready_in self.old) parts)) }
        ensures within { ArePartsIn (length (ready_in self.old)) parts → IfOk result (IsValueIn (length (ready_in self.new))) }
        ensures grows { OnOk result (Grows self.old self.new) }
    {
        make(&mut self.expressions, plan, parts)
    }

    /// Makes an expression at a place ready; as `v1_ready_program::ready_expression`.
    #[tactic(auto, using(crate::proofs::Growing::grows_ready, crate::proofs::Growing::place_within))]
    pub fn expression<'a>(
        &mut self,
        alloc: Global,
        around: Around<'_, 'a>,
        place: Place<'a>,
        expression: &ExpView<'a>,
    ) -> Result<Option<usize>, OutOfMemory>
        requires held { IsHeld self.old }
        requires types { around.types.now ≡ layouts_of around.scope.now.top.now }
        ensures ready { IfOk result (λ found. option_map (ready_at (ready_in self.new)) found ≡ ready_of_exp (seen_scope around.entry.scope.now) (seen_seats around.entry.seats.now) (seen_place place.entry) expression.now) }
        ensures within { IfOk result (λ found. IfSome found (λ place. place < length (ready_in self.new))) }
        ensures grows { OnOk result (Grows self.old self.new) }
    {
        let found = ready_expression(alloc, around, place, &mut self.expressions, expression)?;
        Ok(found)
    }

    /// Puts one more node of a statement behind the others, and gives its place. Errors as those of `Statements::put`.
    #[tactic(auto, using(crate::proofs::Growing::grows_tree))]
    pub fn put(&mut self, node: Node) -> Result<usize, OutOfMemory>
        requires held { IsHeld self.old }
        requires over { IsOver (length (ready_in self.old)) node }
        ensures tree { IfOk result (λ place. Adds (trees_in self.old) (trees_in self.new) place (tree_of (ready_in self.old) (trees_in self.old) node)) }
        ensures ready { OnOk result (ready_in self.new ≡ ready_in self.old) }
        ensures grows { OnOk result (Grows self.old self.new) }
    {
        self.statements.put(node)
    }
}
