// The single statements of a block (P4_16 1.2, "Statements").
ghost use Rattle.std.specs.Prelude.{◌≡◌};
ghost use Rattle.v1_ready_operands.specs.Callees.{around_of, AreCallees};

use crate::parts::{
    action_numbered, assignment_of, condition_of, initial_of, seat_numbered, start_of, table_called,
};
use p4x_bits::OutOfMemory;
use p416_names::Kind;
use p416_syntax::ExpView;
use std::alloc::Global;
use std::marker::Model;
use v1_ready_bodies::Singles;
use v1_ready_calls::ready_call;
use v1_ready_nodes::ReadyNodes;
use v1_ready_operands::Callees;
use v1_ready_program::Around;
use v1_seats::Seat;

/// What makes the single statements of a block ready whose calls name these. Contracts see the block.
#[derive(Drop)]
pub struct InBlock<'b, 'a> {
    callees: Callees<'b, 'a>,
}

impl<'b, 'a> Model for InBlock<'b, 'a> {
    ghost use Rattle.std.specs.Coded.{codes};
    ghost use Rattle.p416_syntax.specs.contracts.program.Syntax16 as program;
    ghost use Rattle.p416_syntax.specs.contracts.controls.Local as local;
    ghost use Rattle.p416_syntax.specs.contracts.controls.Action16 as action;
    ghost use Rattle.v1_ready_statements.specs.Around.{Around as Block};
    ghost use Rattle.v1_ready_operands.specs.Callees.{around_of, AreCallees};

    ghost Value = { Block };

    ghost coded = { Prim.hlevel (codes, program.the_row.coded, local.the_row.coded, action.the_row.coded) };

    ghost view = { λ s. around_of s.callees };

    ghost invariant = { λ s. AreCallees s.callees };
}

impl<'b, 'a> InBlock<'b, 'a> {
    /// What makes the single statements of a block ready whose calls name these. It takes no memory.
    pub fn new(callees: Callees<'b, 'a>) -> Self
        requires { AreCallees callees }
        ensures { result ≡ around_of callees.entry }
    {
        InBlock { callees }
    }
}

impl<'b, 'a> Singles<'a> for InBlock<'b, 'a> {
    ghost block = { λ s. s };

    fn table(&self, name: &[u8]) -> Option<u32> {
        table_called(self.callees, name)
    }

    fn action(&self, name: &[u8]) -> Option<u32> {
        action_numbered(self.callees, name)
    }

    fn variable(&self, number: usize) -> Result<Option<Seat<'a>>, OutOfMemory> {
        let found = seat_numbered(self.callees, number)?;
        Ok(found)
    }

    fn condition(
        &self,
        alloc: Global,
        nodes: &mut ReadyNodes<'_>,
        around: Around<'_, 'a>,
        condition: &ExpView<'a>,
    ) -> Result<Option<usize>, OutOfMemory> {
        let found = condition_of(alloc, self.callees, nodes, around, condition)?;
        Ok(found)
    }

    fn start(
        &self,
        nodes: &mut ReadyNodes<'_>,
        around: Around<'_, 'a>,
        number: usize,
    ) -> Result<Option<usize>, OutOfMemory> {
        let found = start_of(self.callees, nodes, around, number)?;
        Ok(found)
    }

    fn initial(
        &self,
        alloc: Global,
        nodes: &mut ReadyNodes<'_>,
        around: Around<'_, 'a>,
        number: usize,
        kind: Kind<'a>,
        value: &ExpView<'a>,
    ) -> Result<Option<usize>, OutOfMemory> {
        let found = initial_of(alloc, self.callees, nodes, around, number, kind, value)?;
        Ok(found)
    }

    fn assignment(
        &self,
        alloc: Global,
        nodes: &mut ReadyNodes<'_>,
        around: Around<'_, 'a>,
        target: &ExpView<'a>,
        value: &ExpView<'a>,
    ) -> Result<Option<usize>, OutOfMemory> {
        assignment_of(alloc, self.callees, nodes, around, target, value)
    }

    fn call(
        &self,
        alloc: Global,
        nodes: &mut ReadyNodes<'_>,
        around: Around<'_, 'a>,
        call: &ExpView<'a>,
    ) -> Result<Option<usize>, OutOfMemory> {
        ready_call(alloc, nodes, around, self.callees, call)
    }
}
