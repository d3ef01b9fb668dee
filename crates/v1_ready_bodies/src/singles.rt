// What makes single statements ready.
ghost use Rattle.std.specs.Prelude.{◌≡◌, option_map, IfOk, OnOk};
ghost use Rattle.p416_syntax.specs.Kinds.{boolean};
ghost use Rattle.p416_syntax.specs.Calls.{value};
ghost use Rattle.p416_syntax.specs.Declarations.{layouts_of};
ghost use Rattle.p416_names.specs.SeenKinds.{seen_kind};
ghost use Rattle.p416_scopes.specs.Seen.{seen_scope};
ghost use Rattle.v1_seats.specs.Seen.{seen_seat};
ghost use Rattle.v1_ready_program.specs.Seen.{seen_seats};
ghost use Rattle.v1_ready_nodes.specs.Held.{IsHeld, Grows};
ghost use Rattle.v1_ready_statements.specs.Around.{Around as Block, table_found, action_found, variable_seat};
ghost use Rattle.v1_ready_statements.specs.Tested.{ready_test};
ghost use Rattle.v1_ready_statements.specs.Statements.{start_ready, initial_ready, assignment_ready};
ghost use Rattle.v1_ready_statements.specs.Called.{expression_ready};
ghost use Rattle.v1_ready_statements.specs.Blocks.{number_in};
ghost use Rattle.v1_ready_bodies.specs.Seen.{seen_test, seen_statement, IsNodeIn};

use p4x_bits::OutOfMemory;
use p416_names::Kind;
use p416_syntax::ExpView;
use std::alloc::Global;
use v1_ready_nodes::ReadyNodes;
use v1_ready_program::Around;
use v1_seats::Seat;

/// What makes the single statements of a block ready, which stand among its actions, its tables and the objects of its program. Each
/// method gives the place of what it makes, which it puts behind the others; none exactly where that is nothing. The one error is
/// want of memory, which what no accepted program has counts as.
pub trait Singles<'a> {
    // The block.
    ghost block: { Self → Block };

    /// The number of the table of this name; none where none has it.
    fn table(&self, name: &[u8]) -> Option<u32>
        ensures { result ≡ table_found (block self.now) name.now };

    /// The number of the action of this name; none where none has it.
    fn action(&self, name: &[u8]) -> Option<u32>
        ensures { result ≡ option_map number_in (action_found (block self.now) name.now) };

    /// The seat of the variable with this number among all of the program, from 0; none where none has it.
    fn variable(&self, number: usize) -> Result<Option<Seat<'a>>, OutOfMemory>
        ensures { IfOk result (λ found. option_map seen_seat found ≡ variable_seat (block self.now) number) };

    /// The test of a condition.
    fn condition(
        &self,
        alloc: Global,
        nodes: &mut ReadyNodes<'_>,
        around: Around<'_, 'a>,
        condition: &ExpView<'a>,
    ) -> Result<Option<usize>, OutOfMemory>
        requires held { IsHeld nodes.old }
        requires types { around.types.now ≡ layouts_of around.scope.now.top.now }
        ensures test { IfOk result (λ found. seen_test nodes.new found ≡ ready_test (seen_scope around.entry.scope.now) (seen_seats around.entry.seats.now) (table_found (block self.now)) (value boolean) condition.now) }
        ensures within { IfOk result (IsNodeIn nodes.new) }
        ensures grows { OnOk result (Grows nodes.old nodes.new) };

    /// That the variable with a number, which has no initial value, starts at 0.
    fn start(
        &self,
        nodes: &mut ReadyNodes<'_>,
        around: Around<'_, 'a>,
        number: usize,
    ) -> Result<Option<usize>, OutOfMemory>
        requires held { IsHeld nodes.old }
        requires types { around.types.now ≡ layouts_of around.scope.now.top.now }
        ensures statement { IfOk result (λ found. seen_statement nodes.new found ≡ start_ready (block self.now) (seen_scope around.entry.scope.now) number) }
        ensures within { IfOk result (IsNodeIn nodes.new) }
        ensures grows { OnOk result (Grows nodes.old nodes.new) };

    /// That the variable with a number, of a kind, has an initial value.
    fn initial(
        &self,
        alloc: Global,
        nodes: &mut ReadyNodes<'_>,
        around: Around<'_, 'a>,
        number: usize,
        kind: Kind<'a>,
        value: &ExpView<'a>,
    ) -> Result<Option<usize>, OutOfMemory>
        requires held { IsHeld nodes.old }
        requires types { around.types.now ≡ layouts_of around.scope.now.top.now }
        ensures statement { IfOk result (λ found. seen_statement nodes.new found ≡ initial_ready (block self.now) (seen_scope around.entry.scope.now) (seen_seats around.entry.seats.now) number (seen_kind kind.entry) value.now) }
        ensures within { IfOk result (IsNodeIn nodes.new) }
        ensures grows { OnOk result (Grows nodes.old nodes.new) };

    /// An assignment of a value to a target.
    fn assignment(
        &self,
        alloc: Global,
        nodes: &mut ReadyNodes<'_>,
        around: Around<'_, 'a>,
        target: &ExpView<'a>,
        value: &ExpView<'a>,
    ) -> Result<Option<usize>, OutOfMemory>
        requires held { IsHeld nodes.old }
        requires types { around.types.now ≡ layouts_of around.scope.now.top.now }
        ensures statement { IfOk result (λ found. seen_statement nodes.new found ≡ assignment_ready (block self.now) (seen_scope around.entry.scope.now) (seen_seats around.entry.seats.now) target.now value.now) }
        ensures within { IfOk result (IsNodeIn nodes.new) }
        ensures grows { OnOk result (Grows nodes.old nodes.new) };

    /// A call.
    fn call(
        &self,
        alloc: Global,
        nodes: &mut ReadyNodes<'_>,
        around: Around<'_, 'a>,
        call: &ExpView<'a>,
    ) -> Result<Option<usize>, OutOfMemory>
        requires held { IsHeld nodes.old }
        requires types { around.types.now ≡ layouts_of around.scope.now.top.now }
        ensures statement { IfOk result (λ found. seen_statement nodes.new found ≡ expression_ready (block self.now) (seen_scope around.entry.scope.now) (seen_seats around.entry.seats.now) call.now) }
        ensures within { IfOk result (IsNodeIn nodes.new) }
        ensures grows { OnOk result (Grows nodes.old nodes.new) };
}
