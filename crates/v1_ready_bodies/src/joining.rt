// Statements are joined, and single ones made.
ghost use Rattle.std.specs.Prelude.{◌≡◌, ◌∷◌, List, Some, IfOk, OnOk};
ghost use Rattle.p416_syntax.specs.declared.program.Decl16.{Decl16};
ghost use Rattle.v1_ready_bodies.specs.declared.making.Work.TheVariants as work;
ghost use Rattle.p416_syntax.specs.Kinds.{boolean};
ghost use Rattle.p416_syntax.specs.Calls.{value};
ghost use Rattle.p416_syntax.specs.Statements.{behind};
ghost use Rattle.p416_scopes.specs.Seen.{seen_scope};
ghost use Rattle.v1_ready_blocks.specs.Statements.{nothing};
ghost use Rattle.v1_ready_program.specs.Seen.{seen_seats};
ghost use Rattle.v1_ready_statements.specs.Around.{table_found};
ghost use Rattle.v1_ready_statements.specs.Tested.{ready_test};
ghost use Rattle.v1_ready_statements.specs.Statements.{number_behind, seats_behind, ready_of_statement};
ghost use Rattle.v1_ready_nodes.specs.Held.{IsHeld, Grows};
ghost use Rattle.v1_ready_bodies.specs.Seen.{seen_test, seen_statement, IsNodeIn, IsStanding, Stays};
ghost use Rattle.v1_ready_bodies.specs.internal.Steps.{seen_all, AreNodesIn, branch_made, sequence_made, state_of, step};

use crate::making::take_made;
use crate::putting::{put_branch, put_sequence, ready_nothing};
use crate::singles::Singles;
use crate::standing::Standing;
use p4x_bits::OutOfMemory;
use p416_syntax::{ExpView, StmtHead, StmtView};
use std::alloc::Global;
use v1_ready_nodes::ReadyNodes;
use work_stack::Stack;

/// Two statements are joined, one behind the other.
pub(crate) fn make_sequence(
    nodes: &mut ReadyNodes<'_>,
    made: &mut Stack<Option<usize>>,
) -> Result<(), OutOfMemory>
    requires held { IsHeld nodes.old }
    requires made { AreNodesIn nodes.old made.old }
    ensures made { OnOk result (seen_all nodes.new made.new ≡ sequence_made (seen_all nodes.old made.old)) }
    ensures within { OnOk result (AreNodesIn nodes.new made.new) }
    ensures grows { OnOk result (Grows nodes.old nodes.new) }
{
    let second = take_made(made);
    let first = take_made(made);
    let both = put_sequence(nodes, first, second)?;
    made.push(both)
}

/// Two statements become the branches of a test.
fn join_branches(
    nodes: &mut ReadyNodes<'_>,
    made: &mut Stack<Option<usize>>,
    test: Option<usize>,
) -> Result<(), OutOfMemory>
    requires held { IsHeld nodes.old }
    requires made { AreNodesIn nodes.old made.old }
    ensures made { OnOk result (seen_all nodes.new made.new ≡ branch_made (seen_test nodes.old test) (seen_all nodes.old made.old)) }
    ensures within { OnOk result (AreNodesIn nodes.new made.new) }
    ensures grows { OnOk result (Grows nodes.old nodes.new) }
{
    let negative = take_made(made);
    let positive = take_made(made);
    let branch = put_branch(nodes, test, positive, negative)?;
    made.push(branch)
}

/// Two statements become the branches of a condition.
pub(crate) fn make_branches<'a, S: Singles<'a>>(
    alloc: Global,
    singles: &S,
    nodes: &mut ReadyNodes<'_>,
    made: &mut Stack<Option<usize>>,
    standing: &Standing<'_, 'a>,
    condition: &ExpView<'a>,
) -> Result<(), OutOfMemory>
    requires held { IsHeld nodes.old }
    requires made { AreNodesIn nodes.old made.old }
    requires standing { IsStanding standing.now }
    ensures made { OnOk result (seen_all nodes.new made.new ≡ branch_made (ready_test (seen_scope standing.now.scope) (seen_seats standing.now.seats) (table_found (S.block singles.now)) (value boolean) condition.now) (seen_all nodes.old made.old)) }
    ensures within { OnOk result (AreNodesIn nodes.new made.new) }
    ensures grows { OnOk result (Grows nodes.old nodes.new) }
{
    let test = singles.condition(alloc, nodes, standing.around(), condition)?;
    join_branches(nodes, made, test)?;
    Ok(())
}

/// Puts that nothing is done in front of what was made.
pub(crate) fn make_nothing(
    nodes: &mut ReadyNodes<'_>,
    made: &mut Stack<Option<usize>>,
) -> Result<(), OutOfMemory>
    requires held { IsHeld nodes.old }
    requires made { AreNodesIn nodes.old made.old }
    ensures made { OnOk result (seen_all nodes.new made.new ≡ Some nothing ∷ seen_all nodes.old made.old) }
    ensures within { OnOk result (AreNodesIn nodes.new made.new) }
    ensures grows { OnOk result (Grows nodes.old nodes.new) }
{
    let nothing = ready_nothing(nodes)?;
    made.push(nothing)
}

/// A statement is run where a condition holds.
pub(crate) fn make_if<'a, S: Singles<'a>>(
    alloc: Global,
    singles: &S,
    nodes: &mut ReadyNodes<'_>,
    made: &mut Stack<Option<usize>>,
    standing: &Standing<'_, 'a>,
    condition: &ExpView<'a>,
) -> Result<(), OutOfMemory>
    requires held { IsHeld nodes.old }
    requires made { AreNodesIn nodes.old made.old }
    requires standing { IsStanding standing.now }
    ensures made { OnOk result (seen_all nodes.new made.new ≡ branch_made (ready_test (seen_scope standing.now.scope) (seen_seats standing.now.seats) (table_found (S.block singles.now)) (value boolean) condition.now) (Some nothing ∷ seen_all nodes.old made.old)) }
    ensures within { OnOk result (AreNodesIn nodes.new made.new) }
    ensures grows { OnOk result (Grows nodes.old nodes.new) }
{
    make_nothing(nodes, made)?;
    make_branches(alloc, singles, nodes, made, standing, condition)
}

/// Makes a statement that isn't made of others. A list of cases, which is no statement, counts as want of memory.
#[tactic(auto, using(crate::proofs::Keeping::stays_same))]
fn single<'a, S: Singles<'a>>(
    alloc: Global,
    singles: &S,
    nodes: &mut ReadyNodes<'_>,
    standing: &mut Standing<'_, 'a>,
    of: &StmtView<'a>,
) -> Result<Option<usize>, OutOfMemory>
    requires held { IsHeld nodes.old }
    requires standing { IsStanding standing.old }
    ensures statement { IfOk result (λ found. seen_statement nodes.new found ≡ ready_of_statement (S.block singles.now) (seen_scope standing.old.scope) (seen_seats standing.old.seats) standing.old.number of.now) }
    ensures within { IfOk result (IsNodeIn nodes.new) }
    ensures grows { OnOk result (Grows nodes.old nodes.new) }
    ensures scope { OnOk result (seen_scope standing.new.scope ≡ behind of.now (seen_scope standing.old.scope)) }
    ensures seats { OnOk result (seen_seats standing.new.seats ≡ seats_behind (S.block singles.now) (seen_scope standing.old.scope) standing.old.number of.now (seen_seats standing.old.seats)) }
    ensures number { OnOk result (standing.new.number ≡ number_behind (seen_scope standing.old.scope) of.now standing.old.number) }
    ensures stays { OnOk result (Stays standing.old standing.new) }
{
    match of.head() {
        StmtHead::NoStatements => ready_nothing(nodes),
        StmtHead::Empty => ready_nothing(nodes),
        StmtHead::Var(of, name) => {
            let found = singles.start(nodes, standing.around(), standing.number)?;
            standing.declare(singles, of, name)?;
            Ok(found)
        }
        StmtHead::VarIs(of, name, value) => {
            let kind = standing.scope.kind_of_type(of);
            let number = standing.number;
            let found = singles.initial(alloc, nodes, standing.around(), number, kind, &value)?;
            standing.declare(singles, of, name)?;
            Ok(found)
        }
        StmtHead::Assign(target, value) => {
            let assigned = singles.assignment(alloc, nodes, standing.around(), &target, &value)?;
            Ok(assigned)
        }
        StmtHead::Expression(call) => {
            let called = singles.call(alloc, nodes, standing.around(), &call)?;
            Ok(called)
        }
        _ => Err(OutOfMemory),
    }
}

/// Makes a statement that isn't made of others, and puts it in front of what was made; as `single`.
pub(crate) fn make_single<'a, S: Singles<'a>>(
    alloc: Global,
    singles: &S,
    nodes: &mut ReadyNodes<'_>,
    made: &mut Stack<Option<usize>>,
    standing: &mut Standing<'_, 'a>,
    of: &StmtView<'a>,
) -> Result<(), OutOfMemory>
    requires held { IsHeld nodes.old }
    requires made { AreNodesIn nodes.old made.old }
    requires standing { IsStanding standing.old }
    ensures state { OnOk result ((ds : List Decl16) → state_of nodes.new standing.new made.new ≡ step (S.block singles.now) ds (work.Make of.now) (state_of nodes.old standing.old made.old)) }
    ensures within { OnOk result (AreNodesIn nodes.new made.new) }
    ensures grows { OnOk result (Grows nodes.old nodes.new) }
    ensures stays { OnOk result (Stays standing.old standing.new) }
{
    let found = single(alloc, singles, nodes, standing, of)?;
    made.push(found)
}
