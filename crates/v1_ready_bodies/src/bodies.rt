// A statement is made ready with all within it.
ghost use Rattle.std.specs.Prelude.{◌≡◌, ◌<◌, [], ◌∷◌, IfOk, OnOk};
ghost use Rattle.p416_syntax.specs.Statements.{behind};
ghost use Rattle.p416_scopes.specs.Seen.{seen_scope};
ghost use Rattle.v1_ready_program.specs.Seen.{seen_seats};
ghost use Rattle.v1_ready_statements.specs.Around.{Around};
ghost use Rattle.v1_ready_statements.specs.Statements.{number_behind, seats_behind, ready_of_statement};
ghost use Rattle.v1_ready_bodies.specs.declared.making.Work.TheVariants as work;
ghost use Rattle.v1_ready_nodes.specs.Held.{IsHeld, Grows};
ghost use Rattle.v1_ready_bodies.specs.Seen.{seen_statement, IsNodeIn, IsStanding, Stays};
ghost use Rattle.v1_ready_bodies.specs.internal.Steps.{AreNodesIn, finish, state_of, steps};

use crate::cases::{make_case, make_switch};
use crate::joining::{make_branches, make_if, make_nothing, make_sequence, make_single};
use crate::making::{Work, put_case_parts, put_parts, take_made};
use crate::singles::Singles;
use crate::standing::Standing;
use p4x_bits::OutOfMemory;
use p416_syntax::StmtView;
use std::alloc::Global;
use v1_ready_nodes::ReadyNodes;
use work_stack::Stack;

/// A statement is made, or what it is made of is put in front of what is left.
#[tactic(auto, using(crate::proofs::Keeping::grows_not, crate::proofs::Keeping::stays_same))]
fn take_statement<'a, S: Singles<'a>>(
    alloc: Global,
    singles: &S,
    nodes: &mut ReadyNodes<'_>,
    made: &mut Stack<Option<usize>>,
    standing: &mut Standing<'_, 'a>,
    left: &mut Stack<Work<'a>>,
    of: &StmtView<'a>,
) -> Result<(), OutOfMemory>
    requires held { IsHeld nodes.old }
    requires made { AreNodesIn nodes.old made.old }
    requires standing { IsStanding standing.old }
    ensures finish { OnOk result (finish (S.block singles.now) standing.new.scope.top.now left.new (state_of nodes.new standing.new made.new) ≡ finish (S.block singles.now) standing.old.scope.top.now (work.Make of.now ∷ left.old) (state_of nodes.old standing.old made.old)) }
    ensures within { OnOk result (AreNodesIn nodes.new made.new) }
    ensures grows { OnOk result (Grows nodes.old nodes.new) }
    ensures stays { OnOk result (Stays standing.old standing.new) }
    ensures fewer { OnOk result (steps left.new < steps (work.Make of.now ∷ left.old)) }
{
    let names = standing.scope.len();
    let seats = standing.seats.len();
    let made_of = put_parts(left, of, names, seats)?;
    if made_of {
        return Ok(());
    }
    make_single(alloc, singles, nodes, made, standing, of)?;
    Ok(())
}

/// Cases are made, or what they are made of is put in front of what is left.
#[tactic(auto, using(crate::proofs::Keeping::grows_not))]
fn take_cases<'a>(
    nodes: &mut ReadyNodes<'_>,
    made: &mut Stack<Option<usize>>,
    standing: &Standing<'_, 'a>,
    left: &mut Stack<Work<'a>>,
    of: &StmtView<'a>,
) -> Result<(), OutOfMemory>
    requires held { IsHeld nodes.old }
    requires made { AreNodesIn nodes.old made.old }
    ensures finish { OnOk result ((b : Around) → finish b standing.now.scope.top.now left.new (state_of nodes.new standing.now made.new) ≡ finish b standing.now.scope.top.now (work.MakeCases of.now ∷ left.old) (state_of nodes.old standing.now made.old)) }
    ensures within { OnOk result (AreNodesIn nodes.new made.new) }
    ensures grows { OnOk result (Grows nodes.old nodes.new) }
    ensures fewer { OnOk result (steps left.new < steps (work.MakeCases of.now ∷ left.old)) }
{
    let names = standing.scope.len();
    let seats = standing.seats.len();
    let made_of = put_case_parts(left, of, names, seats)?;
    if made_of {
        Ok(())
    } else {
        make_nothing(nodes, made)
    }
}

/// Does the next of what is left.
#[tactic(auto, using(crate::proofs::Keeping::grows_not, crate::proofs::Keeping::stays_same, crate::proofs::Steps::turned, crate::proofs::Steps::shorten_done))]
fn take<'a, S: Singles<'a>>(
    alloc: Global,
    singles: &S,
    nodes: &mut ReadyNodes<'_>,
    made: &mut Stack<Option<usize>>,
    standing: &mut Standing<'_, 'a>,
    left: &mut Stack<Work<'a>>,
    next: Work<'a>,
) -> Result<(), OutOfMemory>
    requires held { IsHeld nodes.old }
    requires made { AreNodesIn nodes.old made.old }
    requires standing { IsStanding standing.old }
    ensures finish { OnOk result (finish (S.block singles.now) standing.new.scope.top.now left.new (state_of nodes.new standing.new made.new) ≡ finish (S.block singles.now) standing.old.scope.top.now (next.entry ∷ left.old) (state_of nodes.old standing.old made.old)) }
    ensures within { OnOk result (AreNodesIn nodes.new made.new) }
    ensures grows { OnOk result (Grows nodes.old nodes.new) }
    ensures stays { OnOk result (Stays standing.old standing.new) }
    ensures fewer { OnOk result (steps left.new < steps (next.entry ∷ left.old)) }
{
    match next {
        Work::Make(of) => take_statement(alloc, singles, nodes, made, standing, left, &of),
        Work::MakeCases(of) => take_cases(nodes, made, standing, left, &of),
        Work::Case(label, had) => make_case(nodes, made, label, had),
        Work::Shorten(names, seats) => standing.shorten(names, seats),
        Work::Sequence => make_sequence(nodes, made),
        Work::If(condition) => make_if(alloc, singles, nodes, made, standing, &condition),
        Work::IfElse(condition) => make_branches(alloc, singles, nodes, made, standing, &condition),
        Work::Switch(table, cases) => make_switch(singles, nodes, made, table, &cases),
    }
}

/// Does all that is left.
#[tactic(auto, using(crate::proofs::Keeping::grows_not, crate::proofs::Keeping::stays_same, crate::proofs::Keeping::still_stands))]
fn take_all<'a, S: Singles<'a>>(
    alloc: Global,
    singles: &S,
    nodes: &mut ReadyNodes<'_>,
    made: &mut Stack<Option<usize>>,
    standing: &mut Standing<'_, 'a>,
    left: &mut Stack<Work<'a>>,
) -> Result<(), OutOfMemory>
    requires held { IsHeld nodes.old }
    requires made { AreNodesIn nodes.old made.old }
    requires standing { IsStanding standing.old }
    ensures finish { OnOk result (state_of nodes.new standing.new made.new ≡ finish (S.block singles.now) standing.old.scope.top.now left.old (state_of nodes.old standing.old made.old)) }
    ensures within { OnOk result (AreNodesIn nodes.new made.new) }
    ensures grows { OnOk result (Grows nodes.old nodes.new) }
    ensures stays { OnOk result (Stays standing.old standing.new) }
{
    while let Some(next) = left.pop() {
        take(alloc, singles, nodes, made, standing, left, next)?;
    }
    Ok(())
}

/// Makes a statement of a block ready, or a list of statements, with all within it: the place of the statement that it is, which is put
/// behind the others; none exactly where it is none. Behind it the names that it declares are in scope, and the next variable is the
/// one behind those of the statement. What is still to be done is kept on a stack, so that nothing follows the nesting; in time
/// proportional to what stands within, but for what single statements take. The one error is want of memory, which a list of cases
/// in place of a statement counts as, and another statement in place of cases.
pub fn ready_behind<'a, S: Singles<'a>>(
    alloc: Global,
    singles: &S,
    nodes: &mut ReadyNodes<'_>,
    standing: &mut Standing<'_, 'a>,
    statement: &StmtView<'a>,
) -> Result<Option<usize>, OutOfMemory>
    requires held { IsHeld nodes.old }
    requires standing { IsStanding standing.old }
    ensures statement { IfOk result (λ found. seen_statement nodes.new found ≡ ready_of_statement (S.block singles.now) (seen_scope standing.old.scope) (seen_seats standing.old.seats) standing.old.number statement.now) }
    ensures within { IfOk result (IsNodeIn nodes.new) }
    ensures grows { OnOk result (Grows nodes.old nodes.new) }
    ensures scope { OnOk result (seen_scope standing.new.scope ≡ behind statement.now (seen_scope standing.old.scope)) }
    ensures seats { OnOk result (seen_seats standing.new.seats ≡ seats_behind (S.block singles.now) (seen_scope standing.old.scope) standing.old.number statement.now (seen_seats standing.old.seats)) }
    ensures number { OnOk result (standing.new.number ≡ number_behind (seen_scope standing.old.scope) statement.now standing.old.number) }
    ensures stays { OnOk result (Stays standing.old standing.new) }
{
    let mut made = Stack::new(alloc);
    let mut left: Stack<Work<'a>> = Stack::new(alloc);
    left.push(Work::Make(statement.again()))?;
    take_all(alloc, singles, nodes, &mut made, standing, &mut left)?;
    Ok(take_made(&mut made))
}

/// The same of a statement that is a scope of its own: behind it the names are those that stood in front of it.
#[tactic(auto, using(crate::proofs::Steps::scope_again, crate::proofs::Steps::seats_off))]
pub fn ready_body<'a, S: Singles<'a>>(
    alloc: Global,
    singles: &S,
    nodes: &mut ReadyNodes<'_>,
    standing: &mut Standing<'_, 'a>,
    statement: &StmtView<'a>,
) -> Result<Option<usize>, OutOfMemory>
    requires held { IsHeld nodes.old }
    requires standing { IsStanding standing.old }
    ensures statement { IfOk result (λ found. seen_statement nodes.new found ≡ ready_of_statement (S.block singles.now) (seen_scope standing.old.scope) (seen_seats standing.old.seats) standing.old.number statement.now) }
    ensures within { IfOk result (IsNodeIn nodes.new) }
    ensures grows { OnOk result (Grows nodes.old nodes.new) }
    ensures scope { OnOk result (seen_scope standing.new.scope ≡ seen_scope standing.old.scope) }
    ensures seats { OnOk result (seen_seats standing.new.seats ≡ seen_seats standing.old.seats) }
    ensures number { OnOk result (standing.new.number ≡ number_behind (seen_scope standing.old.scope) statement.now standing.old.number) }
    ensures stays { OnOk result (Stays standing.old standing.new) }
{
    let names = standing.scope.len();
    let seats = standing.seats.len();
    let found = ready_behind(alloc, singles, nodes, standing, statement)?;
    standing.shorten(names, seats)?;
    Ok(found)
}
