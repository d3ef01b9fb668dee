// The variables of a block start, and then come their initial values (P4_16 1.2, "Variable declarations").
ghost use Rattle.std.specs.Prelude.{◌≡◌, IfOk, OnOk};
ghost use Rattle.p416_syntax.specs.Scopes.{kind_of_type};
ghost use Rattle.p416_scopes.specs.Seen.{seen_scope};
ghost use Rattle.v1_ready_blocks.specs.Statements.{sequence};
ghost use Rattle.v1_ready_program.specs.Seen.{seen_seats};
ghost use Rattle.v1_ready_statements.specs.Statements.{both_ready, initial_ready, start_ready};
ghost use Rattle.v1_ready_nodes.specs.Held.{IsHeld, Grows};
ghost use Rattle.v1_ready_bodies.specs.Seen.{seen_statement, IsNodeIn, IsStanding};
ghost use Rattle.v1_ready_bodies.specs.Variables.{initial_before, initials_ready, starts_ready, variables_ready};

use crate::putting::put_sequence;
use crate::singles::Singles;
use crate::standing::Standing;
use p4x_bits::OutOfMemory;
use p416_syntax::{ExpView, Type16, Var};
use std::alloc::Global;
use v1_ready_nodes::ReadyNodes;

/// A variable of a block, with its number among all variables and parameters of actions of the program, from 0.
#[derive(Clone, Copy, Drop)]
pub struct OwnVariable<'a> {
    /// The number.
    pub number: usize,
    /// The variable.
    pub var: &'a Var,
}

/// The variable with a number starts at 0, in front of a statement.
fn start_before<'a, S: Singles<'a>>(
    singles: &S,
    nodes: &mut ReadyNodes<'_>,
    standing: &Standing<'_, 'a>,
    number: usize,
    rest: Option<usize>,
) -> Result<Option<usize>, OutOfMemory>
    requires held { IsHeld nodes.old }
    requires standing { IsStanding standing.now }
    requires rest { IsNodeIn nodes.old rest }
    ensures statement { IfOk result (λ found. seen_statement nodes.new found ≡ both_ready sequence (start_ready (S.block singles.now) (seen_scope standing.now.scope) number) (seen_statement nodes.old rest)) }
    ensures within { IfOk result (IsNodeIn nodes.new) }
    ensures grows { OnOk result (Grows nodes.old nodes.new) }
{
    let start = singles.start(nodes, standing.around(), number)?;
    put_sequence(nodes, start, rest)
}

/// Variables start, in front of a statement.
#[tactic(auto, using(crate::proofs::Keeping::grows_not))]
fn ready_starts<'a, S: Singles<'a>>(
    singles: &S,
    nodes: &mut ReadyNodes<'_>,
    standing: &Standing<'_, 'a>,
    variables: &[OwnVariable<'a>],
    rest: Option<usize>,
) -> Result<Option<usize>, OutOfMemory>
    requires held { IsHeld nodes.old }
    requires standing { IsStanding standing.now }
    requires rest { IsNodeIn nodes.old rest }
    ensures statement { IfOk result (λ found. seen_statement nodes.new found ≡ starts_ready (S.block singles.now) (seen_scope standing.now.scope) variables.now (seen_statement nodes.old rest)) }
    ensures within { IfOk result (IsNodeIn nodes.new) }
    ensures grows { OnOk result (Grows nodes.old nodes.new) }
{
    let mut found = rest;
    let mut left = variables.len();
    while left > 0 {
        left -= 1;
        found = start_before(singles, nodes, standing, variables[left].number, found)?;
    }
    Ok(found)
}

/// A variable with its initial value in front of a statement.
fn initial_given<'a, S: Singles<'a>>(
    alloc: Global,
    singles: &S,
    nodes: &mut ReadyNodes<'_>,
    standing: &Standing<'_, 'a>,
    number: usize,
    of: &Type16,
    value: &ExpView<'a>,
    rest: Option<usize>,
) -> Result<Option<usize>, OutOfMemory>
    requires held { IsHeld nodes.old }
    requires standing { IsStanding standing.now }
    requires rest { IsNodeIn nodes.old rest }
    ensures statement { IfOk result (λ found. seen_statement nodes.new found ≡ both_ready sequence (initial_ready (S.block singles.now) (seen_scope standing.now.scope) (seen_seats standing.now.seats) number (kind_of_type (seen_scope standing.now.scope).names of.now) value.now) (seen_statement nodes.old rest)) }
    ensures within { IfOk result (IsNodeIn nodes.new) }
    ensures grows { OnOk result (Grows nodes.old nodes.new) }
{
    let kind = standing.scope.kind_of_type(of);
    let initial = singles.initial(alloc, nodes, standing.around(), number, kind, value)?;
    let placed = put_sequence(nodes, initial, rest)?;
    Ok(placed)
}

/// The initial value of a variable, where it has one, in front of a statement.
#[tactic(auto, using(crate::proofs::Keeping::grows_not))]
fn initial_of<'a, S: Singles<'a>>(
    alloc: Global,
    singles: &S,
    nodes: &mut ReadyNodes<'_>,
    standing: &Standing<'_, 'a>,
    variable: OwnVariable<'a>,
    rest: Option<usize>,
) -> Result<Option<usize>, OutOfMemory>
    requires held { IsHeld nodes.old }
    requires standing { IsStanding standing.now }
    requires rest { IsNodeIn nodes.old rest }
    ensures statement { IfOk result (λ found. seen_statement nodes.new found ≡ initial_before (S.block singles.now) (seen_scope standing.now.scope) (seen_seats standing.now.seats) variable.entry.number variable.entry.var.now variable.entry.var.now.initial (seen_statement nodes.old rest)) }
    ensures within { IfOk result (IsNodeIn nodes.new) }
    ensures grows { OnOk result (Grows nodes.old nodes.new) }
{
    let var = variable.var;
    match &var.initial {
        Some(value) => initial_given(
            alloc,
            singles,
            nodes,
            standing,
            variable.number,
            &var.of,
            &value.view(),
            rest,
        ),
        None => Ok(rest),
    }
}

/// Initial values of variables, in front of a statement.
#[tactic(auto, using(crate::proofs::Keeping::grows_not))]
fn ready_initials<'a, S: Singles<'a>>(
    alloc: Global,
    singles: &S,
    nodes: &mut ReadyNodes<'_>,
    standing: &Standing<'_, 'a>,
    variables: &[OwnVariable<'a>],
    rest: Option<usize>,
) -> Result<Option<usize>, OutOfMemory>
    requires held { IsHeld nodes.old }
    requires standing { IsStanding standing.now }
    requires rest { IsNodeIn nodes.old rest }
    ensures statement { IfOk result (λ found. seen_statement nodes.new found ≡ initials_ready (S.block singles.now) (seen_scope standing.now.scope) (seen_seats standing.now.seats) variables.now (seen_statement nodes.old rest)) }
    ensures within { IfOk result (IsNodeIn nodes.new) }
    ensures grows { OnOk result (Grows nodes.old nodes.new) }
{
    let mut found = rest;
    let mut left = variables.len();
    while left > 0 {
        left -= 1;
        found = initial_of(alloc, singles, nodes, standing, variables[left], found)?;
    }
    Ok(found)
}

/// The variables of a block in front of a statement: all of them start, and then come their initial values, in order; none exactly where
/// one of these is none. Errors as those of `ready_body`.
pub fn ready_variables<'a, S: Singles<'a>>(
    alloc: Global,
    singles: &S,
    nodes: &mut ReadyNodes<'_>,
    standing: &Standing<'_, 'a>,
    variables: &[OwnVariable<'a>],
    rest: Option<usize>,
) -> Result<Option<usize>, OutOfMemory>
    requires held { IsHeld nodes.old }
    requires standing { IsStanding standing.now }
    requires rest { IsNodeIn nodes.old rest }
    ensures statement { IfOk result (λ found. seen_statement nodes.new found ≡ variables_ready (S.block singles.now) (seen_scope standing.now.scope) (seen_seats standing.now.seats) variables.now (seen_statement nodes.old rest)) }
    ensures within { IfOk result (IsNodeIn nodes.new) }
    ensures grows { OnOk result (Grows nodes.old nodes.new) }
{
    let initials = ready_initials(alloc, singles, nodes, standing, variables, rest)?;
    ready_starts(singles, nodes, standing, variables, initials)
}
