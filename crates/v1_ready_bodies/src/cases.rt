// The cases of a switch (P4_16 1.2, "Switch statement").
ghost use Rattle.std.specs.Prelude.{◌≡◌, ◌∷◌, IfOk, OnOk};
ghost use Rattle.v1_ready_statements.specs.Around.{table_found};
ghost use Rattle.v1_ready_statements.specs.Statements.{has_default};
ghost use Rattle.v1_ready_nodes.specs.Held.{Held, IsHeld, Grows};
ghost use Rattle.v1_ready_bodies.specs.Seen.{seen_statement, IsNodeIn};
ghost use Rattle.v1_ready_bodies.specs.internal.Steps.{seen_all, AreNodesIn, case_made, cases_joined, default_made, first_made, others_made, switch_made, one_joined};

use crate::making::take_made;
use crate::putting::{put_labelled, put_otherwise, put_switch};
use crate::singles::Singles;
use p4x_bits::{OutOfMemory, Text};
use p416_syntax::{CaseLabel, StmtHead, StmtView};
use v1_ready_nodes::ReadyNodes;
use work_stack::Stack;

/// Whether `default` stands in one of these cases.
pub(crate) fn has_default(cases: &StmtView<'_>) -> bool
    ensures { result ≡ has_default cases.now }
{
    let mut left = cases.again();
    while let StmtHead::Case(before, label, _) = left.head() {
        if let CaseLabel::Default = label {
            return true;
        }
        left = before;
    }
    false
}

/// The statement in front changes places with the one behind it.
fn pass_behind(made: &mut Stack<Option<usize>>) -> Result<(), OutOfMemory>
    ensures made { OnOk result ((h : Held) → seen_all h made.new ≡ first_made (others_made (seen_all h made.old)) ∷ first_made (seen_all h made.old) ∷ others_made (others_made (seen_all h made.old))) }
    ensures within { OnOk result ((h : Held) → AreNodesIn h made.old → AreNodesIn h made.new) }
{
    let body = take_made(made);
    let default = take_made(made);
    made.push(body)?;
    made.push(default)
}

/// The statements of `default` were made, which count where there is no other `default` in front.
#[tactic(auto, using(crate::proofs::Keeping::grows_not))]
fn make_default(
    nodes: &mut ReadyNodes<'_>,
    made: &mut Stack<Option<usize>>,
    had: bool,
) -> Result<(), OutOfMemory>
    requires held { IsHeld nodes.old }
    requires made { AreNodesIn nodes.old made.old }
    ensures made { OnOk result (seen_all nodes.new made.new ≡ default_made had (seen_all nodes.old made.old)) }
    ensures within { OnOk result (AreNodesIn nodes.new made.new) }
    ensures grows { OnOk result (Grows nodes.old nodes.new) }
{
    let body = take_made(made);
    if had {
        return Ok(());
    }
    take_made(made);
    let default = put_otherwise(nodes, body)?;
    made.push(default)
}

/// The statements of one more case were made.
#[tactic(auto, using(crate::proofs::Keeping::grows_not))]
pub(crate) fn make_case(
    nodes: &mut ReadyNodes<'_>,
    made: &mut Stack<Option<usize>>,
    label: &CaseLabel,
    had: bool,
) -> Result<(), OutOfMemory>
    requires held { IsHeld nodes.old }
    requires made { AreNodesIn nodes.old made.old }
    ensures made { OnOk result (seen_all nodes.new made.new ≡ case_made label.now had (seen_all nodes.old made.old)) }
    ensures within { OnOk result (AreNodesIn nodes.new made.new) }
    ensures grows { OnOk result (Grows nodes.old nodes.new) }
{
    match label {
        CaseLabel::Action(_) => pass_behind(made),
        CaseLabel::Default => make_default(nodes, made, had),
    }
}

/// Puts the case of an action in front of others.
#[tactic(auto, using(crate::proofs::Keeping::grows_not))]
fn join_case<'a, S: Singles<'a>>(
    singles: &S,
    nodes: &mut ReadyNodes<'_>,
    made: &mut Stack<Option<usize>>,
    rest: Option<usize>,
    label: &CaseLabel,
) -> Result<Option<usize>, OutOfMemory>
    requires held { IsHeld nodes.old }
    requires made { AreNodesIn nodes.old made.old }
    requires rest { IsNodeIn nodes.old rest }
    ensures joined { IfOk result (λ found. one_joined (S.block singles.now) (seen_statement nodes.old rest) label.now (seen_all nodes.old made.old) ≡ seen_statement nodes.new found ∷ seen_all nodes.new made.new) }
    ensures rest { IfOk result (IsNodeIn nodes.new) }
    ensures within { OnOk result (AreNodesIn nodes.new made.new) }
    ensures grows { OnOk result (Grows nodes.old nodes.new) }
{
    match label {
        CaseLabel::Action(name) => {
            let body = take_made(made);
            let joined = put_labelled(nodes, singles.action(name.as_slice()), body, rest)?;
            Ok(joined)
        }
        CaseLabel::Default => Ok(rest),
    }
}

/// Joins cases from the last one on, in front of what stands behind them.
#[tactic(auto, using(crate::proofs::Keeping::grows_not))]
fn join_cases<'a, S: Singles<'a>>(
    singles: &S,
    nodes: &mut ReadyNodes<'_>,
    made: &mut Stack<Option<usize>>,
    rest: Option<usize>,
    cases: &StmtView<'_>,
) -> Result<Option<usize>, OutOfMemory>
    requires held { IsHeld nodes.old }
    requires made { AreNodesIn nodes.old made.old }
    requires rest { IsNodeIn nodes.old rest }
    ensures joined { IfOk result (λ found. cases_joined (S.block singles.now) (seen_statement nodes.old rest) cases.now (seen_all nodes.old made.old) ≡ seen_statement nodes.new found ∷ seen_all nodes.new made.new) }
    ensures rest { IfOk result (IsNodeIn nodes.new) }
    ensures within { OnOk result (AreNodesIn nodes.new made.new) }
    ensures grows { OnOk result (Grows nodes.old nodes.new) }
{
    let mut found = rest;
    let mut left = cases.again();
    while let StmtHead::Case(before, label, _) = left.head() {
        found = join_case(singles, nodes, made, found, label)?;
        left = before;
    }
    match left.head() {
        StmtHead::NoCases => Ok(found),
        _ => Ok(None),
    }
}

/// The statements of cases become a switch over a table.
pub(crate) fn make_switch<'a, S: Singles<'a>>(
    singles: &S,
    nodes: &mut ReadyNodes<'_>,
    made: &mut Stack<Option<usize>>,
    table: &Text,
    cases: &StmtView<'_>,
) -> Result<(), OutOfMemory>
    requires held { IsHeld nodes.old }
    requires made { AreNodesIn nodes.old made.old }
    ensures made { OnOk result (seen_all nodes.new made.new ≡ switch_made (table_found (S.block singles.now) table.now) (cases_joined (S.block singles.now) (first_made (seen_all nodes.old made.old)) cases.now (others_made (seen_all nodes.old made.old)))) }
    ensures within { OnOk result (AreNodesIn nodes.new made.new) }
    ensures grows { OnOk result (Grows nodes.old nodes.new) }
{
    let default = take_made(made);
    let joined = join_cases(singles, nodes, made, default, cases)?;
    let switch = put_switch(nodes, singles.table(table.as_slice()), joined)?;
    made.push(switch)
}
