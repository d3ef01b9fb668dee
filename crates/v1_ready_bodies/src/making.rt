// What is still to be done is kept on a stack, and so is what was made.
ghost use Rattle.std.specs.Prelude.{◌≡◌, ◌<◌, ◌+◌, ◌∷◌, true, false, List, IfOk, OnOk};
ghost use Rattle.p416_syntax.specs.declared.program.Decl16.{Decl16};
ghost use Rattle.p416_syntax.specs.Tree.{no_cases};
ghost use Rattle.v1_ready_statements.specs.Around.{Around};
ghost use Rattle.v1_ready_statements.specs.Statements.{has_default};
ghost use Rattle.v1_ready_nodes.specs.Held.{Held};
ghost use Rattle.v1_ready_bodies.specs.Seen.{seen_statement, IsNodeIn};
ghost use Rattle.v1_ready_bodies.specs.declared.making.Work.TheVariants as work;
ghost use Rattle.v1_ready_bodies.specs.internal.Steps.{seen_all, AreNodesIn, first_made, others_made, State, AreHigh, finish, steps, steps_of};

use crate::cases::has_default;
use p4x_bits::{OutOfMemory, Text};
use p416_syntax::{CaseLabel, ExpView, StmtHead, StmtView};
use work_stack::Stack;

/// What is still to be done.
#[derive(Drop)]
pub(crate) enum Work<'a> {
    /// A statement is made.
    Make(StmtView<'a>),
    /// The statements of cases are made: that of `default` comes foremost, and behind it those of actions, the last one first.
    MakeCases(StmtView<'a>),
    /// The statements of one more case were made; whether `default` stands in front of it.
    Case(&'a CaseLabel, bool),
    /// Names are taken off but for so many, and seats but for so many.
    Shorten(usize, usize),
    /// Two statements are joined, one behind the other.
    Sequence,
    /// A statement becomes one that is run where a condition holds.
    If(ExpView<'a>),
    /// Two statements become the two branches of a condition.
    IfElse(ExpView<'a>),
    /// The statements of cases become a switch over a table.
    Switch(&'a Text, StmtView<'a>),
}

/// Takes the statement in front; none where there is none.
pub(crate) fn take_made(made: &mut Stack<Option<usize>>) -> Option<usize>
    ensures first { (h : Held) → seen_statement h result ≡ first_made (seen_all h made.old) }
    ensures rest { (h : Held) → seen_all h made.new ≡ others_made (seen_all h made.old) }
    ensures within { (h : Held) → AreNodesIn h made.old → IsNodeIn h result }
    ensures others { (h : Held) → AreNodesIn h made.old → AreNodesIn h made.new }
{
    match made.pop() {
        Some(place) => place,
        None => None,
    }
}

/// Puts two statements in front of what is left, of which the second stands behind the first.
fn put_both<'a>(
    left: &mut Stack<Work<'a>>,
    first: StmtView<'a>,
    second: StmtView<'a>,
) -> Result<(), OutOfMemory>
    ensures { OnOk result (left.new ≡ work.Make first.entry ∷ work.Make second.entry ∷ work.Sequence ∷ left.old) }
{
    left.push_three(Work::Make(first), Work::Make(second), Work::Sequence)
}

/// Puts a statement in front of what is left, behind which there are so many names and seats again.
fn put_within<'a>(
    left: &mut Stack<Work<'a>>,
    of: StmtView<'a>,
    names: usize,
    seats: usize,
) -> Result<(), OutOfMemory>
    ensures { OnOk result (left.new ≡ work.Make of.entry ∷ work.Shorten names seats ∷ left.old) }
{
    left.push_two(Work::Make(of), Work::Shorten(names, seats))
}

/// Puts the statement of an `if` in front of what is left.
fn put_if<'a>(
    left: &mut Stack<Work<'a>>,
    condition: ExpView<'a>,
    positive: StmtView<'a>,
    names: usize,
    seats: usize,
) -> Result<(), OutOfMemory>
    ensures { OnOk result (left.new ≡ work.Make positive.entry ∷ work.Shorten names seats ∷ work.If condition.entry ∷ left.old) }
{
    left.push(Work::If(condition))?;
    put_within(left, positive, names, seats)
}

/// Puts both branches of an `if` in front of what is left.
fn put_if_else<'a>(
    left: &mut Stack<Work<'a>>,
    condition: ExpView<'a>,
    positive: StmtView<'a>,
    negative: StmtView<'a>,
    names: usize,
    seats: usize,
) -> Result<(), OutOfMemory>
    ensures { OnOk result (left.new ≡ work.Make positive.entry ∷ work.Shorten names seats ∷ work.Make negative.entry ∷ work.Shorten names seats ∷ work.IfElse condition.entry ∷ left.old) }
{
    left.push(Work::IfElse(condition))?;
    put_within(left, negative, names, seats)?;
    put_within(left, positive, names, seats)
}

/// Puts the cases of a switch in front of what is left.
fn put_switch<'a>(
    left: &mut Stack<Work<'a>>,
    table: &'a Text,
    cases: StmtView<'a>,
) -> Result<(), OutOfMemory>
    ensures { OnOk result (left.new ≡ work.MakeCases cases.entry ∷ work.Switch table.entry cases.entry ∷ left.old) }
{
    let again = cases.again();
    left.push_two(Work::MakeCases(cases), Work::Switch(table, again))
}

/// Puts cases in front of what is left, and the statements of one more case behind them.
fn put_case<'a>(
    left: &mut Stack<Work<'a>>,
    before: StmtView<'a>,
    label: &'a CaseLabel,
    body: StmtView<'a>,
    names: usize,
    seats: usize,
) -> Result<(), OutOfMemory>
    ensures { OnOk result (left.new ≡ work.MakeCases before.entry ∷ work.Make body.entry ∷ work.Shorten names seats ∷ work.Case label.entry (has_default before.entry) ∷ left.old) }
{
    let had = has_default(&before);
    left.push(Work::Case(label, had))?;
    put_within(left, body, names, seats)?;
    left.push(Work::MakeCases(before))
}

/// Puts what a statement is made of in front of what is left, where names and seats are so many; whether it is made of others.
pub(crate) fn put_parts<'a>(
    left: &mut Stack<Work<'a>>,
    of: &StmtView<'a>,
    names: usize,
    seats: usize,
) -> Result<bool, OutOfMemory>
    ensures parts { IfOk result (λ made_of. made_of ≡ true → (b : Around) (ds : List Decl16) (st : State) → AreHigh ds names seats st → finish b ds left.new st ≡ finish b ds (work.Make of.now ∷ left.old) st) }
    ensures fewer { IfOk result (λ made_of. made_of ≡ true → steps left.new < steps_of of.now + steps left.old) }
    ensures same { IfOk result (λ made_of. made_of ≡ false → left.new ≡ left.old) }
{
    match of.head() {
        StmtHead::Then(before, last) => put_both(left, before, last)?,
        StmtHead::Block(body) => put_within(left, body, names, seats)?,
        StmtHead::If(condition, positive) => put_if(left, condition, positive, names, seats)?,
        StmtHead::IfElse(condition, positive, negative) => {
            put_if_else(left, condition, positive, negative, names, seats)?;
        }
        StmtHead::Switch(table, cases) => put_switch(left, table, cases)?,
        _ => return Ok(false),
    }
    Ok(true)
}

/// The same of cases. What is no list of cases counts as want of memory.
pub(crate) fn put_case_parts<'a>(
    left: &mut Stack<Work<'a>>,
    cases: &StmtView<'a>,
    names: usize,
    seats: usize,
) -> Result<bool, OutOfMemory>
    ensures parts { IfOk result (λ made_of. made_of ≡ true → (b : Around) (ds : List Decl16) (st : State) → AreHigh ds names seats st → finish b ds left.new st ≡ finish b ds (work.MakeCases cases.now ∷ left.old) st) }
    ensures fewer { IfOk result (λ made_of. made_of ≡ true → steps left.new < steps_of cases.now + steps left.old) }
    ensures same { IfOk result (λ made_of. made_of ≡ false → left.new ≡ left.old) }
    ensures none { IfOk result (λ made_of. made_of ≡ false → cases.now ≡ no_cases) }
{
    match cases.head() {
        StmtHead::NoCases => Ok(false),
        StmtHead::Case(before, label, body) => {
            put_case(left, before, label, body, names, seats)?;
            Ok(true)
        }
        _ => Err(OutOfMemory),
    }
}
