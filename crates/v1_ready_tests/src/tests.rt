// An expression in which tables may be applied is built from the inside out.
ghost use Rattle.std.specs.Prelude.{◌≡◌, ◌<◌, [], ◌∷◌, length, map, option_map, IfOk, IfSome, OnOk};
ghost use Rattle.name_numbers.specs.Names.{find_name};
ghost use Rattle.p416_syntax.specs.Heads.{of_exp_head};
ghost use Rattle.p416_syntax.specs.Declarations.{layouts_of};
ghost use Rattle.p416_calls.specs.Seen.{seen_place};
ghost use Rattle.p416_scopes.specs.Seen.{seen_scope};
ghost use Rattle.v1_ready_forms.specs.Ways.{its_value};
ghost use Rattle.v1_ready_blocks.specs.Nodes.{test_at};
ghost use Rattle.v1_ready_program.specs.Seen.{seen_seats};
ghost use Rattle.v1_ready_program.specs.internal.Passes.{asked};
ghost use Rattle.v1_ready_nodes.specs.Held.{trees_in, IsHeld, Grows};
ghost use Rattle.v1_ready_statements.specs.Tested.{ready_test};
ghost use Rattle.v1_ready_tests.specs.internal.Coded.{seen_marked, seen_test, seen_made, seen_all, seen_made_parts, IsTestIn, IsMadeIn, AreMadeIn, ArePartsMade};
ghost use Rattle.v1_ready_tests.specs.internal.Passes.{told_test, test_member, test_made, made_of, made_step, all_made, made_by};

use crate::applied::{applied_table, told_by};
use crate::made::{Made, MadeParts, take_parts};
use crate::plans::{Marked, marked_plans};
use crate::putting::{as_test, put_by_plan, put_test};
use name_numbers::Numbering;
use p4x_bits::OutOfMemory;
use p416_calls::Place;
use p416_syntax::{ExpHead, ExpView};
use p416_typing::{Typed, typed_expression};
use std::alloc::Global;
use v1_ready_nodes::ReadyNodes;
use v1_ready_program::Around;
use work_stack::Stack;

/// What the member of this name tells of the application of a table.
fn told_test(
    nodes: &mut ReadyNodes<'_>,
    tables: &Numbering<'_>,
    call: &ExpView<'_>,
    word: &[u8],
) -> Result<Option<usize>, OutOfMemory>
    requires held { IsHeld nodes.old }
    ensures test { IfOk result (λ t. seen_test nodes.new t ≡ told_test (find_name tables.now) call.now word.now) }
    ensures within { IfOk result (IsTestIn nodes.new) }
    ensures grows { OnOk result (Grows nodes.old nodes.new) }
{
    match applied_table(tables, call) {
        Some(table) => {
            let test = put_test(nodes, told_by(table, word))?;
            Ok(Some(test))
        }
        None => Ok(None),
    }
}

/// The test of the member of this name of a part.
fn member_test(
    nodes: &mut ReadyNodes<'_>,
    tables: &Numbering<'_>,
    marked: Marked,
    call: &ExpView<'_>,
    word: &[u8],
    parts: MadeParts,
) -> Result<Option<usize>, OutOfMemory>
    requires held { IsHeld nodes.old }
    requires parts { ArePartsMade nodes.old parts }
    ensures test { IfOk result (λ t. seen_test nodes.new t ≡ test_member (find_name tables.now) (seen_marked marked) call.now word.now (seen_made_parts nodes.old parts)) }
    ensures within { IfOk result (IsTestIn nodes.new) }
    ensures grows { OnOk result (Grows nodes.old nodes.new) }
{
    if parts.first.is_table() {
        if marked.alone {
            told_test(nodes, tables, call, word)
        } else {
            Ok(None)
        }
    } else {
        put_by_plan(nodes, marked.plan, parts)
    }
}

/// The test of an expression in which a table is applied, with these parts.
fn test_made(
    nodes: &mut ReadyNodes<'_>,
    tables: &Numbering<'_>,
    marked: Marked,
    head: ExpHead<'_>,
    parts: MadeParts,
) -> Result<Option<usize>, OutOfMemory>
    requires held { IsHeld nodes.old }
    requires parts { ArePartsMade nodes.old parts }
    ensures test { IfOk result (λ t. seen_test nodes.new t ≡ test_made (find_name tables.now) (seen_marked marked) (of_exp_head head.entry) (seen_made_parts nodes.old parts)) }
    ensures within { IfOk result (IsTestIn nodes.new) }
    ensures grows { OnOk result (Grows nodes.old nodes.new) }
{
    match head {
        ExpHead::Member(call, word) => {
            member_test(nodes, tables, marked, &call, word.as_slice(), parts)
        }
        _ => put_by_plan(nodes, marked.plan, parts),
    }
}

/// What an expression with these parts is made as.
fn made_of(
    nodes: &mut ReadyNodes<'_>,
    tables: &Numbering<'_>,
    marked: Marked,
    view: &ExpView<'_>,
    parts: MadeParts,
) -> Result<Made, OutOfMemory>
    requires held { IsHeld nodes.old }
    requires parts { ArePartsMade nodes.old parts }
    ensures made { IfOk result (λ v. seen_made nodes.new v ≡ made_of (find_name tables.now) (seen_marked marked) view.now (seen_made_parts nodes.old parts)) }
    ensures within { IfOk result (IsMadeIn nodes.new) }
    ensures grows { OnOk result (Grows nodes.old nodes.new) }
{
    if parts.has_tables(marked.applied, view.head()) {
        let test = test_made(nodes, tables, marked, view.head(), parts)?;
        Ok(Made::Tested(marked.applied, test))
    } else {
        let value = nodes.make(marked.plan, parts.ready())?;
        Ok(Made::Plain(value))
    }
}

/// Builds an expression in place of its parts.
fn build_one(
    nodes: &mut ReadyNodes<'_>,
    tables: &Numbering<'_>,
    made: &mut Stack<Made>,
    marked: Marked,
    view: &ExpView<'_>,
) -> Result<(), OutOfMemory>
    requires held { IsHeld nodes.old }
    requires made { AreMadeIn nodes.old made.old }
    ensures made { OnOk result (seen_all nodes.new made.new ≡ made_step (find_name tables.now) (seen_marked marked) view.now (seen_all nodes.old made.old)) }
    ensures within { OnOk result (AreMadeIn nodes.new made.new) }
    ensures grows { OnOk result (Grows nodes.old nodes.new) }
{
    let parts = take_parts(made, view.head());
    let one = made_of(nodes, tables, marked, view, parts)?;
    made.push(one)?;
    Ok(())
}

/// Builds these expressions by their plans; the first of them is that which has all others within it.
fn build(
    alloc: Global,
    nodes: &mut ReadyNodes<'_>,
    tables: &Numbering<'_>,
    plans: &[Marked],
    views: &[ExpView<'_>],
) -> Result<Stack<Made>, OutOfMemory>
    requires held { IsHeld nodes.old }
    requires many { length plans.now ≡ length views.now }
    ensures made { IfOk result (λ made. seen_all nodes.new made ≡ all_made (find_name tables.now) (map seen_marked plans.now) views.now) }
    ensures within { IfOk result (AreMadeIn nodes.new) }
    ensures grows { OnOk result (Grows nodes.old nodes.new) }
{
    let mut made = Stack::new(alloc);
    let mut left = views.len();
    while left > 0 {
        left -= 1;
        build_one(nodes, tables, &mut made, plans[left], &views[left])?;
    }
    Ok(made)
}

/// Makes an expression with all within it, of which the first is it.
fn made_whole<'a>(
    alloc: Global,
    nodes: &mut ReadyNodes<'_>,
    around: Around<'_, 'a>,
    tables: &Numbering<'_>,
    place: Place<'a>,
    expression: &ExpView<'a>,
) -> Result<Stack<Made>, OutOfMemory>
    requires held { IsHeld nodes.old }
    requires types { around.types.now ≡ layouts_of around.scope.now.top.now }
    ensures made { IfOk result (λ made. seen_all nodes.new made ≡ made_by (seen_scope around.entry.scope.now) (seen_seats around.entry.seats.now) (find_name tables.now) (asked (seen_place place.entry) its_value) expression.now ∷ []) }
    ensures within { IfOk result (AreMadeIn nodes.new) }
    ensures grows { OnOk result (Grows nodes.old nodes.new) }
{
    let Typed { views, rows } = typed_expression(alloc, around.scope, expression)?;
    let plans = marked_plans(alloc, around, place, &views, rows)?;
    let made = build(alloc, nodes, tables, &plans, &views)?;
    Ok(made)
}

/// Makes an expression at a place ready in which tables may be applied, which have these names in order: the place of the test that
/// gives its value, which is put behind the others; none exactly where it is no single value. The time is proportional to what
/// stands within it, but for look-ups. The one error is want of memory, which numbers, widths and places count as that no accepted
/// program has.
pub fn ready_test<'a>(
    alloc: Global,
    nodes: &mut ReadyNodes<'_>,
    around: Around<'_, 'a>,
    tables: &Numbering<'_>,
    place: Place<'a>,
    expression: &ExpView<'a>,
) -> Result<Option<usize>, OutOfMemory>
    requires held { IsHeld nodes.old }
    requires types { around.types.now ≡ layouts_of around.scope.now.top.now }
    ensures test { IfOk result (λ found. option_map (test_at (trees_in nodes.new)) found ≡ ready_test (seen_scope around.entry.scope.now) (seen_seats around.entry.seats.now) (find_name tables.now) (seen_place place.entry) expression.now) }
    ensures within { IfOk result (λ found. IfSome found (λ place. place < length (trees_in nodes.new))) }
    ensures grows { OnOk result (Grows nodes.old nodes.new) }
{
    let mut all = made_whole(alloc, nodes, around, tables, place, expression)?;
    match all.pop() {
        Some(made) => {
            let test = as_test(nodes, made)?;
            Ok(test)
        }
        None => Ok(None),
    }
}
