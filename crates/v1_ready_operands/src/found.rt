// What is found of headers, stacks and structs from the outside in: names, and choices between what stands behind them.
ghost use Rattle.std.specs.Prelude.{◌≡◌, ◌<◌, ◌++◌, ℕ, List, [], ◌∷◌, None, length, map, option_to_list, IfOk, OnOk};
ghost use Rattle.name_numbers.specs.Names.{find_name};
ghost use Rattle.p416_syntax.specs.Heads.{of_exp_head};
ghost use Rattle.p416_syntax.specs.Declarations.{top_names, layouts_of};
ghost use Rattle.p416_syntax.specs.Calls.{owner};
ghost use Rattle.p416_scopes.specs.Seen.{seen_scope};
ghost use Rattle.p416_typing.specs.Rows.{row_of};
ghost use Rattle.p416_typing.specs.Seen.{seen_row};
ghost use Rattle.v1_ready_forms.specs.Named.{seat_of_name};
ghost use Rattle.v1_ready_forms.specs.Ways.{Way, its_value};
ghost use Rattle.v1_ready_forms.specs.Spots.{spot_with};
ghost use Rattle.v1_ready_program.specs.Seen.{seen_seats};
ghost use Rattle.v1_ready_program.specs.internal.Ways.{way_at};
ghost use Rattle.v1_ready_program.specs.internal.Coded.{AreWays, seen_ways, seen_ask, seen_asks, IsAskIn, AreAsksIn};
ghost use Rattle.v1_ready_program.specs.internal.Passes.{asked, front, behind_front};
ghost use Rattle.v1_ready_nodes.specs.Held.{IsHeld, Grows};
ghost use Rattle.v1_ready_statements.specs.Tested.{range_behind, way_range};
ghost use Rattle.v1_ready_operands.specs.internal.Coded.{seen_founds, AreFoundIn};
ghost use Rattle.v1_ready_operands.specs.internal.SourcePasses.{asked_found, found_of, asked_parts, parts_by, source_parts, founds};

use crate::follow::follow;
use name_numbers::Numbering;
use p4x_bits::OutOfMemory;
use p416_calls::Place;
use p416_names::Kind;
use p416_syntax::{ExpHead, ExpView};
use p416_typing::Row;
use std::alloc::Global;
use v1_ready_blocks::RangePlace;
use v1_ready_nodes::ReadyNodes;
use v1_ready_program::Around;
use v1_ready_program::asks::{Ask, fill_parts, step_on, take_ask, way_in};
use v1_ready_program::spots::Spot;
use v1_ready_program::ways::{VALUE, Ways};
use v1_ready_tests::ready_test;
use work_stack::Stack;

/// What was found.
#[derive(Clone, Copy, Drop)]
pub enum Found {
    /// These parts, or nothing.
    Parts(Option<RangePlace>),
    /// A choice between the two that follow, by the test at this place, where the condition is one.
    Chosen(Option<usize>),
}

/// The parts that a name with this way from it leads to.
fn name_parts<'a>(
    around: Around<'_, 'a>,
    ways: &Ways<'a>,
    way: usize,
    text: &[u8],
) -> Result<Option<RangePlace>, OutOfMemory>
    requires types { around.types.now ≡ layouts_of around.scope.now.top.now }
    requires ways { AreWays ways.now }
    requires way { way < length (seen_ways ways.now) }
    ensures { IfOk result (λ range. range ≡ range_behind (way_range (layouts_of around.entry.scope.now.top.now) (way_at (seen_ways ways.now) way)) (spot_with None (seat_of_name (seen_seats around.entry.seats.now) text.now))) }
{
    match around.seats.find(text) {
        Some(seat) => follow(ways, around.types, way, Spot { seat, told: None }),
        None => Ok(None),
    }
}

/// What an expression is found as, of which this way is asked; nothing where that is found further in.
fn asked_found<'a>(
    alloc: Global,
    nodes: &mut ReadyNodes<'_>,
    around: Around<'_, 'a>,
    tables: &Numbering<'_>,
    ways: &Ways<'a>,
    way: usize,
    head: ExpHead<'a>,
) -> Result<Option<Found>, OutOfMemory>
    requires held { IsHeld nodes.old }
    requires types { around.types.now ≡ layouts_of around.scope.now.top.now }
    requires ways { AreWays ways.now }
    requires way { way < length (seen_ways ways.now) }
    ensures found { IfOk result (λ found. seen_founds nodes.new (option_to_list found) ≡ asked_found (seen_scope around.entry.scope.now) (seen_seats around.entry.seats.now) (find_name tables.now) (way_at (seen_ways ways.now) way) (of_exp_head head.entry)) }
    ensures within { IfOk result (λ found. AreFoundIn nodes.new (option_to_list found)) }
    ensures grows { OnOk result (Grows nodes.old nodes.new) }
{
    match head {
        ExpHead::Name(text) => {
            let range = name_parts(around, ways, way, text.as_slice())?;
            Ok(Some(Found::Parts(range)))
        }
        ExpHead::Member(_, _) => Ok(None),
        ExpHead::Index(_, _) => Ok(None),
        ExpHead::Choice(condition, _, _) => {
            let place = Place::Value(Kind::Boolean);
            let test = ready_test(alloc, nodes, around, tables, place, &condition)?;
            Ok(Some(Found::Chosen(test)))
        }
        _ => Ok(Some(Found::Parts(None))),
    }
}

/// Puts what is asked of the parts of an expression in front, of which a way is asked; the way on from its first part is put already.
fn push_asked<'a>(
    asks: &mut Stack<Ask<'a>>,
    way: usize,
    further: usize,
    head: ExpHead<'a>,
) -> Result<(), OutOfMemory>
    ensures parts { OnOk result ((ways : List Way) → seen_asks ways asks.new ≡ asked_parts (way_at ways way) (way_at ways further) (of_exp_head head.entry) ++ seen_asks ways asks.old) }
    ensures within { OnOk result ((n : ℕ) → way < n → further < n → AreAsksIn n asks.old → AreAsksIn n asks.new) }
{
    match head {
        ExpHead::Member(_, _) => asks.push(Ask::Asked(Place::Owner, further)),
        ExpHead::Index(_, _) => asks.push(Ask::Asked(Place::Owner, further)),
        ExpHead::Slice(_, _, _) => asks.push(Ask::Passed),
        ExpHead::Call(_, _) => asks.push_two(Ask::Passed, Ask::Passed),
        ExpHead::Lookahead(_, _, _) => asks.push_two(Ask::Passed, Ask::Passed),
        ExpHead::Cast(_, _) => asks.push(Ask::Passed),
        ExpHead::Unary(_, _) => asks.push(Ask::Passed),
        ExpHead::Binary(_, _, _) => asks.push_two(Ask::Passed, Ask::Passed),
        ExpHead::Choice(_, _, _) => {
            let chosen = Ask::Asked(Place::Owner, way);
            asks.push_three(Ask::Passed, chosen, chosen)
        }
        ExpHead::Argument(_, _) => asks.push_two(Ask::Passed, Ask::Passed),
        ExpHead::Listed(_) => asks.push(Ask::Passed),
        _ => Ok(()),
    }
}

/// Puts what is asked of the parts of an expression in front.
fn push_parts<'a>(
    asks: &mut Stack<Ask<'a>>,
    ask: Ask<'a>,
    further: usize,
    head: ExpHead<'a>,
) -> Result<(), OutOfMemory>
    ensures parts { OnOk result ((ways : List Way) → seen_asks ways asks.new ≡ parts_by (seen_ask ways ask.entry) (way_at ways further) (of_exp_head head.entry) ++ seen_asks ways asks.old) }
    ensures within { OnOk result ((n : ℕ) → IsAskIn n ask.entry → further < n → AreAsksIn n asks.old → AreAsksIn n asks.new) }
{
    match ask {
        Ask::Asked(_, way) => push_asked(asks, way, further, head),
        Ask::Passed => fill_parts(asks, Ask::Passed, head),
        Ask::Called(_) => fill_parts(asks, Ask::Passed, head),
    }
}

/// What an expression is found as, given what is asked of it.
fn found_of<'a>(
    alloc: Global,
    nodes: &mut ReadyNodes<'_>,
    around: Around<'_, 'a>,
    tables: &Numbering<'_>,
    ways: &Ways<'a>,
    ask: Ask<'a>,
    head: ExpHead<'a>,
) -> Result<Option<Found>, OutOfMemory>
    requires held { IsHeld nodes.old }
    requires types { around.types.now ≡ layouts_of around.scope.now.top.now }
    requires ways { AreWays ways.now }
    requires ask { IsAskIn (length (seen_ways ways.now)) ask }
    ensures found { IfOk result (λ found. seen_founds nodes.new (option_to_list found) ≡ found_of (seen_scope around.entry.scope.now) (seen_seats around.entry.seats.now) (find_name tables.now) (seen_ask (seen_ways ways.now) ask.entry) (of_exp_head head.entry)) }
    ensures within { IfOk result (λ found. AreFoundIn nodes.new (option_to_list found)) }
    ensures grows { OnOk result (Grows nodes.old nodes.new) }
{
    match ask {
        Ask::Asked(_, way) => asked_found(alloc, nodes, around, tables, ways, way, head),
        Ask::Passed => Ok(None),
        Ask::Called(_) => Ok(None),
    }
}

/// What the next expression is found as, given what is known of it; what is asked of its parts is put in front.
fn next_found<'a>(
    alloc: Global,
    nodes: &mut ReadyNodes<'_>,
    around: Around<'_, 'a>,
    tables: &Numbering<'_>,
    ways: &mut Ways<'a>,
    asks: &mut Stack<Ask<'a>>,
    view: &ExpView<'a>,
    row: Row<'a>,
) -> Result<Option<Found>, OutOfMemory>
    requires held { IsHeld nodes.old }
    requires types { around.types.now ≡ layouts_of around.scope.now.top.now }
    requires row { seen_row (top_names around.scope.now.top.now) row ≡ row_of (seen_scope around.scope.now) view.now }
    requires ways { AreWays ways.old }
    requires asks { AreAsksIn (length (seen_ways ways.old)) asks.old }
    ensures found { IfOk result (λ found. seen_founds nodes.new (option_to_list found) ≡ found_of (seen_scope around.entry.scope.now) (seen_seats around.entry.seats.now) (find_name tables.now) (front (seen_asks (seen_ways ways.old) asks.old)) view.now) }
    ensures within { IfOk result (λ found. AreFoundIn nodes.new (option_to_list found)) }
    ensures grows { OnOk result (Grows nodes.old nodes.new) }
    ensures asks { OnOk result (seen_asks (seen_ways ways.new) asks.new ≡ source_parts (row_of (seen_scope around.entry.scope.now) view.now) (front (seen_asks (seen_ways ways.old) asks.old)) view.now ++ behind_front (seen_asks (seen_ways ways.old) asks.old)) }
    ensures ways { OnOk result (AreWays ways.new) }
    ensures asked { OnOk result (AreAsksIn (length (seen_ways ways.new)) asks.new) }
{
    let ask = take_ask(asks);
    let found = found_of(alloc, nodes, around, tables, ways, ask, view.head())?;
    let further = ways.put(step_on(view.head(), row, way_in(ask)))?;
    push_parts(asks, ask, further, view.head())?;
    Ok(found)
}

/// Puts what was found behind the others.
fn put_found(founds: &mut Vec<Found>, found: Option<Found>) -> Result<(), OutOfMemory>
    ensures { OnOk result (founds.new.items ≡ founds.old.items ++ option_to_list found) }
{
    if let Some(found) = found {
        founds.push(found)?;
    }
    Ok(())
}

/// What these expressions are found as, which are one with all within it, given what is known of them.
pub fn all_found<'a>(
    alloc: Global,
    nodes: &mut ReadyNodes<'_>,
    around: Around<'_, 'a>,
    tables: &Numbering<'_>,
    views: &[ExpView<'a>],
    mut rows: Stack<Row<'a>>,
) -> Result<Vec<Found>, OutOfMemory>
    requires held { IsHeld nodes.old }
    requires types { around.types.now ≡ layouts_of around.scope.now.top.now }
    requires rows { map (seen_row (top_names around.scope.now.top.now)) rows ≡ map (row_of (seen_scope around.scope.now)) views.now }
    ensures found { IfOk result (λ found. seen_founds nodes.new found.items ≡ founds (seen_scope around.entry.scope.now) (seen_seats around.entry.seats.now) (find_name tables.now) (asked owner its_value ∷ []) views.now) }
    ensures within { IfOk result (λ found. AreFoundIn nodes.new found.items) }
    ensures grows { OnOk result (Grows nodes.old nodes.new) }
{
    let mut ways = Ways::new(alloc)?;
    let mut asks = Stack::new(alloc);
    asks.push(Ask::Asked(Place::Owner, VALUE))?;
    let mut founds = Vec::new(alloc);
    for view in views {
        let Some(row) = rows.pop() else {
            return Err(OutOfMemory);
        };
        let found = next_found(
            alloc, nodes, around, tables, &mut ways, &mut asks, view, row,
        )?;
        put_found(&mut founds, found)?;
    }
    Ok(founds)
}
