// Actions made ready (P4_16 1.2, "Actions").
ghost use Rattle.std.specs.Prelude.{◌≡◌, ◌+◌, ◌-◌, All, drop, length, map, option_map, IfOk, IfSome, OnOk};
ghost use Rattle.p416_syntax.specs.Declarations.{action_scope};
ghost use Rattle.p416_scopes.specs.Seen.{seen_part, seen_scope};
ghost use Rattle.p416_visits.specs.Left.{height, shortened};
ghost use Rattle.v1_seats.specs.Seen.{seen_seat};
ghost use Rattle.v1_core.specs.Layouts.{Layout};
ghost use Rattle.v1_ready_blocks.specs.Nodes.{IsSlot};
ghost use Rattle.v1_ready_program.specs.Seen.{seen_seats};
ghost use Rattle.v1_ready_nodes.specs.Held.{Held, IsHeld, Grows};
ghost use Rattle.v1_ready_statements.specs.Around.{declared_seat, slot_of_seat};
ghost use Rattle.v1_ready_statements.specs.Blocks.{all_of, body_ready, parameter_seats, parameter_slots, slots_from};
ghost use Rattle.v1_block_run.specs.Blocks.{seen_parameters};
ghost use Rattle.v1_ready_operands.specs.Callees.{seen_action};
ghost use Rattle.v1_ready_bodies.specs.Seen.{seen_statement, IsNodeIn, IsStanding, Stays};
ghost use Rattle.v1_ready_locals.specs.Seen.{seen_body, seen_bodies, IsActionIn};

use p4x_bits::{OutOfMemory, Rows, Text};
use p416_names::Kind;
use p416_scopes::Part;
use p416_syntax::Param;
use std::alloc::Global;
use v1_block_run::ReadyAction;
use v1_core::FrameLayout;
use v1_ready_blocks::is_slot;
use v1_ready_bodies::{Singles, Standing, ready_body};
use v1_ready_nodes::ReadyNodes;
use v1_ready_operands::OwnAction;
use v1_ready_program::NamedSeats;
use v1_seats::Seat;

/// A number, and so many more. A sum of more bits than an address has counts as want of memory.
fn further(number: usize, count: usize) -> Result<usize, OutOfMemory>
    ensures { IfOk result (λ n. n ≡ number + count) }
{
    match number.checked_add(count) {
        Some(n) => Ok(n),
        None => Err(OutOfMemory),
    }
}

/// Gives a parameter with this number its seat, inside other names.
fn seat_parameter<'a, S: Singles<'a>>(
    singles: &S,
    seats: &mut NamedSeats<'a>,
    number: usize,
    name: &'a Text,
) -> Result<(), OutOfMemory>
    ensures { OnOk result (seen_seats seats.new ≡ declared_seat (S.block singles.now) name.now number (seen_seats seats.old)) }
{
    let seat = singles.variable(number)?;
    seats.declare(name.as_slice(), seat)?;
    Ok(())
}

/// Gives parameters their seats inside other names, of which the first has this number and is the innermost.
#[tactic(auto, using(crate::proofs::Leaving::all_seated, crate::proofs::Leaving::first_seated))]
fn seat_parameters<'a, S: Singles<'a>>(
    singles: &S,
    seats: &mut NamedSeats<'a>,
    first: usize,
    parameters: &'a [Param],
) -> Result<(), OutOfMemory>
    ensures { OnOk result (seen_seats seats.new ≡ parameter_seats (S.block singles.now) first parameters.now (seen_seats seats.old)) }
{
    let mut left = parameters.len();
    while left > 0 {
        left -= 1;
        let number = further(first, left)?;
        let parameter = &parameters[left];
        seat_parameter(singles, seats, number, &parameter.name)?;
    }
    Ok(())
}

/// Enters an action of the control: its parameters are declared inside, and the next variable is the first of its statements.
fn enter_action<'a, S: Singles<'a>>(
    alloc: Global,
    singles: &S,
    standing: &mut Standing<'_, 'a>,
    own: OwnAction<'a>,
) -> Result<(), OutOfMemory>
    ensures scope { OnOk result (seen_scope standing.new.scope ≡ action_scope (seen_scope standing.old.scope) own.entry.action.now) }
    ensures seats { OnOk result (seen_seats standing.new.seats ≡ parameter_seats (S.block singles.now) own.entry.first own.entry.action.now.parameters (seen_seats standing.old.seats)) }
    ensures number { OnOk result (standing.new.number ≡ own.entry.first + length own.entry.action.now.parameters) }
    ensures stays { OnOk result (Stays standing.old standing.new) }
{
    let parameters = own.action.parameters.as_slice();
    standing.scope.enter_action(alloc, own.action)?;
    seat_parameters(singles, &mut standing.seats, own.first, parameters)?;
    standing.number = further(own.first, parameters.len())?;
    Ok(())
}

/// Leaves an action: there are so many names and seats again, and statements stand in this part.
fn leave_action<'a>(
    standing: &mut Standing<'_, 'a>,
    names: usize,
    seats: usize,
    part: Part<'a>,
) -> Result<(), OutOfMemory>
    ensures scope { OnOk result (seen_scope standing.new.scope ≡ record (shortened (height standing.old.scope.top.now names) (seen_scope standing.old.scope)) { part = seen_part part.entry }) }
    ensures seats { OnOk result (seen_seats standing.new.seats ≡ drop (length (seen_seats standing.old.seats) - seats) (seen_seats standing.old.seats)) }
    ensures stays { OnOk result (Stays standing.old standing.new) }
{
    standing.shorten(names, seats)?;
    standing.scope.part = part;
    Ok(())
}

/// Makes the statements of an action of the control ready, and the names are then what they were.
fn ready_action<'a, S: Singles<'a>>(
    alloc: Global,
    singles: &S,
    nodes: &mut ReadyNodes<'_>,
    standing: &mut Standing<'_, 'a>,
    own: OwnAction<'a>,
) -> Result<Option<usize>, OutOfMemory>
    requires held { IsHeld nodes.old }
    requires standing { IsStanding standing.old }
    ensures statement { IfOk result (λ found. seen_statement nodes.new found ≡ body_ready (S.block singles.now) (seen_scope standing.old.scope) (seen_seats standing.old.seats) (seen_action own.entry)) }
    ensures within { IfOk result (IsNodeIn nodes.new) }
    ensures grows { OnOk result (Grows nodes.old nodes.new) }
    ensures scope { OnOk result (seen_scope standing.new.scope ≡ seen_scope standing.old.scope) }
    ensures seats { OnOk result (seen_seats standing.new.seats ≡ seen_seats standing.old.seats) }
    ensures stays { OnOk result (Stays standing.old standing.new) }
{
    let names = standing.scope.len();
    let seats = standing.seats.len();
    let part = standing.scope.part;
    enter_action(alloc, singles, standing, own)?;
    let found = ready_body(
        alloc,
        singles,
        nodes,
        standing,
        &own.action.body.statements(),
    )?;
    leave_action(standing, names, seats, part)?;
    Ok(found)
}

/// The slot of what stands at a seat, where that is a single value; none where nothing does.
pub fn slot_of(seat: Option<Seat<'_>>) -> Option<u32>
    ensures { result ≡ slot_of_seat (option_map seen_seat seat.entry) }
{
    match seat {
        Some(seat) => match seat.kind {
            Kind::Bits(_) | Kind::Boolean | Kind::ErrorCode => Some(seat.start.slot),
            _ => None,
        },
        None => None,
    }
}

/// The slots of parameters, of which the first has this number: none where one has no single value. A slot that the layout doesn't
/// have counts as want of memory.
#[tactic(auto, using(v1_ready_bodies::proofs::Fronts::all_ready, crate::proofs::Acting::slots_none))]
fn slots_of<'a, S: Singles<'a>>(
    alloc: Global,
    singles: &S,
    layout: &FrameLayout,
    first: usize,
    parameters: &[Param],
) -> Result<Option<Rows<u32>>, OutOfMemory>
    ensures slots { IfOk result (λ found. found ≡ slots_from (S.block singles.now) first parameters.now) }
    ensures within { IfOk result (λ found. IfSome found (All (IsSlot layout.now))) }
{
    let mut slots = Rows::new(alloc);
    let mut number = first;
    for _parameter in parameters {
        let Some(slot) = slot_of(singles.variable(number)?) else {
            return Ok(None);
        };
        if !is_slot(layout, slot) {
            return Err(OutOfMemory);
        }
        slots.push(slot)?;
        number = further(number, 1)?;
    }
    Ok(Some(slots))
}

/// The slots of the parameters of an action, for the tables that run it; none where one of them has no single value.
fn parameters_of<'a, S: Singles<'a>>(
    alloc: Global,
    singles: &S,
    layout: &FrameLayout,
    own: OwnAction<'a>,
) -> Result<Rows<u32>, OutOfMemory>
    ensures slots { IfOk result (λ slots. slots ≡ parameter_slots (S.block singles.now) (seen_action own.entry)) }
    ensures within { IfOk result (All (IsSlot layout.now)) }
{
    let parameters = own.action.parameters.as_slice();
    match slots_of(alloc, singles, layout, own.first, parameters)? {
        Some(slots) => Ok(slots),
        None => Ok(Rows::new(alloc)),
    }
}

/// An action of this body, if it is some.
fn with_body(body: Option<usize>, parameters: Rows<u32>) -> Option<ReadyAction>
    ensures body { (h : Held) → option_map (seen_body h) result ≡ seen_statement h body }
    ensures parameters { IfSome result (λ a. a.parameters ≡ parameters) }
    ensures within { (h : Held) (l : Layout) → IsNodeIn h body → All (IsSlot l) parameters → IfSome result (IsActionIn l h) }
{
    match body {
        Some(body) => Some(ReadyAction { body, parameters }),
        None => None,
    }
}

/// Makes an action of the control ready, and the names are then what they were.
fn one_action<'a, S: Singles<'a>>(
    alloc: Global,
    singles: &S,
    nodes: &mut ReadyNodes<'_>,
    standing: &mut Standing<'_, 'a>,
    layout: &FrameLayout,
    own: OwnAction<'a>,
) -> Result<Option<ReadyAction>, OutOfMemory>
    requires held { IsHeld nodes.old }
    requires standing { IsStanding standing.old }
    ensures body { IfOk result (λ found. option_map (seen_body nodes.new) found ≡ body_ready (S.block singles.now) (seen_scope standing.old.scope) (seen_seats standing.old.seats) (seen_action own.entry)) }
    ensures parameters { IfOk result (λ found. IfSome found (λ a. a.parameters ≡ parameter_slots (S.block singles.now) (seen_action own.entry))) }
    ensures within { IfOk result (λ found. IfSome found (IsActionIn layout.now nodes.new)) }
    ensures grows { OnOk result (Grows nodes.old nodes.new) }
    ensures scope { OnOk result (seen_scope standing.new.scope ≡ seen_scope standing.old.scope) }
    ensures seats { OnOk result (seen_seats standing.new.seats ≡ seen_seats standing.old.seats) }
    ensures stays { OnOk result (Stays standing.old standing.new) }
{
    let body = ready_action(alloc, singles, nodes, standing, own)?;
    let parameters = parameters_of(alloc, singles, layout, own)?;
    Ok(with_body(body, parameters))
}

/// Makes the actions of a control ready, in order, and the names are then what they were; none exactly where one of them is none.
#[tactic(auto, using(v1_ready_bodies::proofs::Fronts::all_ready, v1_ready_bodies::proofs::Fronts::none_more, v1_ready_nodes::proofs::Growing::grows_same, v1_ready_bodies::proofs::Keeping::stays_same, v1_ready_bodies::proofs::Keeping::still_stands))]
pub fn ready_actions<'a, S: Singles<'a>>(
    alloc: Global,
    singles: &S,
    nodes: &mut ReadyNodes<'_>,
    standing: &mut Standing<'_, 'a>,
    layout: &FrameLayout,
    actions: &[OwnAction<'a>],
) -> Result<Option<Rows<ReadyAction>>, OutOfMemory>
    requires held { IsHeld nodes.old }
    requires standing { IsStanding standing.old }
    ensures bodies { IfOk result (λ found. option_map (seen_bodies nodes.new) found ≡ all_of (λ own. body_ready (S.block singles.now) (seen_scope standing.old.scope) (seen_seats standing.old.seats) (seen_action own)) actions.now) }
    ensures parameters { IfOk result (λ found. IfSome found (λ rows. map seen_parameters rows ≡ map (λ own. parameter_slots (S.block singles.now) (seen_action own)) actions.now)) }
    ensures within { IfOk result (λ found. IfSome found (All (IsActionIn layout.now nodes.new))) }
    ensures grows { OnOk result (Grows nodes.old nodes.new) }
    ensures scope { OnOk result (seen_scope standing.new.scope ≡ seen_scope standing.old.scope) }
    ensures seats { OnOk result (seen_seats standing.new.seats ≡ seen_seats standing.old.seats) }
    ensures stays { OnOk result (Stays standing.old standing.new) }
{
    let mut rows = Rows::new(alloc);
    for own in actions {
        match one_action(alloc, singles, nodes, standing, layout, *own)? {
            Some(row) => rows.push(row)?,
            None => return Ok(None),
        }
    }
    Ok(Some(rows))
}
