// What calls in a block name (P4_16 1.2, "Name resolution").
ghost use Rattle.std.specs.Prelude.{◌≡◌, map, option_map, slice_get, IfOk};
ghost use Rattle.v1_core.specs.Expressions.{name_in};
ghost use Rattle.v1_ready_statements.specs.Around.{action_found, object_found};
ghost use Rattle.v1_ready_operands.specs.Callees.{seen_action, seen_found, around_of, AreCallees};
ghost use Rattle.v1_ready_operands.specs.internal.Passes.{found_with, found_by};

use name_numbers::Numbering;
use p4x_bits::OutOfMemory;
use p416_signature::{ByName, Objects, number_of, plane_in};
use p416_syntax::{Action16, ExpHead, ExpView, Local, Syntax16};
use v1_seats::Seat;

/// An action of a block.
#[derive(Clone, Copy, Drop)]
pub struct OwnAction<'a> {
    /// The action.
    pub action: &'a Action16,
    /// The number of its first parameter among all variables and parameters of actions of the program, from 0.
    pub first: usize,
}

/// An action that a call names.
#[derive(Clone, Copy, Drop)]
pub struct FoundAction<'a> {
    /// Its number among the actions of the block.
    pub number: u32,
    /// The action.
    pub own: OwnAction<'a>,
}

/// What calls in a block name.
#[derive(Clone, Copy, Drop)]
pub struct Callees<'b, 'a> {
    /// The program.
    pub syntax: &'b Syntax16,
    /// What the block declares; nothing for a parser.
    pub locals: &'b [Local],
    /// Its actions, in the order of the text.
    pub actions: &'b [OwnAction<'a>],
    /// Their names.
    pub action_names: &'b Numbering<'a>,
    /// The names of its tables, in the order of the text.
    pub tables: &'b Numbering<'a>,
    /// The objects that it declares.
    pub own_objects: &'b ByName<'a>,
    /// The objects of the program.
    pub objects: &'b Objects<'a>,
    /// The seats of all values of a frame.
    pub seats: &'b [Seat<'a>],
    /// The slot of `checksum_error` of the standard metadata.
    pub checksum_error: Option<u32>,
    /// The slot of `packet_length` of the standard metadata.
    pub packet_length: Option<u32>,
}

/// The action at a place.
fn action_at<'a>(actions: &[OwnAction<'a>], place: usize) -> Option<OwnAction<'a>>
    ensures { option_map seen_action result ≡ slice_get (map seen_action actions.now) place }
{
    actions.get(place).copied()
}

/// The action with this number, where there is one.
fn found_at<'a>(actions: &[OwnAction<'a>], number: u32) -> Option<FoundAction<'a>>
    ensures { option_map seen_found result ≡ option_map (found_with number) (slice_get (map seen_action actions.now) number) }
{
    match action_at(actions, number as usize) {
        Some(own) => Some(FoundAction { number, own }),
        None => None,
    }
}

/// The action with this number, where there are both.
fn found_by<'a>(actions: &[OwnAction<'a>], number: Option<u32>) -> Option<FoundAction<'a>>
    ensures { option_map seen_found result ≡ found_by (map seen_action actions.now) number }
{
    match number {
        Some(number) => found_at(actions, number),
        None => None,
    }
}

const NO_NAME: &[u8] = b"";

/// The name that an expression is by itself; none as an empty one.
pub fn name_in<'a>(view: &ExpView<'a>) -> &'a [u8]
    ensures { result.now ≡ name_in view.now }
{
    match view.head() {
        ExpHead::Name(text) => text.as_slice(),
        _ => NO_NAME,
    }
}

/// The action of a block with this name.
pub fn action_called<'a>(callees: Callees<'_, 'a>, name: &[u8]) -> Option<FoundAction<'a>>
    requires { AreCallees callees }
    ensures { option_map seen_found result ≡ action_found (around_of callees.entry) name.now }
{
    let number = callees.action_names.find(name);
    found_by(callees.actions, number)
}

/// The number of the object that an expression names. The one error is want of memory.
pub fn object_called<'a>(callees: Callees<'_, 'a>, object: &ExpView<'a>) -> Result<u32, OutOfMemory>
    requires { AreCallees callees }
    ensures { IfOk result (λ number. number ≡ object_found (around_of callees.entry) object.now) }
{
    let name = name_in(object);
    let plane = plane_in(callees.own_objects, &callees.objects.top, name);
    let number = number_of(&callees.objects.numbers, plane)?;
    Ok(number)
}
