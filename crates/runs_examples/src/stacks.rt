// Stacks whose elements are moved and copied. What is expected is worked by hand from what push and pop mean: elements move up, and the
// first ones, at most all, are then valid with fields 0; or down, and the last ones, at most all, are then invalid.
use crate::programs::state_of;
use crate::states::{ITEM, extract, put_valid};
use p4x_bits::OutOfMemory;
use p414_body_check::Program14;
use p414_state::State14;
use std::alloc::Global;

/// An element: its octets, and whether it is valid.
type Element = ([u8; 2], bool);

/// Elements that are valid and have these octets.
const FIRST: Element = ([0x12, 0x34], true);

const SECOND: Element = ([0x56, 0x78], true);

const ZEROS: Element = ([0, 0], true);

/// One that is invalid.
const INVALID: Element = ([0, 0], false);

/// Whether the first element is valid before, as the second one is; how far both are moved up, and then down; and what they are behind
/// that.
const MOVES: [(bool, u32, u32, Element, Element); 10] = [
    (true, 0, 0, FIRST, SECOND),
    (true, 1, 0, ZEROS, FIRST),
    (true, 2, 0, ZEROS, ZEROS),
    (true, 300, 0, ZEROS, ZEROS),
    (true, 0, 1, SECOND, INVALID),
    (true, 0, 2, INVALID, INVALID),
    (true, 0, 3, INVALID, INVALID),
    (true, 1, 1, FIRST, INVALID),
    // An element takes along that it is invalid.
    (false, 1, 0, ZEROS, INVALID),
    (false, 0, 1, SECOND, INVALID),
];

/// Moves the elements of the stack up by so many, and then down; false where there is no stack.
fn move_elements(
    alloc: Global,
    state: &mut State14,
    up: u32,
    down: u32,
) -> Result<bool, OutOfMemory> {
    if state.is_metadata(1) {
        return Ok(false);
    }
    let mut stack = state.stack(alloc, 1)?;
    stack.push(up);
    stack.pop(down);
    state.put_stack(1, stack);
    Ok(true)
}

/// Copies the first element of the stack over the second one.
fn copy_element(alloc: Global, state: &mut State14) -> Result<bool, OutOfMemory> {
    if state.size(1) == 0 {
        return Ok(false);
    }
    let header = state.header(alloc, 1, 0)?;
    state.put_header(1, 1, &header);
    Ok(true)
}

/// A state in which both elements of the stack are extracted.
fn filled(alloc: Global, program: &Program14) -> Result<State14, OutOfMemory> {
    let mut state = state_of(alloc, program, &ITEM, 0)?;
    let _extracted = extract(&mut state, 1, 0) && extract(&mut state, 1, 1);
    Ok(state)
}

/// Whether an element of the stack is so.
fn is_element(state: &State14, element: u32, due: Element) -> bool {
    state.octets(1, element) == due.0.as_slice() && state.valid(1, element) == due.1
}

/// Whether the elements are so after these moves.
fn are_moved(
    alloc: Global,
    program: &Program14,
    begun: bool,
    moves: [u32; 2],
    due: [Element; 2],
) -> Result<bool, OutOfMemory> {
    let mut state = filled(alloc, program)?;
    let begins = begun || put_valid(&mut state, 1, 0, false);
    let moved = move_elements(alloc, &mut state, moves[0], moves[1])?;
    Ok(begins && moved && is_element(&state, 0, due[0]) && is_element(&state, 1, due[1]))
}

/// Whether all elements are moved as they should be.
pub fn all_move(alloc: Global, program: &Program14) -> bool {
    for (begun, up, down, first, second) in MOVES {
        if are_moved(alloc, program, begun, [up, down], [first, second]) != Ok(true) {
            return false;
        }
    }
    true
}

/// Whether an element is copied.
fn is_copied(alloc: Global, program: &Program14) -> Result<bool, OutOfMemory> {
    let mut state = filled(alloc, program)?;
    Ok(copy_element(alloc, &mut state)? && state.octets(1, 1) == [0x12, 0x34].as_slice())
}

/// Whether an element is copied as it should be.
pub fn all_copy(alloc: Global, program: &Program14) -> bool {
    is_copied(alloc, program) == Ok(true)
}
