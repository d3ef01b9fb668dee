// C28: how deep blocks nest within a statement that is expanded, where it is known of the controls that it calls.
ghost use Rattle.std.specs.Prelude.{◌≡◌, ◌+◌, ◌∷◌, ◌++◌, max, min, slice_index, IfOk, OnOk};
ghost use Rattle.p414_syntax.specs.Heads.{of_head};
ghost use Rattle.p414_control_check.specs.internal.Depths.{deeper, deepest, depth_at, depth_of_call, depth_within, level, levels_within, own_depth};

use crate::controls::Controls;
use crate::stack::Stack;
use p4x_bits::OutOfMemory;
use p414_syntax::{StmtHead, StmtView};
use std::alloc::Global;

/// Depths stay at this number, which is over the limit.
const MOST: u64 = 65;

/// A statement that is still to be looked at, and how deep it stands.
#[derive(Drop)]
struct Level<'a> {
    statement: StmtView<'a>,
    depth: u64,
}

/// The sum, but at most 65.
fn capped(one: u64, more: u64) -> u64
    ensures { result ≡ min 65 (one + more) }
{
    if one > MOST || more > MOST - one {
        MOST
    } else {
        one + more
    }
}

/// One deeper, but at most 65.
fn deeper(depth: u64) -> u64
    ensures { result ≡ deeper depth }
{
    capped(1, depth)
}

/// The number at a place; 0 where there is none.
fn number_at(numbers: &[u64], place: usize) -> u64
    ensures { result ≡ slice_index numbers.now place }
{
    match numbers.get(place) {
        Some(number) => *number,
        None => 0,
    }
}

/// How deep blocks nest within a control by its name; 0 where there is none.
fn depth_of_call(controls: &Controls<'_, '_>, depths: &[u64], name: &[u8]) -> u64
    ensures { result ≡ depth_of_call controls.now depths.now name.now }
{
    match controls.number(name) {
        Some(number) => number_at(depths, number),
        None => 0,
    }
}

/// How deep a statement is by itself, with what it calls.
fn own_depth(controls: &Controls<'_, '_>, depths: &[u64], head: &StmtHead<'_>) -> u64
    ensures { result ≡ own_depth controls.now depths.now (of_head head.now) }
{
    match head {
        StmtHead::Call(name) => depth_of_call(controls, depths, name.as_slice()),
        _ => 0,
    }
}

impl<'a> Stack<Level<'a>> {
    /// Puts a statement in front, which stands so deep.
    fn push_level(&mut self, statement: StmtView<'a>, depth: u64) -> Result<(), OutOfMemory>
        ensures { OnOk result (self.new ≡ level statement.entry depth ∷ self.old) }
    {
        self.push(Level { statement, depth })
    }

    /// Puts two in front, the first of them foremost.
    fn push_levels(
        &mut self,
        first: StmtView<'a>,
        first_depth: u64,
        second: StmtView<'a>,
        second_depth: u64,
    ) -> Result<(), OutOfMemory>
        ensures { OnOk result (self.new ≡ level first.entry first_depth ∷ level second.entry second_depth ∷ self.old) }
    {
        self.push_level(second, second_depth)?;
        self.push_level(first, first_depth)
    }
}

/// Puts what stands directly within a statement at this depth in front of what is still to be looked at.
fn push_within<'a>(
    left: &mut Stack<Level<'a>>,
    head: StmtHead<'a>,
    depth: u64,
) -> Result<(), OutOfMemory>
    ensures { OnOk result (left.new ≡ levels_within depth (of_head head.entry) ++ left.old) }
{
    match head {
        StmtHead::Then(a, b) => left.push_levels(a, depth, b, depth),
        StmtHead::ApplyBranches(_, a) => left.push_level(a, depth),
        StmtHead::If(_, a, b) => left.push_levels(a, deeper(depth), b, depth),
        StmtHead::ElseBlock(a) => left.push_level(a, deeper(depth)),
        StmtHead::ElseIf(a) => left.push_level(a, depth),
        StmtHead::Branch(a, _, b) => left.push_levels(a, depth, b, deeper(depth)),
        _ => Ok(()),
    }
}

/// How deep blocks nest within a statement, but at most 65, where `depths` says how deep within each control.
fn depth_within(
    alloc: Global,
    controls: &Controls<'_, '_>,
    depths: &[u64],
    statement: StmtView<'_>,
) -> Result<u64, OutOfMemory>
    ensures { IfOk result (λ depth. depth ≡ min 65 (depth_within controls.now depths.now statement.entry)) }
{
    let mut left = Stack::new(alloc);
    left.push_level(statement, 0)?;
    let mut most = 0;
    while let Some(next) = left.pop() {
        let head = next.statement.head();
        most = u64::max(most, capped(next.depth, own_depth(controls, depths, &head)));
        push_within(&mut left, head, next.depth)?;
    }
    Ok(u64::min(most, MOST))
}

/// How deep blocks nest within the control with a number, but at most 65; 0 where there is none.
pub fn depth_at(
    alloc: Global,
    controls: &Controls<'_, '_>,
    depths: &[u64],
    number: usize,
) -> Result<u64, OutOfMemory>
    ensures { IfOk result (λ depth. depth ≡ depth_at controls.now depths.now number) }
{
    match controls.get(number) {
        Some(control) => depth_within(alloc, controls, depths, control.body()),
        None => Ok(0),
    }
}
