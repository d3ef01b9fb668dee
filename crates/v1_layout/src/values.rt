// The parts of values.
ghost use Rattle.std.specs.Prelude.{◌≡◌, ◌<◌, ◌≤◌, ◌+◌, ◌∷◌, ◌++◌, map, All, OnOk, IfOk};
ghost use Rattle.p416_syntax.specs.Scopes.{fields_in};
ghost use Rattle.p416_syntax.specs.Declarations.{layouts_of};
ghost use Rattle.p416_names.specs.SeenKinds.{seen_kind};
ghost use Rattle.v1_core.specs.Layouts.{Layout, with_header_part, with_stack_part};
ghost use Rattle.v1_core.specs.Seats.{form_of, struct_form};
ghost use Rattle.v1_core.specs.Programs.{field_width, with_elements, with_value};
ghost use Rattle.v1_layout.specs.Left.{left_at, laid_out, steps_of, steps};

use crate::fields::{field_kinds, field_widths};
use p4x_bits::OutOfMemory;
use p416_names::{Kind, Top};
use std::alloc::Global;
use v1_core::FrameLayout;
use work_stack::Stack;

/// A value that is still to be laid out.
#[derive(Clone, Copy, Drop)]
struct Left<'a> {
    /// Through how many structs within each other it is looked into.
    depth: usize,
    /// What it is.
    kind: Kind<'a>,
}

/// A size that an address has; want of memory for a greater one.
fn small(size: u128) -> Result<u32, OutOfMemory>
    ensures { IfOk result (λ small. small ≡ size) }
{
    if size <= u128::from(u32::MAX) {
        Ok(size as u32)
    } else {
        Err(OutOfMemory)
    }
}

/// So many headers more, with fields of these widths.
#[tactic(auto, using(crate::proofs::Steps::one_element_more))]
fn add_elements(layout: &mut FrameLayout, widths: &[u8], size: u32) -> Result<(), OutOfMemory>
    requires { All (λ width. width ≤ 128) widths.now }
    ensures { OnOk result (layout.new ≡ with_elements widths.now size layout.old) }
{
    for made in 0..size {
        layout.add_header(widths)?;
    }
    Ok(())
}

/// A stack of headers of a type more, and want of memory where there are over 2^32 elements.
fn add_stack(
    alloc: Global,
    top: &Top<'_>,
    layout: &mut FrameLayout,
    of: &[u8],
    size: u128,
) -> Result<(), OutOfMemory>
    ensures { OnOk result (layout.new ≡ with_stack_part (with_elements (map field_width (fields_in (layouts_of top.now) of.now)) size layout.old) size) }
{
    let count = small(size)?;
    let widths = field_widths(alloc, top, of)?;
    add_elements(layout, &widths, count)?;
    layout.add_stack(count)
}

/// A header of a type more.
fn add_header(
    alloc: Global,
    top: &Top<'_>,
    layout: &mut FrameLayout,
    of: &[u8],
) -> Result<(), OutOfMemory>
    ensures { OnOk result (layout.new ≡ with_header_part layout.old (map field_width (fields_in (layouts_of top.now) of.now))) }
{
    let widths = field_widths(alloc, top, of)?;
    layout.add_header(&widths)
}

/// Puts values of these kinds in front of what is left.
fn push_all<'a>(
    left: &mut Stack<Left<'a>>,
    depth: usize,
    kinds: &[Kind<'a>],
) -> Result<(), OutOfMemory>
    ensures { OnOk result (left.new ≡ map (left_at depth) kinds.now ++ left.old) }
{
    for kind in kinds.iter().rev() {
        left.push(Left { depth, kind: *kind })?;
    }
    Ok(())
}

/// Puts the members of a struct of a type in front of what is left, but for a struct that isn't looked into.
#[tactic(auto, using(crate::proofs::Steps::members_laid, crate::proofs::Steps::members_fewer, crate::proofs::Steps::none_laid, crate::proofs::Steps::one_fewer))]
fn put_members<'a>(
    alloc: Global,
    top: &Top<'a>,
    left: &mut Stack<Left<'a>>,
    depth: usize,
    of: &[u8],
) -> Result<(), OutOfMemory>
    ensures same { OnOk result ((l : Layout) → laid_out (layouts_of top.now) left.new l ≡ laid_out (layouts_of top.now) left.old (with_value (layouts_of top.now) depth (struct_form of.now) l)) }
    ensures fewer { OnOk result (steps (layouts_of top.now) left.new < steps_of (layouts_of top.now) depth (struct_form of.now) + steps (layouts_of top.now) left.old) }
{
    if depth == 0 {
        return Ok(());
    }
    let kinds = field_kinds(alloc, top, of)?;
    push_all(left, depth - 1, &kinds)
}

/// Lays out the next of what is left; a struct is taken apart.
fn take<'a>(
    alloc: Global,
    top: &Top<'a>,
    layout: &mut FrameLayout,
    left: &mut Stack<Left<'a>>,
    next: Left<'a>,
) -> Result<(), OutOfMemory>
    ensures same { OnOk result (laid_out (layouts_of top.now) left.new layout.new ≡ laid_out (layouts_of top.now) (next.entry ∷ left.old) layout.old) }
    ensures fewer { OnOk result (steps (layouts_of top.now) left.new < steps (layouts_of top.now) (next.entry ∷ left.old)) }
{
    match next.kind {
        Kind::Bits(width) => layout.add_number(width.min(128) as u8),
        Kind::Boolean => layout.add_number(1),
        Kind::ErrorCode => layout.add_number(2),
        Kind::Header(of) => add_header(alloc, top, layout, of),
        Kind::Stack(of, size) => add_stack(alloc, top, layout, of, size),
        Kind::Struct(of) => put_members(alloc, top, left, next.depth, of),
        _ => Ok(()),
    }
}

/// The parts of a value of a kind behind the others, which is looked into through so many structs within each other. A program
/// that keeps T1 has no struct within itself, so that as many as there are types are all. The one error is want of memory,
/// which over 2^32 elements of a stack count as; the layout isn't used then.
pub(crate) fn add_value<'a>(
    alloc: Global,
    top: &Top<'a>,
    layout: &mut FrameLayout,
    depth: usize,
    kind: Kind<'a>,
) -> Result<(), OutOfMemory>
    ensures { OnOk result (layout.new ≡ with_value (layouts_of top.now) depth (form_of (seen_kind kind.entry)) layout.old) }
{
    let mut left = Stack::new(alloc);
    left.push(Left { depth, kind })?;
    while let Some(next) = left.pop() {
        take(alloc, top, layout, &mut left, next)?;
    }
    Ok(())
}
