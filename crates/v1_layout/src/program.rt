// The layout of values one after another.
ghost use Rattle.std.specs.Prelude.{◌≡◌, map, IfOk};
ghost use Rattle.p416_syntax.specs.Declarations.{layouts_of};
ghost use Rattle.p416_names.specs.SeenKinds.{seen_kind};
ghost use Rattle.v1_core.specs.Layouts.{no_parts};
ghost use Rattle.p416_syntax.specs.Main.{headers_kind, metadata_kind};
ghost use Rattle.v1_core.specs.Programs.{with_values, layout16};

use crate::depth::depth_of;
use crate::kinds::frame_kinds;
use crate::values::add_value;
use p4x_bits::OutOfMemory;
use p416_names::{Kind, Top};
use p416_syntax::Syntax16;
use std::alloc::Global;
use v1_core::FrameLayout;

/// The layout of values of these kinds, one after another, under a program with these names at the top. The one error is want of
/// memory, which over 2^32 elements of a stack count as.
pub fn layout_of_kinds<'a>(
    alloc: Global,
    top: &Top<'a>,
    kinds: &[Kind<'a>],
) -> Result<FrameLayout, OutOfMemory>
    ensures { IfOk result (λ layout. layout ≡ with_values (layouts_of top.now) (map seen_kind kinds.now) no_parts) }
{
    let depth = depth_of(top)?;
    let mut layout = FrameLayout::new(alloc);
    for kind in kinds {
        add_value(alloc, top, &mut layout, depth, *kind)?;
    }
    Ok(layout)
}

/// The layout of the frames of a program whose headers and metadata are these. A frame of it is made by `Frame::of_layout`. The
/// one error is want of memory, which over 2^32 elements of a stack count as.
pub fn layout_of_program<'a>(
    alloc: Global,
    top: &Top<'a>,
    syntax: &Syntax16,
    headers: Kind<'a>,
    metadata: Kind<'a>,
) -> Result<FrameLayout, OutOfMemory>
    requires top { top.now ≡ syntax.now.decls }
    requires headers { seen_kind headers ≡ headers_kind syntax.now }
    requires metadata { seen_kind metadata ≡ metadata_kind syntax.now }
    ensures { IfOk result (λ layout. layout ≡ layout16 syntax.now) }
{
    let kinds = frame_kinds(alloc, top, syntax, headers, metadata)?;
    layout_of_kinds(alloc, top, &kinds)
}
