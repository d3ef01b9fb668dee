// The instances of a program.
ghost use Rattle.std.specs.Prelude.{◌≡◌, false, [], ◌∷◌, ◌++◌, map, option_map, IfOk, OnOk};
ghost use Rattle.p414_syntax.specs.declared.syntax.Decl.TheVariants as decl;
ghost use Rattle.p414_syntax.specs.declared.syntax.Sort.TheVariants as sort;
ghost use Rattle.p414_syntax.specs.Names.{declared_in};
ghost use Rattle.p414_syntax.specs.Cells.{literal_value};
ghost use Rattle.p414_syntax.specs.Widths.{has_bad_width};
ghost use Rattle.p414_sem.specs.Packing.{widths_of_type};
ghost use Rattle.p414_layout.specs.Shapes.{shape_in, layout_of};

use crate::fields::FieldPlaces;
use crate::shape::Shape;
use p4x_bits::OutOfMemory;
use p414_names::Names14;
use p414_syntax::{Decl, Header, Literal, Metadata};
use std::alloc::Global;
use std::marker::Model;

/// What the instances of a program are made of, in the order of declaration. Contracts see the list of them.
#[derive(Drop)]
pub struct Layout {
    shapes: Vec<Shape>,
}

impl Model for Layout {
    ghost use Rattle.std.specs.Prelude.{List};
    ghost use Rattle.p414_layout.specs.declared.shape.Shape.{Shape as InstanceShape};

    ghost Value = { List InstanceShape };

    ghost view = { λ l. l.shapes.items };
}

impl Layout {
    /// The instances in order.
    pub fn shapes(&self) -> &[Shape]
        ensures { result.now ≡ self.now }
    {
        &self.shapes
    }
}

/// The number of elements of a stack; want of memory where no number of 32 bits is that great.
fn stack_of(size: Option<Literal>) -> Result<Option<u32>, OutOfMemory>
    ensures { IfOk result (λ stack. stack ≡ option_map literal_value size) }
{
    match size {
        Some(size) => match u32::try_from(size.value) {
            Ok(elements) => Ok(Some(elements)),
            Err(_) => Err(OutOfMemory),
        },
        None => Ok(None),
    }
}

/// Where the fields of the header type with a name lie; none of a name that no header type has.
#[tactic(auto, using(crate::proofs::Widths::type_good))]
fn fields_of(
    alloc: Global,
    names: &Names14<'_>,
    header_type: &[u8],
) -> Result<FieldPlaces, OutOfMemory>
    requires { has_bad_width names.now ≡ false }
    ensures { IfOk result (λ widths. widths ≡ widths_of_type names.now header_type.now) }
{
    match names.type_of(header_type) {
        Some(found) => FieldPlaces::new(alloc, found.fields()),
        None => FieldPlaces::new(alloc, &[]),
    }
}

/// Puts what a header is made of behind these.
fn add_header(
    alloc: Global,
    names: &Names14<'_>,
    declared: &Header,
    shapes: &mut Vec<Shape>,
) -> Result<(), OutOfMemory>
    requires { has_bad_width names.now ≡ false }
    ensures { OnOk result (shapes.new.items ≡ shapes.old.items ++ shape_in names.now (decl.Header declared.now) ∷ []) }
{
    let stack = stack_of(declared.size)?;
    let widths = fields_of(alloc, names, declared.header_type.as_slice())?;
    shapes.push(Shape {
        metadata: false,
        stack,
        widths,
    })?;
    Ok(())
}

/// Puts what metadata is made of behind these.
fn add_metadata(
    alloc: Global,
    names: &Names14<'_>,
    declared: &Metadata,
    shapes: &mut Vec<Shape>,
) -> Result<(), OutOfMemory>
    requires { has_bad_width names.now ≡ false }
    ensures { OnOk result (shapes.new.items ≡ shapes.old.items ++ shape_in names.now (decl.Metadata declared.now) ∷ []) }
{
    let widths = fields_of(alloc, names, declared.header_type.as_slice())?;
    shapes.push(Shape {
        metadata: true,
        stack: None,
        widths,
    })?;
    Ok(())
}

/// Puts what a declaration makes behind these, if it declares an instance.
fn add_shape(
    alloc: Global,
    names: &Names14<'_>,
    decl: &Decl,
    shapes: &mut Vec<Shape>,
) -> Result<(), OutOfMemory>
    requires { has_bad_width names.now ≡ false }
    ensures { OnOk result (shapes.new.items ≡ shapes.old.items ++ map (shape_in names.now) (declared_in sort.Instance (decl.now ∷ []))) }
{
    match decl {
        Decl::Header(declared) => add_header(alloc, names, declared, shapes),
        Decl::Metadata(declared) => add_metadata(alloc, names, declared, shapes),
        _ => Ok(()),
    }
}

/// What the instances of a program are made of, in the order of declaration. The program has no field of more than 128
/// bits (C3). The one error is want of memory.
#[tactic(auto, using(crate::proofs::Loops::shape_now))]
pub fn layout_of(alloc: Global, names: &Names14<'_>) -> Result<Layout, OutOfMemory>
    requires { has_bad_width names.now ≡ false }
    ensures { IfOk result (λ layout. layout ≡ layout_of names.now) }
{
    let mut shapes = Vec::new(alloc);
    let decls = names.decls();
    for decl in decls {
        add_shape(alloc, names, decl, &mut shapes)?;
    }
    Ok(Layout { shapes })
}
