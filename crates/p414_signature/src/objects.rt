// The stateful objects of a signature.
ghost use Rattle.std.specs.Prelude.{◌≡◌, map, IfOk};
ghost use Rattle.p414_syntax.specs.References.{referred};
ghost use Rattle.p414_sem.specs.Signatures.{object_sig};
ghost use Rattle.p414_signature.specs.internal.Gathered.{named_shape};

use crate::shapes::shape_in;
use match_core::ObjectSig;
use p4x_bits::{OutOfMemory, Rows, Text};
use p414_names::Names14;
use p414_syntax::Sort;
use state_store::Shape;
use std::alloc::Global;

/// The shape of the object with a name.
fn named_shape(names: &Names14<'_>, name: &[u8]) -> Result<Shape, OutOfMemory>
    ensures { IfOk result (λ shape. shape ≡ named_shape names.now name.now) }
{
    match names.declaration_of(Sort::Object, name) {
        Some(decl) => shape_in(decl),
        None => Ok(Shape::Meter { cells: 0 }),
    }
}

/// The object with a name, as a control plane sees it.
fn object_sig(alloc: Global, names: &Names14<'_>, name: &[u8]) -> Result<ObjectSig, OutOfMemory>
    ensures { IfOk result (λ object. object ≡ object_sig names.now name.now) }
{
    let shape = named_shape(names, name)?;
    let name = Text::from_slice(alloc, name)?;
    Ok(ObjectSig { name, shape })
}

/// The objects with these names, in order. The one error is want of memory.
pub fn object_sigs(
    alloc: Global,
    names: &Names14<'_>,
    ordered: &[&[u8]],
) -> Result<Rows<ObjectSig>, OutOfMemory>
    ensures { IfOk result (λ objects. objects ≡ map (object_sig names.now) (map referred ordered.now)) }
{
    let mut objects = Rows::new(alloc);
    for name in ordered {
        objects.push(object_sig(alloc, names, name)?)?;
    }
    Ok(objects)
}
