// The store that a run begins with.
ghost use Rattle.std.specs.Prelude.{◌≡◌, ◌^◌, ◌<◌, ◌≤◌, [], length, map, All, IfOk, IfSome};
ghost use Rattle.state_store.specs.State.{cells_at, with_cells, IsMeterAt, IsStore};
ghost use Rattle.match_core.specs.declared.signatures.ObjectSig.{ObjectSig};
ghost use Rattle.match_core.specs.Signatures.{IsSignature};
ghost use Rattle.match_core.specs.Fits.{Fits};
ghost use Rattle.match_core.specs.Stores.{sized, shapes_of, handed, first_store, IsStoreOf};
ghost use Rattle.match_core.specs.internal.Sizes.{resized};

use crate::entries::Entries;
use crate::signatures::{ObjectSig, Signature};
use p4x_bits::OutOfMemory;
use state_store::{Shape, Store};
use std::alloc::Global;

/// The shape of an object once the entries of its table are known.
fn sized(shape: Shape, entries: u32) -> Shape
    ensures { result ≡ sized shape entries }
{
    match shape {
        Shape::Direct { kind, .. } => Shape::Direct {
            kind,
            cells: entries,
        },
        _ => shape,
    }
}

/// Gives the direct counter of a table a cell for each entry.
fn resize(shapes: &mut Vec<Shape>, direct: Option<u32>, entries: u32)
    requires { IfSome direct (λ object. object < length shapes.old.items) }
    ensures { shapes.new.items ≡ resized shapes.old.items direct entries }
{
    if let Some(object) = direct {
        shapes[object as usize] = sized(shapes[object as usize], entries);
    }
}

/// The shapes of the objects, with a direct counter of no cells.
fn blank_shapes(alloc: Global, objects: &[ObjectSig]) -> Result<Vec<Shape>, OutOfMemory>
    ensures { IfOk result (λ shapes. shapes.items ≡ map (λ (object : ObjectSig). sized object.shape 0) objects.now) }
{
    let mut shapes = Vec::with_capacity(alloc, objects.len())?;
    for object in objects {
        shapes.push(sized(object.shape, 0))?;
    }
    Ok(shapes)
}

/// The shapes of the objects once the entries are known.
fn shapes_of(
    alloc: Global,
    signature: &Signature,
    entries: &Entries,
) -> Result<Vec<Shape>, OutOfMemory>
    requires signature { IsSignature signature.now }
    requires fits { Fits entries.now signature.now }
    ensures { IfOk result (λ shapes. shapes.items ≡ shapes_of signature.now entries.now) }
{
    let tables = signature.tables.as_slice();
    let fills = entries.tables.as_slice();
    let mut shapes = blank_shapes(alloc, signature.objects.as_slice())?;
    for i in 0..tables.len().min(fills.len()) {
        let entries = fills[i].entries.len() as u32;
        resize(&mut shapes, tables[i].direct, entries);
    }
    Ok(shapes)
}

/// Hands colours to an object, which is a meter where there are any.
fn give_all(store: &mut Store, object: u32, colours: &[u128]) -> Result<(), OutOfMemory>
    requires meter { 0 < length colours.now → IsMeterAt store.old.shapes object }
    requires colours { All (λ colour. colour ≤ 2) colours.now }
    requires within { object < length store.old.cells }
    requires store { IsStore store.old }
    ensures given { IfOk result (λ _. store.new ≡ with_cells store.old object (handed (cells_at store.old object) colours.now)) }
    ensures store { IsStore store.new }
{
    for colour in colours {
        let Ok(()) = store.give(object, *colour as u8) else {
            return Err(OutOfMemory);
        };
    }
    Ok(())
}

/// The store that a run of a program begins with: an object for each of the signature, in order, with all cells 0, where
/// a direct counter has a cell for each entry of its table, and none where it belongs to no table; and for each meter
/// the colours that are handed in. The one error is want of memory.
pub fn first_store(
    alloc: Global,
    signature: &Signature,
    entries: &Entries,
) -> Result<Store, OutOfMemory>
    requires signature { IsSignature signature.now }
    requires fits { Fits entries.now signature.now }
    ensures first { IfOk result (λ store. store ≡ first_store signature.now entries.now) }
    ensures store { IfOk result (IsStoreOf signature.now entries.now) }
{
    let shapes = shapes_of(alloc, signature, entries)?;
    let Ok(mut store) = Store::new(alloc, &shapes) else {
        return Err(OutOfMemory);
    };
    let colours = entries.colours.as_slice();
    for object in 0..colours.len() {
        give_all(&mut store, object as u32, colours[object].as_slice())?;
    }
    Ok(store)
}
