// Which signatures are well formed.
use crate::lines::{cut, number_of};
use match_core::{ActionSig, KeyKind, KeySpec, ObjectSig, Signature, TableSig};
use p4x_bits::{Numbers, OutOfMemory, Rows, Text};
use state_store::{Kind, Shape};
use std::alloc::Global;

/// The number that digits write, 255 at most.
fn small(digits: &[u8]) -> u8 {
    number_of(digits).min(255) as u8
}

/// Puts what a word tells into a table: a key by its kind and its width (`e8` or `l32`), an action with one parameter by its name and
/// the width of that (`:a=9`), or the number of its direct counter (`>0`).
fn put_word(alloc: Global, table: &mut TableSig, word: &[u8]) -> Result<(), OutOfMemory> {
    match word {
        [b'e', digits @ ..] => table.keys.push(KeySpec {
            kind: KeyKind::Exact,
            width: small(digits),
        }),
        [b'l', digits @ ..] => table.keys.push(KeySpec {
            kind: KeyKind::Lpm,
            width: small(digits),
        }),
        [b':', action @ ..] => {
            let (name, width) = cut(action, b'=');
            let name = Text::from_slice(alloc, name)?;
            let widths = Numbers::from_slice(alloc, &[u128::from(small(width))])?;
            table.actions.push(ActionSig { name, widths })
        }
        [b'>', digits @ ..] => {
            table.direct = Some(u32::from(small(digits)));
            Ok(())
        }
        _ => Ok(()),
    }
}

/// The table that words tell behind its name.
fn table_of(alloc: Global, name: &[u8], words: &[u8]) -> Result<TableSig, OutOfMemory> {
    let mut table = TableSig {
        name: Text::from_slice(alloc, name)?,
        keys: Rows::new(alloc),
        actions: Rows::new(alloc),
        size: 1024,
        direct: None,
    };
    let mut left = words;
    for _ in 0..words.len() {
        let (word, more) = cut(left, b' ');
        put_word(alloc, &mut table, word)?;
        left = more;
    }
    Ok(table)
}

/// A register by its width and its cells, or a direct counter by its cells.
fn shape_of(words: &[u8]) -> Shape {
    let (first, second) = cut(words, b' ');
    match first {
        [b'd', digits @ ..] => Shape::Direct {
            kind: Kind::Both,
            cells: u32::from(small(digits)),
        },
        _ => Shape::Register {
            width: small(first),
            cells: u32::from(small(second)),
        },
    }
}

fn put_table(alloc: Global, signature: &mut Signature, cell: &[u8]) -> Result<(), OutOfMemory> {
    let (name, words) = cut(cell, b' ');
    signature.tables.push(table_of(alloc, name, words)?)
}

fn put_object(alloc: Global, signature: &mut Signature, cell: &[u8]) -> Result<(), OutOfMemory> {
    let (name, words) = cut(cell, b' ');
    let name = Text::from_slice(alloc, name)?;
    let shape = shape_of(words);
    signature.objects.push(ObjectSig { name, shape })
}

/// Puts the tables and the objects of two cells into a signature.
fn put_all(
    alloc: Global,
    signature: &mut Signature,
    tables: &[u8],
    objects: &[u8],
) -> Result<(), OutOfMemory> {
    let mut left = tables;
    for _ in 0..tables.len() {
        let (cell, more) = cut(left, b';');
        if !cell.is_empty() {
            put_table(alloc, signature, cell)?;
        }
        left = more;
    }
    left = objects;
    for _ in 0..objects.len() {
        let (cell, more) = cut(left, b';');
        if !cell.is_empty() {
            put_object(alloc, signature, cell)?;
        }
        left = more;
    }
    Ok(())
}

/// Whether the signature of these is well formed where `+` stands, and else isn't.
pub fn is_judged(alloc: Global, tables: &[u8], objects: &[u8], wanted: &[u8]) -> bool {
    let mut signature = Signature {
        tables: Rows::new(alloc),
        objects: Rows::new(alloc),
    };
    put_all(alloc, &mut signature, tables, objects).is_ok()
        && matches!(signature.is_well_formed(alloc), Ok(found) if found == (wanted == b"+".as_slice()))
}
