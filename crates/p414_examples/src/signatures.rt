// The order of what stands in the signature of a program, the sizes of its tables, and their direct counters. The kinds and widths of keys,
// the widths of parameters, and what an object counts or keeps are seen where a program runs.
use crate::lines::{cut, number_of};
use match_core::{ActionSig, ObjectSig, Signature, TableSig};
use p414_body_check::{Program14, check14};
use p414_program_signature::signature14;
use p414_syntax::Syntax14;
use p416_reader::read16;
use p416_signature::signature16;
use p416_syntax::Syntax16;
use std::alloc::Global;

/// Whether actions have these names, with a comma behind each.
fn are_actions(actions: &[ActionSig], wanted: &[u8]) -> bool {
    let mut left = wanted;
    for action in actions {
        let (name, more) = cut(left, b',');
        if action.name.as_slice() != name {
            return false;
        }
        left = more;
    }
    left.is_empty()
}

/// Whether objects have these names, with a comma behind each.
fn are_objects(objects: &[ObjectSig], wanted: &[u8]) -> bool {
    let mut left = wanted;
    for object in objects {
        let (name, more) = cut(left, b',');
        if object.name.as_slice() != name {
            return false;
        }
        left = more;
    }
    left.is_empty()
}

/// Whether a direct counter has this number, or there is none where it is `-`.
fn is_direct(direct: Option<u32>, wanted: &[u8]) -> bool {
    match direct {
        Some(number) => u128::from(number) == number_of(wanted) && wanted != b"-".as_slice(),
        None => wanted == b"-".as_slice(),
    }
}

/// Whether a table has this name, this size, this direct counter and these actions, with `/` between them.
fn is_table(table: &TableSig, wanted: &[u8]) -> bool {
    let (name, rest) = cut(wanted, b'/');
    let (size, rest) = cut(rest, b'/');
    let (direct, actions) = cut(rest, b'/');
    table.name.as_slice() == name
        && u128::from(table.size) == number_of(size)
        && is_direct(table.direct, direct)
        && are_actions(table.actions.as_slice(), actions)
}

/// Whether tables are these, with a `;` behind each.
fn are_tables(tables: &[TableSig], wanted: &[u8]) -> bool {
    let mut left = wanted;
    for table in tables {
        let (one, more) = cut(left, b';');
        if !is_table(table, one) {
            return false;
        }
        left = more;
    }
    left.is_empty()
}

/// Whether a signature has these tables, and behind `:` these objects.
fn is_signature(signature: &Signature, wanted: &[u8]) -> bool {
    let (tables, objects) = cut(wanted, b':');
    are_tables(signature.tables.as_slice(), tables)
        && are_objects(signature.objects.as_slice(), objects)
}

fn is_of_program(alloc: Global, program: &Program14, wanted: &[u8]) -> bool {
    match &signature14(alloc, program) {
        Ok(signature) => is_signature(signature, wanted),
        Err(_) => false,
    }
}

/// Whether that is so of a program of P4_14 that breaks no rule.
pub fn has_signature14(alloc: Global, syntax: Syntax14, wanted: &[u8]) -> bool {
    match &check14(alloc, syntax) {
        Ok(program) => is_of_program(alloc, program, wanted),
        Err(_) => false,
    }
}

fn is_of_syntax(alloc: Global, syntax: &Syntax16, wanted: &[u8]) -> bool {
    match &signature16(alloc, syntax) {
        Ok(signature) => is_signature(signature, wanted),
        Err(_) => false,
    }
}

/// Whether that is so of a text of P4_16.
pub fn has_signature16(alloc: Global, text: &[u8], wanted: &[u8]) -> bool {
    match &read16(alloc, text) {
        Ok(syntax) => is_of_syntax(alloc, syntax, wanted),
        Err(_) => false,
    }
}
