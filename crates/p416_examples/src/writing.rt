// Texts that are read and written again.
use crate::lines::put_solid;
use p4x_bits::Octets;
use p416_reader::read16;
use p416_types::{Program16, check16};
use p416_writer::{read_back, write_syntax16, write16};
use std::alloc::Global;

/// The text of what a text reads as; nothing where it is refused.
fn written(alloc: Global, text: &[u8]) -> Option<Octets> {
    match &read16(alloc, text) {
        Ok(syntax) => write_syntax16(alloc, syntax).ok(),
        Err(_) => None,
    }
}

/// Whether a text is written so, to the octet.
pub fn is_written(alloc: Global, text: &[u8], wanted: &[u8]) -> bool {
    match &written(alloc, text) {
        Some(first) => first.as_slice() == wanted,
        None => false,
    }
}

/// Whether two texts are the same but for spaces and line feeds.
fn is_solidly(alloc: Global, text: &[u8], wanted: &[u8]) -> bool {
    let mut first = Vec::new(alloc);
    let mut second = Vec::new(alloc);
    put_solid(&mut first, text).is_ok() && put_solid(&mut second, wanted).is_ok() && first == second
}

/// Whether a text is written so but for spaces and line feeds, and what is written is written as itself; this isn't asked of a deep one.
pub fn is_written_solidly(alloc: Global, text: &[u8], wanted: &[u8], is_deep: bool) -> bool {
    match &written(alloc, text) {
        Some(first) => {
            is_solidly(alloc, first.as_slice(), wanted)
                && (is_deep || is_written(alloc, first.as_slice(), first.as_slice()))
        }
        None => false,
    }
}

fn is_program_written(alloc: Global, program: &Program16, wanted: &[u8]) -> bool {
    match &write16(alloc, program) {
        Ok(text) => text.as_slice() == wanted,
        Err(_) => false,
    }
}

fn is_read_back(alloc: Global, program: &Program16) -> bool {
    match &read_back(alloc, program) {
        Ok(again) => again.decls.len() == program.syntax().decls.len(),
        Err(_) => false,
    }
}

/// Whether a text is that of a program that breaks no rule, which is written so and read back.
pub fn is_program(alloc: Global, text: &[u8], wanted: &[u8]) -> bool {
    let Ok(syntax) = read16(alloc, text) else {
        return false;
    };
    match &check16(alloc, syntax) {
        Ok(program) => {
            is_program_written(alloc, program, wanted) && is_read_back(alloc, program)
        }
        Err(_) => false,
    }
}
