// What is read of a text.
use crate::graphs::has_graph;
use crate::lines::number_of;
use crate::parsers::has_parser;
use crate::signatures::has_signature14;
use crate::walks::{has_walk, is_sorted};
use p414_reader::read14;
use p414_syntax::{Decl, Literal, Syntax14};
use std::alloc::Global;

/// Whether the first declaration is a stack of headers of this size.
fn is_stack(syntax: &Syntax14, value: u128) -> bool {
    match syntax.decls.first() {
        Some(Decl::Header(header)) => header.size == Some(Literal { width: None, value }),
        _ => false,
    }
}

/// Whether this is so of what is read: the number of its declarations (`R`), the size of its first stack (`H`), the declarations of
/// each sort (`D`), its parser states (`G`, `I`), its parser made ready (`V`, `L`), or its control (`S`, `C`, `E`).
fn is_so(alloc: Global, asked: u8, syntax: &Syntax14, wanted: &[u8]) -> bool {
    match asked {
        b'R' => syntax.decls.len() as u128 == number_of(wanted),
        b'H' => is_stack(syntax, number_of(wanted)),
        b'D' => is_sorted(alloc, syntax, wanted),
        b'G' | b'I' => has_graph(alloc, asked, syntax, wanted),
        b'V' | b'L' => has_parser(alloc, asked, syntax),
        _ => has_walk(alloc, asked, syntax, wanted),
    }
}

/// The same of a text.
pub fn is_read(alloc: Global, asked: u8, text: &[u8], wanted: &[u8]) -> bool {
    match &read14(alloc, text) {
        Ok(syntax) => is_so(alloc, asked, syntax, wanted),
        Err(_) => false,
    }
}

/// Whether the signature of a program is this.
pub fn is_program(alloc: Global, text: &[u8], wanted: &[u8]) -> bool {
    match read14(alloc, text) {
        Ok(syntax) => has_signature14(alloc, syntax, wanted),
        Err(_) => false,
    }
}
