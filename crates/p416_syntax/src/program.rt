// The syntax of a whole program (P4_16 1.2, "P4 grammar").
use crate::controls::{Control16, Instance};
use crate::parsers::Parser16;
use crate::parts::{Header16, Note, Struct16};
use p4x_bits::{Rows, Text};

/// A declaration.
pub enum Decl16 {
    /// A header type.
    Header(Header16),
    /// A struct type.
    Struct(Struct16),
    /// A stateful object, with the annotations in front.
    Instance(Rows<Note>, Instance),
    /// A parser.
    Parser(Parser16),
    /// A control.
    Control(Control16),
}

impl Drop for Decl16 {
    fn drop(self) {
        match self {
            Decl16::Header(_a) => {}
            Decl16::Struct(_a) => {}
            Decl16::Instance(_a, _b) => {}
            Decl16::Parser(_a) => {}
            Decl16::Control(_a) => {}
        }
    }
}

/// The syntax of a P4_16 program: its declarations in order, between the two include lines and `V1Switch(..) main;`.
pub struct Syntax16 {
    /// The declarations in order.
    pub decls: Rows<Decl16>,
    /// The names of the blocks in `V1Switch(NAME(), ..) main;`, at least one.
    pub main: Rows<Text>,
}

impl Drop for Syntax16 {
    fn drop(self) {
        let Syntax16 {
            decls: _decls,
            main: _main,
        } = self;
    }
}

// A program's syntax may be moved to another thread, and shared between threads.
fn is_shared<T: Send + Sync>(_shared: &T) {}

fn is_syntax_shared(syntax: &Syntax16) {
    is_shared(syntax);
}
