// Declarations at the top.
ghost use Rattle.std.specs.Prelude.{◌≡◌, OnOk};
ghost use Rattle.p416_syntax.specs.Declarations.{declaration_uses, top_scope};
ghost use Rattle.p416_expression_uses.specs.Found.{after_all};

use crate::controls::see_control;
use crate::objects::see_object;
use crate::parsers::see_parser;
use crate::types::{see_header, see_struct};
use p4x_bits::OutOfMemory;
use p416_expression_uses::Findings;
use p416_names::Top;
use p416_scopes::{Part, Scope};
use p416_syntax::Decl16;
use std::alloc::Global;

/// Judges a declaration at the top with all within it, given the places of `main` where it stands, from 0. The time is
/// proportional to the length of the declaration, but for the look-ups of the names in it. The one error is want of memory.
pub fn see_declaration<'t, 'a>(
    alloc: Global,
    top: &'t Top<'a>,
    positions: &'t [usize],
    declaration: &'a Decl16,
    found: &mut Findings<'a>,
) -> Result<(), OutOfMemory>
    ensures { OnOk result (found.new ≡ after_all found.old (declaration_uses (top_scope top.now positions.now) declaration.now)) }
{
    let outside = Scope::new(alloc, top, positions, Part::Elsewhere);
    match declaration {
        Decl16::Header(header) => see_header(alloc, header, found),
        Decl16::Struct(declared) => see_struct(alloc, &outside, declared, found),
        Decl16::Instance(notes, instance) => {
            see_object(alloc, &outside, notes.as_slice(), instance, found)
        }
        Decl16::Parser(parser) => see_parser(alloc, top, positions, parser, found),
        Decl16::Control(control) => see_control(alloc, top, positions, control, found),
    }
}
