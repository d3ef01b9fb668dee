// The kinds of all values of a frame.
ghost use Rattle.std.specs.Prelude.{◌≡◌, ◌++◌, map, flat_map, OnOk, IfOk};
ghost use Rattle.p416_syntax.specs.Main.{headers_kind, metadata_kind};
ghost use Rattle.p416_names.specs.SeenKinds.{seen_kind};
ghost use Rattle.v1_core.specs.Slots.{kinds_of};
ghost use Rattle.v1_core.specs.Programs.{frame_kinds};

use crate::variables::{add_control, add_parser, places_of};
use p4x_bits::OutOfMemory;
use p416_names::{Kind, Top};
use p416_syntax::{Decl16, Syntax16};
use std::alloc::Global;

const STANDARD_METADATA: &[u8] = b"standard_metadata_t";

/// The kinds of the variables and of the parameters of actions of a declaration, behind the others. Want of memory is the one
/// error.
#[tactic(auto, using(crate::proofs::Told::declared_parser, crate::proofs::Told::declared_control))]
pub fn add_declared<'a>(
    alloc: Global,
    top: &Top<'a>,
    syntax: &Syntax16,
    declared: &'a Decl16,
    kinds: &mut Vec<Kind<'a>>,
) -> Result<(), OutOfMemory>
    requires { top.now ≡ syntax.now.decls }
    ensures { OnOk result (map seen_kind kinds.new.items ≡ map seen_kind kinds.old.items ++ kinds_of syntax.now declared.now) }
{
    match declared {
        Decl16::Parser(parser) => {
            let places = places_of(alloc, syntax.main.as_slice(), parser.name.as_slice())?;
            add_parser(alloc, top, &places, parser, kinds)?;
            Ok(())
        }
        Decl16::Control(control) => {
            let places = places_of(alloc, syntax.main.as_slice(), control.name.as_slice())?;
            add_control(alloc, top, &places, control, kinds)?;
            Ok(())
        }
        _ => Ok(()),
    }
}

/// The kinds of the variables of all declarations behind the others.
#[tactic(auto, using(crate::proofs::Told::next_told))]
fn add_all<'a>(
    alloc: Global,
    top: &Top<'a>,
    syntax: &Syntax16,
    declared: &'a [Decl16],
    kinds: &mut Vec<Kind<'a>>,
) -> Result<(), OutOfMemory>
    requires { top.now ≡ syntax.now.decls }
    ensures { OnOk result (map seen_kind kinds.new.items ≡ map seen_kind kinds.old.items ++ flat_map (kinds_of syntax.now) declared.now) }
{
    for next in declared {
        add_declared(alloc, top, syntax, next, kinds)?;
    }
    Ok(())
}

/// The kinds of all values of the frames of a program: of its headers and its metadata, which are these, of the standard
/// metadata, and of all variables of blocks and statements and all parameters of actions in the order of the text. Want of
/// memory is the one error.
#[tactic(auto, using(crate::proofs::Told::all_told))]
pub fn frame_kinds<'a>(
    alloc: Global,
    top: &Top<'a>,
    syntax: &Syntax16,
    headers: Kind<'a>,
    metadata: Kind<'a>,
) -> Result<Vec<Kind<'a>>, OutOfMemory>
    requires top { top.now ≡ syntax.now.decls }
    requires headers { seen_kind headers ≡ headers_kind syntax.now }
    requires metadata { seen_kind metadata ≡ metadata_kind syntax.now }
    ensures { IfOk result (λ kinds. map seen_kind kinds.items ≡ frame_kinds syntax.now) }
{
    let mut kinds = Vec::new(alloc);
    kinds.push(headers)?;
    kinds.push(metadata)?;
    kinds.push(Kind::Struct(STANDARD_METADATA))?;
    add_all(alloc, top, syntax, top.decls(), &mut kinds)?;
    Ok(kinds)
}
