// The uses of names in a program.
ghost use Rattle.std.specs.Prelude.{◌≡◌, [], ◌∷◌, ◌++◌, map, option_copied, option_to_list, OnOk, IfOk};
ghost use Rattle.std.specs.List.{flat_map};
ghost use Rattle.p414_uses.specs.internal.Collected.{Adds};
ghost use Rattle.p414_syntax.specs.declared.syntax.Decl.TheVariants as decl;
ghost use Rattle.p414_syntax.specs.Uses.{uses_of, uses};
ghost use Rattle.p414_uses.specs.Shown.{shown_use};

mod actions;
mod controls;
mod expressions;
mod lists;
mod parsers;
mod tables;

use crate::collect::actions::add_action;
use crate::collect::controls::add_control;
use crate::collect::lists::{add_calculated, add_header_type, add_initials, add_items, add_names};
use crate::collect::parsers::add_state;
pub use crate::collect::parsers::last_extracted;
use crate::collect::tables::{add_meter, add_object, add_table};
use crate::uses::{Use, add};
use p4x_bits::OutOfMemory;
use p414_syntax::{Decl, Metadata, Sort};
use std::alloc::Global;

/// Adds the uses in a metadata instance.
#[tactic(auto, using(crate::proofs::Adding::added_two))]
fn add_metadata<'a>(found: &mut Vec<Use<'a>>, declared: &'a Metadata) -> Result<(), OutOfMemory>
    ensures { OnOk result (Adds found.old.items found.new.items (uses_of (decl.Metadata declared.now))) }
{
    add(found, Use::OfSort(Sort::HeaderType, &declared.header_type))?;
    add_initials(found, &declared.header_type, declared.initial_values())
}

/// Adds the uses in a declaration.
fn add_decl<'a>(alloc: Global, found: &mut Vec<Use<'a>>, decl: &'a Decl) -> Result<(), OutOfMemory>
    ensures { OnOk result (Adds found.old.items found.new.items (uses_of decl.now)) }
{
    match decl {
        Decl::HeaderType(declared) => add_header_type(alloc, found, declared),
        Decl::Header(declared) => {
            add(found, Use::OfSort(Sort::HeaderType, &declared.header_type))
        }
        Decl::Metadata(declared) => add_metadata(found, declared),
        Decl::FieldList(declared) => add_items(found, declared.items.as_slice()),
        Decl::FieldListCalculation(declared) => {
            add_names(found, Sort::List, declared.input.as_slice())
        }
        Decl::CalculatedField(declared) => add_calculated(found, declared),
        Decl::Parser(declared) => add_state(found, declared),
        Decl::Action(declared) => add_action(alloc, found, declared),
        Decl::Table(declared) => add_table(found, declared.attributes.as_slice()),
        Decl::Counter(declared) => add_object(found, true, declared.attributes.as_slice()),
        Decl::Meter(declared) => add_meter(found, declared),
        Decl::Register(declared) => add_object(found, true, declared.attributes.as_slice()),
        Decl::Control(declared) => add_control(alloc, found, declared),
        Decl::LeftOut(_) => Ok(()),
    }
}

/// The uses of names in a program, in the order of the text, or want of memory. Its time and its memory are proportional
/// to the size of the program.
pub fn uses_of(alloc: Global, decls: &[Decl]) -> Result<Vec<Use<'_>>, OutOfMemory>
    ensures { IfOk result (λ found. map shown_use found.items ≡ uses decls.now) }
{
    let mut found = Vec::new(alloc);
    for decl in decls {
        add_decl(alloc, &mut found, decl)?;
    }
    Ok(found)
}
