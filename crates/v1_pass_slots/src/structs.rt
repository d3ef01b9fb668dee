// The structs of a program by their names.
ghost use Rattle.std.specs.Prelude.{◌≡◌, map, filter, IfOk};
ghost use Rattle.p416_syntax.specs.Unknown.{declared_name};
ghost use Rattle.p416_names.specs.internal.Tables.{is_type};
ghost use Rattle.v1_pass_slots.specs.Found.{IsStruct};
ghost use Rattle.v1_pass_slots.specs.internal.Structs.{HasFields, FieldsAt, AreTypes};

use name_numbers::{Numbering, number_names};
use p4x_bits::OutOfMemory;
use p416_names::{Top, decl_name};
use p416_syntax::{Decl16, StructField};
use std::alloc::Global;

/// The types that a program declares, by their names.
pub(crate) struct Types<'t, 'a> {
    pub(crate) top: &'t Top<'a>,
    pub(crate) names: Numbering<'a>,
    pub(crate) decls: Vec<&'a Decl16>,
}

impl Drop for Types<'_, '_> {
    fn drop(self) {
        let Types {
            top: _top,
            names: _names,
            decls: _decls,
        } = self;
    }
}

/// Whether a declaration declares a type.
fn is_type(decl: &Decl16) -> bool
    ensures { result ≡ is_type decl.now }
{
    match decl {
        Decl16::Header(_) => true,
        Decl16::Struct(_) => true,
        Decl16::Instance(_, _) => false,
        Decl16::Parser(_) => false,
        Decl16::Control(_) => false,
    }
}

/// Those of these declarations that declare types.
fn type_decls(alloc: Global, decls: &[Decl16]) -> Result<Vec<&Decl16>, OutOfMemory>
    ensures { IfOk result (λ types. map (λ d. d.now) types.items ≡ filter is_type decls.now) }
{
    let mut types = Vec::new(alloc);
    for decl in decls {
        if is_type(decl) {
            types.push(decl)?;
        }
    }
    Ok(types)
}

/// The names of declarations.
fn names_of<'a>(alloc: Global, decls: &[&'a Decl16]) -> Result<Vec<&'a [u8]>, OutOfMemory>
    ensures { IfOk result (λ names. map (λ name. name.now) names.items ≡ map declared_name (map (λ d. d.now) decls.now)) }
{
    let mut names = Vec::new(alloc);
    for decl in decls {
        names.push(decl_name(decl).as_slice())?;
    }
    Ok(names)
}

/// The types of the program with these names at the top, or want of memory.
pub(crate) fn types_of<'t, 'a>(
    alloc: Global,
    top: &'t Top<'a>,
) -> Result<Types<'t, 'a>, OutOfMemory>
    ensures types { IfOk result AreTypes }
    ensures top { IfOk result (λ types. types.top.now ≡ top.now) }
{
    let decls = type_decls(alloc, top.decls())?;
    let names = number_names(alloc, names_of(alloc, &decls)?)?;
    Ok(Types { top, names, decls })
}

/// The fields of a struct; what is none counts as want of memory.
fn fields_of(decl: &Decl16) -> Result<&[StructField], OutOfMemory>
    ensures { IfOk result (λ fields. HasFields decl.now fields.now) }
{
    match decl {
        Decl16::Struct(found) => Ok(found.fields.as_slice()),
        _ => Err(OutOfMemory),
    }
}

/// The fields of the declaration at a place.
fn fields_at<'a>(decls: &[&'a Decl16], place: usize) -> Result<&'a [StructField], OutOfMemory>
    ensures { IfOk result (λ fields. FieldsAt (map (λ d. d.now) decls.now) place fields.now) }
{
    match decls.get(place) {
        Some(decl) => fields_of(decl),
        None => Err(OutOfMemory),
    }
}

/// The fields of the struct of this name; a name of no struct counts as want of memory.
#[tactic(auto, using(crate::proofs::Named::struct_is))]
pub(crate) fn struct_named<'a>(
    types: &Types<'_, 'a>,
    name: &[u8],
) -> Result<&'a [StructField], OutOfMemory>
    requires { AreTypes types.now }
    ensures { IfOk result (λ fields. IsStruct types.now.top.now name.now fields.now) }
{
    match types.names.find(name) {
        Some(place) => fields_at(&types.decls, place as usize),
        None => Err(OutOfMemory),
    }
}
