// The types of a program by the numbers of their declarations.
ghost use Rattle.std.specs.Prelude.{◌≡◌, map, IfOk};
ghost use Rattle.p416_syntax.specs.Declarations.{top_names, layouts_of};
ghost use Rattle.p416_syntax.specs.Scopes.{kind_of_type, fields_in};
ghost use Rattle.p416_syntax.specs.Unknown.{declared_name, declaration_number};
ghost use Rattle.p416_names.specs.SeenKinds.{seen_kind};
ghost use Rattle.p416_names.specs.Seen.{seen_fields};

use name_numbers::{Numbering, number_names};
use p4x_bits::OutOfMemory;
use p416_names::{Fields, Kind, Top, decl_name};
use p416_syntax::{Decl16, Type16};
use std::alloc::Global;
use std::marker::Model;

/// The declarations at the top, each found by its name. Contracts see the declarations.
#[derive(Drop)]
pub(crate) struct Types<'t, 'a> {
    top: &'t Top<'a>,
    names: Numbering<'a>,
}

impl<'t, 'a> Model for Types<'t, 'a> {
    ghost use Rattle.std.specs.Prelude.{◌≡◌, List, map};
    ghost use Rattle.std.specs.Coded.{codes};
    ghost use Rattle.p416_syntax.specs.contracts.program.Decl16 as declaration;
    ghost use Rattle.p416_syntax.specs.declared.program.Decl16.{Decl16};
    ghost use Rattle.p416_syntax.specs.Unknown.{declared_name};

    ghost Value = { List Decl16 };

    ghost coded = { Prim.hlevel (codes, declaration.the_row.coded) };

    ghost view = { λ t. t.top.now };

    ghost invariant = { λ t. t.names ≡ map declared_name t.top.now };
}

/// The names that these declarations declare, in order.
fn decl_names<'a>(alloc: Global, decls: &'a [Decl16]) -> Result<Vec<&'a [u8]>, OutOfMemory>
    ensures { IfOk result (λ names. map (λ name. name.now) names.items ≡ map declared_name decls.now) }
{
    let mut names = Vec::new(alloc);
    for decl in decls {
        names.push(decl_name(decl).as_slice())?;
    }
    Ok(names)
}

impl<'t, 'a> Types<'t, 'a> {
    /// The declarations of a program with these names. The one error is want of memory, which more than 2^32 declarations
    /// count as.
    pub(crate) fn of(alloc: Global, top: &'t Top<'a>) -> Result<Self, OutOfMemory>
        ensures { IfOk result (λ types. types ≡ top.now) }
    {
        let names = number_names(alloc, decl_names(alloc, top.decls())?)?;
        Ok(Types { top, names })
    }

    /// The declarations, in order.
    pub(crate) fn decls(&self) -> &'a [Decl16]
        ensures { result.now ≡ self.now }
    {
        self.top.decls()
    }

    /// The number of the first declaration with this name.
    pub(crate) fn number(&self, name: &[u8]) -> Option<usize>
        ensures { result ≡ declaration_number self.now name.now }
    {
        match self.names.find(name) {
            Some(number) => Some(number as usize),
            None => None,
        }
    }

    /// The fields of the type of this name.
    pub(crate) fn fields(&self, name: &[u8]) -> Fields<'a>
        ensures { seen_fields (top_names self.now) result ≡ fields_in (layouts_of self.now) name.now }
    {
        self.top.fields(name)
    }

    /// What the values of a type are.
    pub(crate) fn kind_of_type(&self, of: &Type16) -> Kind<'a>
        ensures { seen_kind result ≡ kind_of_type (top_names self.now) of.now }
    {
        self.top.kind_of_type(of)
    }
}
