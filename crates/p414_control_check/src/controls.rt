// The controls of a program and their numbers.
ghost use Rattle.std.specs.Prelude.{◌≡◌, length, map, slice_get, option_copied, IfOk};
ghost use Rattle.p414_syntax.specs.ControlExpansion.{controls, control_name, control_number};

use name_numbers::{Numbering, number_names};
use p4x_bits::OutOfMemory;
use p414_names::Names14;
use p414_syntax::{Control, Decl, References};
use std::alloc::Global;
use std::marker::Model;

/// The controls of a program, each found by its number and its name. Contracts see the declarations of the program.
pub struct Controls<'n, 'a> {
    names: &'n Names14<'a>,
    declared: References<'a, Control>,
    numbers: Numbering<'a>,
}

impl Drop for Controls<'_, '_> {
    fn drop(self) {
        let Controls {
            names: _names,
            declared: _declared,
            numbers: _numbers,
        } = self;
    }
}

impl<'n, 'a> Model for Controls<'n, 'a> {
    ghost use Rattle.std.specs.Prelude.{◌≡◌, List, map};
    ghost use Rattle.std.specs.Coded.{codes};
    ghost use Rattle.p414_syntax.specs.contracts.syntax.Decl as declaration;
    ghost use Rattle.p414_syntax.specs.declared.syntax.Decl.{Decl};
    ghost use Rattle.p414_syntax.specs.ControlExpansion as expansion;

    ghost Value = { List Decl };

    ghost coded = { Prim.hlevel (codes, declaration.the_row.coded) };

    ghost view = { λ c. c.names.now };

    ghost invariant = { λ c. (c.declared ≡ expansion.controls c.names.now) × (c.numbers ≡ map expansion.control_name (expansion.controls c.names.now)) };
}

/// The controls, in the order of the text.
fn declared_controls(alloc: Global, decls: &[Decl]) -> Result<References<'_, Control>, OutOfMemory>
    ensures { IfOk result (λ found. found ≡ controls decls.now) }
{
    let mut found = References::new(alloc);
    for decl in decls {
        if let Decl::Control(control) = decl {
            found.push(control)?;
        }
    }
    Ok(found)
}

/// The names of the controls, in the order of the text.
fn control_names<'a>(alloc: Global, decls: &'a [Decl]) -> Result<Vec<&'a [u8]>, OutOfMemory>
    ensures { IfOk result (λ names. map (λ name. name.now) names.items ≡ map control_name (controls decls.now)) }
{
    let mut names = Vec::new(alloc);
    for decl in decls {
        if let Decl::Control(control) = decl {
            names.push(control.name().as_slice())?;
        }
    }
    Ok(names)
}

impl<'n, 'a> Controls<'n, 'a> {
    /// The controls of a program with these names. The one error is want of memory, which more than 2^32 controls count as.
    pub fn of(alloc: Global, names: &'n Names14<'a>) -> Result<Self, OutOfMemory>
        ensures { IfOk result (λ controls. controls ≡ names.now) }
    {
        Ok(Controls {
            names,
            declared: declared_controls(alloc, names.decls())?,
            numbers: number_names(alloc, control_names(alloc, names.decls())?)?,
        })
    }

    /// The names of the program.
    pub fn names(&self) -> &'n Names14<'a>
        ensures { result.now ≡ self.now }
    {
        self.names
    }

    /// All declarations of the program, in the order of the text.
    pub fn decls(&self) -> &'a [Decl]
        ensures { result.now ≡ self.now }
    {
        self.names.decls()
    }

    /// How many controls there are.
    pub fn len(&self) -> usize
        ensures { result ≡ length (controls self.now) }
    {
        self.declared.len()
    }

    /// The control with a number, from 0 in the order of the text.
    pub fn get(&self, number: usize) -> Option<&'a Control>
        ensures { option_copied result ≡ slice_get (controls self.now) number }
    {
        self.declared.get(number)
    }

    /// The number of the control with a name, if there is one.
    pub fn number(&self, name: &[u8]) -> Option<usize>
        ensures { result ≡ control_number self.now name.now }
    {
        match self.numbers.find(name) {
            Some(number) => Some(number as usize),
            None => None,
        }
    }
}
