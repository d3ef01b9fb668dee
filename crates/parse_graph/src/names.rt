// The names of states and instances.
ghost use Rattle.std.specs.Prelude.{◌≡◌, ℕ, List, map, length, IfOk};
ghost use Rattle.p414_syntax.specs.declared.syntax.Sort.TheVariants as sort;
ghost use Rattle.p414_syntax.specs.Names.{names_in};
ghost use Rattle.p414_syntax.specs.ParserGraph.{states, state_name, state_number, instance_number};

use name_numbers::{Numbering, narrow, number_names};
use p4x_bits::OutOfMemory;
use p414_syntax::Decl;
use std::alloc::Global;
use std::marker::Model;

/// The numbers of a program's parser states and instances. Contracts see the declarations of the program.
pub struct Names<'s> {
    decls: &'s [Decl],
    states: Numbering<'s>,
    instances: Numbering<'s>,
}

impl Drop for Names<'_> {
    fn drop(self) {
        let Names {
            decls: _decls,
            states: _states,
            instances: _instances,
        } = self;
    }
}

impl<'s> Model for Names<'s> {
    ghost use Rattle.std.specs.Prelude.{◌≡◌, List, map};
    ghost use Rattle.std.specs.Coded.{codes};
    ghost use Rattle.p414_syntax.specs.contracts.syntax.Decl as declaration;
    ghost use Rattle.p414_syntax.specs.declared.syntax.Decl.{Decl};
    ghost use Rattle.p414_syntax.specs.declared.syntax.Sort.TheVariants as sort;
    ghost use Rattle.p414_syntax.specs.Names.{names_in};
    ghost use Rattle.p414_syntax.specs.ParserGraph as parser_graph;

    ghost Value = { List Decl };

    ghost coded = { Prim.hlevel (codes, declaration.the_row.coded) };

    ghost view = { λ n. n.decls.now };

    ghost invariant = { λ n. (n.states ≡ map parser_graph.state_name (parser_graph.states n.decls.now)) × (n.instances ≡ names_in sort.Instance n.decls.now) };
}

/// The names of the parser states, in the order of the text.
fn state_names<'s>(alloc: Global, decls: &'s [Decl]) -> Result<Vec<&'s [u8]>, OutOfMemory>
    ensures { IfOk result (λ names. map (λ name. name.now) names.items ≡ map state_name (states decls.now)) }
{
    let mut names = Vec::new(alloc);
    for decl in decls {
        if let Decl::Parser(state) = decl {
            names.push(state.name.as_slice())?;
        }
    }
    Ok(names)
}

/// The names of the headers, header stacks and metadata instances, in the order of the text.
fn instance_names<'s>(alloc: Global, decls: &'s [Decl]) -> Result<Vec<&'s [u8]>, OutOfMemory>
    ensures { IfOk result (λ names. map (λ name. name.now) names.items ≡ names_in sort.Instance decls.now) }
{
    let mut names = Vec::new(alloc);
    for decl in decls {
        match decl {
            Decl::Header(declared) => names.push(declared.name.as_slice())?,
            Decl::Metadata(declared) => names.push(declared.name.as_slice())?,
            _ => {}
        }
    }
    Ok(names)
}

impl<'s> Names<'s> {
    /// The names of these declarations. The one error is want of memory.
    pub fn of(alloc: Global, decls: &'s [Decl]) -> Result<Self, OutOfMemory>
        ensures { IfOk result (λ names. names ≡ decls.now) }
    {
        Ok(Names {
            decls,
            states: number_names(alloc, state_names(alloc, decls)?)?,
            instances: number_names(alloc, instance_names(alloc, decls)?)?,
        })
    }

    /// The number of the parser state with this name, if there is one.
    pub fn state_number(&self, name: &[u8]) -> Option<u32>
        ensures { result ≡ state_number self.now name.now }
    {
        self.states.find(name)
    }

    /// The number of the instance with this name. That of `standard_metadata`, which isn't declared, is the one behind
    /// the last.
    pub fn instance_number(&self, name: &[u8]) -> Result<u32, OutOfMemory>
        ensures { IfOk result (λ number. number ≡ instance_number self.now name.now) }
    {
        match self.instances.find(name) {
            Some(number) => Ok(number),
            None => narrow(self.instances.len()),
        }
    }
}
