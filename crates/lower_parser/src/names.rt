// The names of a program's parser states.
ghost use Rattle.std.specs.Prelude.{◌≡◌, ◌++◌, map, option_to_list, IfOk, OnOk};
ghost use Rattle.p414_syntax.specs.References.{referred};
ghost use Rattle.p414_syntax.specs.ParserGraph.{state_in, state_name, states};
ghost use Rattle.p414_syntax.specs.declared.syntax.Sort.TheVariants as sort;
ghost use Rattle.lower_laws_names.specs.NewNames.{new_name};
ghost use Rattle.lower_laws_parser.specs.Words.{next_of};
ghost use Rattle.lower_parser.specs.Written.{parser_names};

use lower_names::new_name;
use name_numbers::{Numbering, number_names};
use p4x_bits::{OutOfMemory, Rows, Text};
use p414_names::Names14;
use p414_syntax::{Decl, Sort};
use p416_syntax::Target;
use std::alloc::Global;
use std::marker::Model;

/// The parser states of a program by name. Contracts see the declarations of the program.
pub struct StateNames<'n, 'a> {
    names: &'n Names14<'a>,
    states: Numbering<'a>,
    called: Rows<Text>,
}

impl Drop for StateNames<'_, '_> {
    fn drop(self) {
        let StateNames {
            names: _names,
            states: _states,
            called: _called,
        } = self;
    }
}

impl<'n, 'a> Model for StateNames<'n, 'a> {
    ghost use Rattle.std.specs.Prelude.{List};
    ghost use Rattle.std.specs.Coded.{codes};
    ghost use Rattle.p414_syntax.specs.declared.syntax.Decl.{Decl};
    ghost use Rattle.p414_syntax.specs.contracts.syntax.Decl as declaration;
    ghost use Rattle.lower_parser.specs.Written.{AreNames};

    ghost Value = { List Decl };

    ghost coded = { Prim.hlevel (codes, declaration.the_row.coded) };

    ghost view = { λ n. n.names.now };

    ghost invariant = { λ n. AreNames n.names.now n.states n.called };
}

/// Puts the name of a state last, if a declaration is one.
fn add_state<'a>(found: &mut Vec<&'a [u8]>, decl: &'a Decl) -> Result<(), OutOfMemory>
    ensures { OnOk result (map referred found.new.items ≡ map referred found.old.items ++ map state_name (option_to_list (state_in decl.now))) }
{
    if let Decl::Parser(state) = decl {
        found.push(state.name.as_slice())?;
    }
    Ok(())
}

/// The names of the states, in order.
#[tactic(auto, using(crate::proofs::Loops::kept_now))]
fn state_names(alloc: Global, decls: &[Decl]) -> Result<Vec<&[u8]>, OutOfMemory>
    ensures { IfOk result (λ found. map referred found.items ≡ map state_name (states decls.now)) }
{
    let mut found = Vec::new(alloc);
    for decl in decls {
        add_state(&mut found, decl)?;
    }
    Ok(found)
}

/// The new names of these states, in order.
fn new_names_of(
    alloc: Global,
    names: &Names14<'_>,
    found: &[&[u8]],
) -> Result<Rows<Text>, OutOfMemory>
    ensures { IfOk result (λ made. made ≡ map (new_name names.now sort.Parse) (map referred found.now)) }
{
    let mut made = Rows::new(alloc);
    for name in found {
        made.push(new_name(alloc, names, Sort::Parse, *name)?)?;
    }
    Ok(made)
}

impl<'n, 'a> StateNames<'n, 'a> {
    /// The parser states of the program of these names. The one error is want of memory.
    #[tactic(auto, using(crate::proofs::Leading::are_names))]
    pub fn of(alloc: Global, names: &'n Names14<'a>) -> Result<Self, OutOfMemory>
        ensures { IfOk result (λ made. made ≡ names.now) }
    {
        let found = state_names(alloc, names.decls())?;
        let called = new_names_of(alloc, names, found.as_slice())?;
        let states = number_names(alloc, found)?;
        Ok(StateNames {
            names,
            states,
            called,
        })
    }

    /// The names of the program.
    pub fn names(&self) -> &'n Names14<'a>
        ensures { result.now ≡ self.now }
    {
        self.names
    }

    /// Where a name leads: to the state of this name, and else to `accept`, since it is that of the control `ingress`.
    #[tactic(auto, using(crate::proofs::Leading::called_inside, crate::proofs::Leading::leads_out))]
    pub fn target(&self, alloc: Global, name: &[u8]) -> Result<Target, OutOfMemory>
        ensures { IfOk result (λ target. target ≡ next_of self.now (parser_names self.now) name.now) }
    {
        match self.states.find(name) {
            Some(number) => {
                let called = self.called.as_slice()[number as usize].as_slice();
                Ok(Target::State(Text::from_slice(alloc, called)?))
            }
            None => Ok(Target::Accept),
        }
    }

    /// The new name of a state.
    pub fn state(&self, alloc: Global, name: &[u8]) -> Result<Text, OutOfMemory>
        ensures { IfOk result (λ text. text ≡ new_name self.now sort.Parse name.now) }
    {
        new_name(alloc, self.names, Sort::Parse, name)
    }
}
