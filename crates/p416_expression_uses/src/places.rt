// The places of an expression or of the arguments of a list.
ghost use Rattle.std.specs.Prelude.{◌≡◌, map, get_or};
ghost use Rattle.p416_syntax.specs.Scopes.{handed};
ghost use Rattle.p416_syntax.specs.Calls.{any_literal};
ghost use Rattle.p416_syntax.specs.Declarations.{top_names, default_place, sort_parameters};
ghost use Rattle.p416_names.specs.Seen.{seen_sort};
ghost use Rattle.p416_calls.specs.Seen.{seen_place};
ghost use Rattle.p416_expression_uses.specs.Seen.{wanted_in, otherwise_in};
ghost use Rattle.p416_expression_uses.specs.internal.Runs.{place_in};

use p416_calls::{Callee, Place};
use p416_names::{Sort, Top};
use p416_syntax::Action16;

/// What the places of the arguments of a list are told by.
#[derive(Clone, Copy, Drop)]
pub enum Arguments<'a> {
    /// A call of this.
    Given(Callee<'a>),
    /// They are the items of a list in braces.
    Items,
    /// A table gives them its default action, whose name means this.
    Literals(Sort<'a>),
}

/// The place of one expression, or those of the arguments of an argument list.
#[derive(Clone, Copy, Drop)]
pub enum Places<'a> {
    /// That of one expression.
    One(Place<'a>),
    /// Those of the arguments of a list.
    Many(Arguments<'a>),
}

/// The place of the argument with a number that a table gives this action.
#[tactic(auto, using(crate::proofs::Defaults::parameter_there, crate::proofs::Defaults::parameter_past))]
fn literal_place<'a>(top: &Top<'a>, action: &Action16, number: usize) -> Place<'a>
    ensures { seen_place result ≡ get_or (map default_place (map (handed (top_names top.now)) action.now.parameters)) number any_literal }
{
    match action.parameters.get(number) {
        Some(parameter) => Place::LiteralOf(top.kind_of_type(&parameter.of)),
        None => Place::AnyLiteral,
    }
}

/// The place of the argument with a number that a table gives its default action.
fn default_place<'a>(top: &Top<'a>, sort: Sort<'a>, number: usize) -> Place<'a>
    ensures { seen_place result ≡ get_or (map default_place (sort_parameters (seen_sort (top_names top.now) sort.entry))) number any_literal }
{
    match sort {
        Sort::Action(action) => literal_place(top, action, number),
        _ => Place::AnyLiteral,
    }
}

impl<'a> Arguments<'a> {
    /// The place of the argument with a number.
    pub(crate) fn place(self, top: &Top<'a>, number: usize) -> Place<'a>
        ensures { seen_place result ≡ place_in (wanted_in (top_names top.now) self.entry) (otherwise_in self.entry) number }
    {
        match self {
            Arguments::Given(called) => called.place(top, number),
            Arguments::Items => Place::AnyBits,
            Arguments::Literals(sort) => default_place(top, sort, number),
        }
    }
}
