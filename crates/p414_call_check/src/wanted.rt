// What is wanted of the arguments of a call.
ghost use Rattle.std.specs.Prelude.{◌≡◌, length, slice_get, option_copied, option_map};
ghost use Rattle.p414_syntax.specs.Arguments.{action_of, wanted_of};
ghost use Rattle.p414_call_check.specs.Shown.{shown_wanted};
ghost use Rattle.p414_call_check.specs.internal.Placing.{declared_action};

use p414_names::{Names14, places_of};
use p414_syntax::{Action, ArgumentPlace, Decl, Sort};

/// What is wanted of the arguments of a call, in order. Contracts see the list of the places by `shown_wanted`.
#[derive(Clone, Copy, Drop)]
pub enum Wanted<'a> {
    /// What a primitive wants.
    Primitive(&'static [ArgumentPlace]),
    /// A source for each parameter of an action.
    Action(&'a Action),
}

impl Wanted<'_> {
    /// How many places there are.
    #[tactic(auto, using(crate::proofs::Placing::parameter_count))]
    pub fn len(&self) -> usize
        ensures { result ≡ length (shown_wanted self.now) }
    {
        match self {
            Wanted::Primitive(places) => places.len(),
            Wanted::Action(declared) => declared.parameters.len(),
        }
    }

    /// What is wanted at this place, from 0; none behind the last.
    #[tactic(auto, using(crate::proofs::Placing::parameter_place))]
    pub fn place(&self, index: usize) -> Option<ArgumentPlace>
        ensures { result ≡ slice_get (shown_wanted self.now) index }
    {
        match self {
            Wanted::Primitive(places) => places.get(index).copied(),
            Wanted::Action(declared) => match declared.parameters.get(index) {
                Some(_) => Some(ArgumentPlace::Source),
                None => None,
            },
        }
    }
}

/// The action that is declared by a name.
fn declared_action<'a>(names: &Names14<'a>, name: &[u8]) -> Option<&'a Action>
    ensures { option_copied result ≡ declared_action names.now name.now }
{
    match names.declaration_of(Sort::Action, name) {
        Some(Decl::Action(declared)) => Some(declared),
        _ => None,
    }
}

/// The action with a name; none where it is no declared action.
#[tactic(auto, using(crate::proofs::Placing::action_is))]
pub fn action_of<'a>(names: &Names14<'a>, name: &[u8]) -> Option<&'a Action>
    ensures { option_copied result ≡ action_of names.now name.now }
{
    declared_action(names, name)
}

/// What is wanted of the arguments of a call of this name; none where it is neither a primitive that isn't left out nor
/// a declared action.
pub fn wanted_of<'a>(names: &Names14<'a>, callee: &[u8]) -> Option<Wanted<'a>>
    ensures { option_map shown_wanted result ≡ wanted_of names.now callee.now }
{
    match places_of(callee) {
        Some(places) => Some(Wanted::Primitive(places)),
        None => match action_of(names, callee) {
            Some(declared) => Some(Wanted::Action(declared)),
            None => None,
        },
    }
}
