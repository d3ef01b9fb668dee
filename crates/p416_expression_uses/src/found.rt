// What is found as one use after another is judged.
ghost use Rattle.std.specs.Prelude.{◌≡◌, ◌++◌, ◌∷◌, [], true, map, option_to_list, List, OnOk};
ghost use Rattle.std.specs.Option.{option_map};
ghost use Rattle.p416_syntax.specs.Scopes.{Known};
ghost use Rattle.p416_syntax.specs.Declarations.{top_names};
ghost use Rattle.p416_syntax.specs.Calls.{callee};
ghost use Rattle.p416_syntax.specs.Applications.{called_name, if_action};
ghost use Rattle.p416_syntax.specs.Tables.{is_direct_counter};
ghost use Rattle.p416_syntax.specs.Uses.{Use, an_expression};
ghost use Rattle.p416_names.specs.SeenKinds.{seen_kind, referred};
ghost use Rattle.p416_names.specs.Seen.{seen_sort};
ghost use Rattle.p416_calls.specs.Seen.{seen_place};
ghost use Rattle.p416_scopes.specs.Seen.{seen_part, seen_scope};
ghost use Rattle.p416_typing.specs.Rows.{row_of};
ghost use Rattle.p416_typing.specs.Seen.{seen_row};
ghost use Rattle.p416_expression_check.specs.Judged.{first_broken};
ghost use Rattle.p416_expression_uses.specs.First.{first_in, lower};
ghost use Rattle.p416_expression_uses.specs.Found.{nothing_found, after, counted_in, counted_by};
ghost use Rattle.p416_expression_uses.specs.Seen.{seen_counted};
ghost use Rattle.p416_expression_uses.specs.internal.Plain.{is_plain_use, is_listed_use, owner_counted, call_counted};

use crate::first::lower;
use p4x_bits::OutOfMemory;
use p416_calls::Place;
use p416_expression_check::broken_rule;
use p416_names::{Kind, ObjectKind, Sort};
use p416_scopes::{Part, Scope};
use p416_syntax::{ExpHead, ExpView, ProgramRule};
use p416_typing::Row;
use std::alloc::Global;
use std::marker::Model;

/// A direct counter that is counted in an action.
#[derive(Clone, Copy, Drop)]
pub struct Counted<'a> {
    /// The name of the counter.
    pub counter: &'a [u8],
    /// The name of the action.
    pub action: &'a [u8],
}

/// What was found as one use after another was judged. Contracts see it as a record of lists.
pub struct Findings<'a> {
    rule: Option<ProgramRule>,
    called: Vec<&'a [u8]>,
    counted: Vec<Counted<'a>>,
    held: Vec<Kind<'a>>,
}

impl Drop for Findings<'_> {
    fn drop(self) {
        let Findings {
            rule: _rule,
            called: _called,
            counted: _counted,
            held: _held,
        } = self;
    }
}

impl<'a> Model for Findings<'a> {
    ghost use Rattle.std.specs.Prelude.{map};
    ghost use Rattle.p416_names.specs.SeenKinds.{seen_kind};
    ghost use Rattle.p416_expression_uses.specs.Found.{Found};
    ghost use Rattle.p416_expression_uses.specs.Seen.{seen_counted};

    ghost Value = { Found };

    ghost view = { λ f. record { rule = f.rule; called = map (λ text. text.now) f.called.items; counted = map seen_counted f.counted.items; held = map seen_kind f.held.items } };
}

/// The name of an action, where a name means one.
fn if_action<'a>(name: &'a [u8], sort: Sort<'_>) -> Option<&'a [u8]>
    ensures { (top : List Known) → option_map referred result ≡ if_action name.now (seen_sort top sort.entry) }
{
    match sort {
        Sort::Action(_) => Some(name),
        _ => None,
    }
}

/// The action that an expression names which is called.
fn called_name<'a>(scope: &Scope<'_, '_>, view: &ExpView<'a>) -> Option<&'a [u8]>
    ensures { option_map referred result ≡ called_name (seen_scope scope.now) callee view.now }
{
    match view.head() {
        ExpHead::Name(text) => if_action(text.as_slice(), scope.sort_of(text.as_slice())),
        _ => None,
    }
}

/// The action that an expression at a place names, where the place is that of what is called.
fn called_at<'a>(scope: &Scope<'_, '_>, place: Place<'_>, view: &ExpView<'a>) -> Option<&'a [u8]>
    ensures { option_map referred result ≡ called_name (seen_scope scope.now) (seen_place place.entry) view.now }
{
    match place {
        Place::Called => called_name(scope, view),
        _ => None,
    }
}

/// Whether this is a direct counter.
fn is_direct_counter(kind: Kind<'_>) -> bool
    ensures { result ≡ is_direct_counter (seen_kind kind.entry) }
{
    matches!(kind, Kind::Object(ObjectKind::DirectCounter))
}

/// A counter that is counted in an action, where it is in one.
fn counted_in<'a>(part: Part<'a>, counter: &'a [u8]) -> Option<Counted<'a>>
    ensures { map seen_counted (option_to_list result) ≡ counted_in (seen_part part.entry) counter.now }
{
    match part {
        Part::InAction(action) => Some(Counted { counter, action }),
        _ => None,
    }
}

/// A direct counter that stands by its name before a method, given what it is.
fn owner_counted<'a>(part: Part<'a>, owner: &ExpView<'a>, kind: Kind<'_>) -> Option<Counted<'a>>
    ensures { map seen_counted (option_to_list result) ≡ owner_counted (seen_part part.entry) (seen_kind kind.entry) owner.now }
{
    match owner.head() {
        ExpHead::Name(text) => {
            if is_direct_counter(kind) {
                counted_in(part, text.as_slice())
            } else {
                None
            }
        }
        _ => None,
    }
}

/// The direct counter that an expression counts which is called, given what stands before the method.
fn counted_call<'a>(part: Part<'a>, view: &ExpView<'a>, left: Kind<'_>) -> Option<Counted<'a>>
    ensures { map seen_counted (option_to_list result) ≡ call_counted (seen_part part.entry) (seen_kind left.entry) view.now }
{
    match view.head() {
        ExpHead::Member(owner, _) => owner_counted(part, &owner, left),
        _ => None,
    }
}

/// The direct counter that an expression at a place counts, where the place is that of what is called, given what is known of
/// the expression.
#[tactic(auto, using(crate::proofs::Finding::counted_known))]
fn counted_at<'a>(
    scope: &Scope<'_, 'a>,
    place: Place<'_>,
    view: &ExpView<'a>,
    row: Row<'a>,
) -> Option<Counted<'a>>
    requires { seen_row (top_names scope.now.top.now) row ≡ row_of (seen_scope scope.now) view.now }
    ensures { map seen_counted (option_to_list result) ≡ counted_by (seen_scope scope.now) (seen_place place.entry) view.now }
{
    match place {
        Place::Called => counted_call(scope.part, view, row.left),
        _ => None,
    }
}

impl<'a> Findings<'a> {
    /// Nothing was found. It takes no memory.
    pub fn new(alloc: Global) -> Self
        ensures { result ≡ nothing_found }
    {
        Findings {
            rule: None,
            called: Vec::new(alloc),
            counted: Vec::new(alloc),
            held: Vec::new(alloc),
        }
    }

    /// The first rule of T1 to T6 and T8 to T10 that is broken; where direct counters are counted isn't judged.
    pub fn rule(&self) -> Option<ProgramRule>
        ensures { result ≡ self.now.rule }
    {
        self.rule
    }

    /// The names of the actions that are called, in order.
    pub fn called(&self) -> &[&'a [u8]]
        ensures { map (λ text. text.now) result.now ≡ self.now.called }
    {
        &self.called
    }

    /// The direct counters that are counted in actions, in order.
    pub fn counted(&self) -> &[Counted<'a>]
        ensures { map seen_counted result.now ≡ self.now.counted }
    {
        &self.counted
    }

    /// What the headers, stacks and structs are that variables and parameters of actions hold, in order.
    pub fn held(&self) -> &[Kind<'a>]
        ensures { map seen_kind result.now ≡ self.now.held }
    {
        &self.held
    }

    /// Judges a use of which nothing but a rule is found and that T9 asks nothing of, given the first rule that it breaks.
    #[tactic(auto, using(crate::proofs::Finding::plain_seen))]
    pub fn see_rule(&mut self, rule: Option<ProgramRule>)
        ensures { (u : Use) → is_plain_use u ≡ true → rule ≡ first_broken u → self.new ≡ after self.old u }
    {
        self.note(rule);
    }

    /// Judges a use that T9 asks something of, given the first rule that it breaks.
    #[tactic(auto, using(crate::proofs::Finding::listed_seen))]
    pub fn see_listed(&mut self, rule: Option<ProgramRule>)
        ensures { (u : Use) → is_listed_use u ≡ true → rule ≡ first_in (u ∷ []) → self.new ≡ after self.old u }
    {
        self.note(rule);
    }

    /// Puts the name of an action that is called behind the others, where one is.
    fn push_called(&mut self, name: Option<&'a [u8]>) -> Result<(), OutOfMemory>
        ensures { OnOk result (self.new ≡ record self.old { called = self.old.called ++ option_to_list (option_map referred name.entry) }) }
    {
        if let Some(name) = name {
            self.called.push(name)?;
        }
        Ok(())
    }

    /// Puts a direct counter that is counted behind the others, where one is.
    fn push_counted(&mut self, counted: Option<Counted<'a>>) -> Result<(), OutOfMemory>
        ensures { OnOk result (self.new ≡ record self.old { counted = self.old.counted ++ map seen_counted (option_to_list counted.entry) }) }
    {
        if let Some(counted) = counted {
            self.counted.push(counted)?;
        }
        Ok(())
    }

    /// Puts what a variable or a parameter of an action holds behind the others, where that counts.
    pub(crate) fn push_held(&mut self, kind: Option<Kind<'a>>) -> Result<(), OutOfMemory>
        ensures { OnOk result (self.new ≡ record self.old { held = self.old.held ++ map seen_kind (option_to_list kind.entry) }) }
    {
        if let Some(kind) = kind {
            self.held.push(kind)?;
        }
        Ok(())
    }

    /// Notes a rule that may be broken.
    pub(crate) fn note(&mut self, rule: Option<ProgramRule>)
        ensures { self.new ≡ record self.old { rule = lower self.old.rule rule } }
    {
        self.rule = lower(self.rule, rule);
    }

    /// Judges an expression in its place by itself, given what is known of it; numbers and types in it aren't judged.
    #[tactic(auto, using(crate::proofs::Finding::expression_seen))]
    pub(crate) fn see_alone(
        &mut self,
        scope: &Scope<'_, 'a>,
        place: Place<'_>,
        view: &ExpView<'a>,
        row: Row<'a>,
    ) -> Result<(), OutOfMemory>
        requires { seen_row (top_names scope.now.top.now) row ≡ row_of (seen_scope scope.now) view.now }
        ensures { OnOk result (self.new ≡ after self.old (an_expression (seen_scope scope.now) (seen_place place.entry) view.now)) }
    {
        self.note(broken_rule(scope, place, view, row));
        self.push_called(called_at(scope, place, view))?;
        self.push_counted(counted_at(scope, place, view, row))?;
        Ok(())
    }
}
