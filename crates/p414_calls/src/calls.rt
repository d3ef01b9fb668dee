// The calls of actions.
ghost use Rattle.std.specs.Prelude.{◌≡◌, ◌++◌, map, option_to_list, IfOk, OnOk};
ghost use Rattle.p414_syntax.specs.Arguments.{invocation_of, invocations_of, action_in, actions};
ghost use Rattle.p414_calls.specs.Shown.{shown_argument};

use crate::argument::{Argument, arguments_of, parameters_of};
use name_numbers::Numbering;
use p4x_bits::OutOfMemory;
use p414_syntax::{Action, Call, Decl};
use std::alloc::Global;
use std::marker::Model;

/// A call of a primitive or an action, with what its arguments stand for.
#[derive(Drop)]
pub struct Invocation<'a> {
    callee: &'a [u8],
    arguments: Vec<Argument<'a>>,
}

impl<'a> Model for Invocation<'a> {
    ghost use Rattle.std.specs.Prelude.{map};
    ghost use Rattle.p414_syntax.specs.Arguments.{Invocation as Called};
    ghost use Rattle.p414_calls.specs.Shown.{shown_argument};

    ghost Value = { Called };

    ghost view = { λ i. record { callee = i.callee.now; arguments = map shown_argument i.arguments.items } };
}

impl<'a> Invocation<'a> {
    /// The name of what is called.
    pub fn callee(&self) -> &'a [u8]
        ensures { result.now ≡ self.now.callee }
    {
        self.callee
    }

    /// What the arguments stand for, in order.
    pub fn arguments(&self) -> &[Argument<'a>]
        ensures { map shown_argument result.now ≡ self.now.arguments }
    {
        &self.arguments
    }
}

/// The calls of one action, in order. Contracts see the list of them.
#[derive(Drop)]
pub struct ActionCalls<'a> {
    calls: Vec<Invocation<'a>>,
}

impl<'a> Model for ActionCalls<'a> {
    ghost use Rattle.std.specs.Prelude.{List};
    ghost use Rattle.p414_syntax.specs.Arguments.{Invocation as Called};

    ghost Value = { List Called };

    ghost view = { λ a. a.calls.items };
}

impl<'a> ActionCalls<'a> {
    /// The calls in order.
    pub fn as_slice(&self) -> &[Invocation<'a>]
        ensures { result.now ≡ self.now }
    {
        &self.calls
    }
}

/// A call in an action with these parameters. The one error is want of memory.
fn invocation_of<'a>(
    alloc: Global,
    parameters: &Numbering<'_>,
    call: &'a Call,
) -> Result<Invocation<'a>, OutOfMemory>
    ensures { IfOk result (λ found. found ≡ invocation_of parameters.now call.now) }
{
    let arguments = arguments_of(alloc, parameters, call.arguments.as_slice())?;
    Ok(Invocation {
        callee: call.name.as_slice(),
        arguments,
    })
}

/// Calls in an action with these parameters. The one error is want of memory.
fn all_of<'a>(
    alloc: Global,
    parameters: &Numbering<'_>,
    calls: &'a [Call],
) -> Result<ActionCalls<'a>, OutOfMemory>
    ensures { IfOk result (λ found. found ≡ map (invocation_of parameters.now) calls.now) }
{
    let mut found = Vec::new(alloc);
    for call in calls {
        found.push(invocation_of(alloc, parameters, call)?)?;
    }
    Ok(ActionCalls { calls: found })
}

/// The calls of an action. The one error is want of memory.
fn invocations_of(alloc: Global, declared: &Action) -> Result<ActionCalls<'_>, OutOfMemory>
    ensures { IfOk result (λ found. found ≡ invocations_of declared.now) }
{
    let parameters = parameters_of(alloc, declared.parameters.as_slice())?;
    all_of(alloc, &parameters, declared.calls.as_slice())
}

/// Puts the calls of a declaration behind these, if it is an action.
fn add_decl<'a>(
    alloc: Global,
    found: &mut Vec<ActionCalls<'a>>,
    decl: &'a Decl,
) -> Result<(), OutOfMemory>
    ensures { OnOk result (found.new.items ≡ found.old.items ++ map invocations_of (option_to_list (action_in decl.now))) }
{
    if let Decl::Action(declared) = decl {
        found.push(invocations_of(alloc, declared)?)?;
    }
    Ok(())
}

/// The calls of all actions, in order. The one error is want of memory.
#[tactic(auto, using(crate::proofs::Loops::action_now))]
pub fn calls_of(alloc: Global, decls: &[Decl]) -> Result<Vec<ActionCalls<'_>>, OutOfMemory>
    ensures { IfOk result (λ found. found.items ≡ map invocations_of (actions decls.now)) }
{
    let mut found = Vec::new(alloc);
    for decl in decls {
        add_decl(alloc, &mut found, decl)?;
    }
    Ok(found)
}
