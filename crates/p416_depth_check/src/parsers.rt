// How deep parsers nest.
ghost use Rattle.std.specs.Prelude.{◌≡◌, ◌||◌, IfOk};
ghost use Rattle.std.specs.List.{list_any};
ghost use Rattle.p416_syntax.specs.Declarations.{keyset_parts};
ghost use Rattle.p416_depth_check.specs.internal.Deep.{is_deep, is_deep_var, is_deep_simple, is_deep_case, is_deep_transition, is_deep_state, is_deep_parser};

use crate::bodies::{is_deep_body, is_deep_var};
use crate::expressions::is_deep;
use p4x_bits::OutOfMemory;
use p416_syntax::{Exp, Keyset, Parser16, SelectCase, Simple, State, Transition, Var};
use std::alloc::Global;

/// Whether one of two expressions nests over 512 deep.
fn is_one_deep(alloc: Global, first: &Exp, second: &Exp) -> Result<bool, OutOfMemory>
    ensures { IfOk result (λ deep. deep ≡ (is_deep first.now || is_deep second.now)) }
{
    if is_deep(alloc, &first.view())? {
        return Ok(true);
    }
    is_deep(alloc, &second.view())
}

/// Whether what a key is compared with nests over 512 deep.
fn is_deep_simple(alloc: Global, simple: &Simple) -> Result<bool, OutOfMemory>
    ensures { IfOk result (λ deep. deep ≡ is_deep_simple simple.now) }
{
    match simple {
        Simple::Default => Ok(false),
        Simple::Any => Ok(false),
        Simple::Mask(a, b) => is_one_deep(alloc, a, b),
        Simple::Range(a, b) => is_one_deep(alloc, a, b),
        Simple::Value(a) => is_deep(alloc, &a.view()),
    }
}

/// Whether one of these nests over 512 deep.
fn some_deep_simple(alloc: Global, parts: &[Simple]) -> Result<bool, OutOfMemory>
    ensures { IfOk result (λ deep. deep ≡ list_any is_deep_simple parts.now) }
{
    for part in parts {
        if is_deep_simple(alloc, part)? {
            return Ok(true);
        }
    }
    Ok(false)
}

/// Whether what a case of a `select` compares with nests over 512 deep.
fn is_deep_keyset(alloc: Global, keyset: &Keyset) -> Result<bool, OutOfMemory>
    ensures { IfOk result (λ deep. deep ≡ list_any is_deep_simple (keyset_parts keyset.now)) }
{
    match keyset {
        Keyset::Tuple(parts) => some_deep_simple(alloc, parts.as_slice()),
        Keyset::One(part) => is_deep_simple(alloc, part),
    }
}

/// The same of these cases.
fn some_deep_case(alloc: Global, cases: &[SelectCase]) -> Result<bool, OutOfMemory>
    ensures { IfOk result (λ deep. deep ≡ list_any is_deep_case cases.now) }
{
    for case in cases {
        if is_deep_keyset(alloc, &case.keyset)? {
            return Ok(true);
        }
    }
    Ok(false)
}

/// Whether one of these keys nests over 512 deep.
fn some_deep_key(alloc: Global, keys: &[Exp]) -> Result<bool, OutOfMemory>
    ensures { IfOk result (λ deep. deep ≡ list_any is_deep keys.now) }
{
    for key in keys {
        if is_deep(alloc, &key.view())? {
            return Ok(true);
        }
    }
    Ok(false)
}

/// Whether the keys of a `select`, or what they are compared with, nest over 512 deep.
fn is_deep_select(alloc: Global, keys: &[Exp], cases: &[SelectCase]) -> Result<bool, OutOfMemory>
    ensures { IfOk result (λ deep. deep ≡ (list_any is_deep keys.now || list_any is_deep_case cases.now)) }
{
    if some_deep_key(alloc, keys)? {
        return Ok(true);
    }
    some_deep_case(alloc, cases)
}

/// Whether a transition nests over 512 deep.
fn is_deep_transition(alloc: Global, transition: &Transition) -> Result<bool, OutOfMemory>
    ensures { IfOk result (λ deep. deep ≡ is_deep_transition transition.now) }
{
    match transition {
        Transition::Go(_) => Ok(false),
        Transition::Select(keys, cases) => is_deep_select(alloc, keys.as_slice(), cases.as_slice()),
    }
}

/// Whether a state nests over 512 deep.
fn is_deep_state(alloc: Global, state: &State) -> Result<bool, OutOfMemory>
    ensures { IfOk result (λ deep. deep ≡ is_deep_state state.now) }
{
    if is_deep_body(alloc, 0, &state.body.statements())? {
        return Ok(true);
    }
    is_deep_transition(alloc, &state.transition)
}

/// Whether one of these states does.
fn some_deep_state(alloc: Global, states: &[State]) -> Result<bool, OutOfMemory>
    ensures { IfOk result (λ deep. deep ≡ list_any is_deep_state states.now) }
{
    for state in states {
        if is_deep_state(alloc, state)? {
            return Ok(true);
        }
    }
    Ok(false)
}

/// Whether the initial value of one of these variables does.
fn some_deep_var(alloc: Global, vars: &[Var]) -> Result<bool, OutOfMemory>
    ensures { IfOk result (λ deep. deep ≡ list_any is_deep_var vars.now) }
{
    for var in vars {
        if is_deep_var(alloc, var)? {
            return Ok(true);
        }
    }
    Ok(false)
}

/// Whether blocks or expressions of a parser nest over 512 deep.
pub(crate) fn is_deep_parser(alloc: Global, parser: &Parser16) -> Result<bool, OutOfMemory>
    ensures { IfOk result (λ deep. deep ≡ is_deep_parser parser.now) }
{
    if some_deep_var(alloc, parser.vars.as_slice())? {
        return Ok(true);
    }
    some_deep_state(alloc, parser.states.as_slice())
}
