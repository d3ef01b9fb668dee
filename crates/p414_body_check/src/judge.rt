// All rules, one after another.
ghost use Rattle.std.specs.Prelude.{◌≡◌, map};
ghost use Rattle.p414_call_check.specs.Shown.{shown_placed};
ghost use Rattle.p414_syntax.specs.Arguments.{actions, invocations_of, placed_arguments};
ghost use Rattle.p414_syntax.specs.Breaks.{BreaksNone, declaration_rules, program_rules};
ghost use Rattle.p414_body_check.specs.internal.Steps.{Keeps, rules_of_bodies};
ghost use Rattle.p414_body_check.specs.internal.Declared.{IsDeclared};

use crate::bodies::{
    judge_from_c11, judge_from_c14, judge_from_c17, judge_from_c20, judge_from_c23, judge_from_c26,
};
use crate::fault::Check14;
use crate::parsers::judge_parser;
use p414_call_check::{PlacedArgument, placed_arguments};
use p414_calls::{ActionCalls, calls_of};
use p414_decl_check::{DeclFault, decls};
use p414_names::Names14;
use p414_syntax::Syntax14;
use std::alloc::Global;

/// The names of a program that breaks no rule of declarations.
fn declared(alloc: Global, syntax: &Syntax14) -> Result<Names14<'_>, Check14>
    ensures { IsDeclared syntax.now.decls result }
{
    match decls(alloc, syntax) {
        Ok(names) => Ok(names),
        Err(DeclFault::Memory) => Err(Check14::Memory),
        Err(DeclFault::Refused(fault)) => Err(Check14::Refused(fault)),
    }
}

/// Judges a program by the rules of bodies, given its calls, and their arguments with what is wanted of each.
fn judge_calls(
    alloc: Global,
    names: &Names14<'_>,
    calls: &[ActionCalls<'_>],
    placed: &[PlacedArgument<'_>],
) -> Result<(), Check14>
    requires calls { calls.now ≡ map invocations_of (actions names.now) }
    requires placed { map shown_placed placed.now ≡ placed_arguments names.now }
    requires declared { BreaksNone names.now declaration_rules }
    ensures { Keeps names.now rules_of_bodies result }
{
    judge_from_c11(alloc, names, calls)?;
    judge_from_c14(alloc, names, placed)?;
    judge_from_c17(alloc, names)?;
    judge_from_c20(alloc, names)?;
    judge_from_c23(alloc, names, placed)?;
    judge_from_c26(alloc, names, placed)
}

/// Judges a program by the rules of bodies.
fn judge_bodies(alloc: Global, names: &Names14<'_>) -> Result<(), Check14>
    requires { BreaksNone names.now declaration_rules }
    ensures { Keeps names.now rules_of_bodies result }
{
    let calls = calls_of(alloc, names.decls())?;
    let placed = placed_arguments(alloc, names, &calls)?;
    judge_calls(alloc, names, &calls, &placed)
}

/// Judges a program by all rules.
pub fn judge(alloc: Global, syntax: &Syntax14) -> Result<(), Check14>
    ensures { Keeps syntax.now.decls program_rules result }
{
    let names = declared(alloc, syntax)?;
    judge_parser(alloc, syntax)?;
    judge_bodies(alloc, &names)
}
