// The check of all declarations of a program.
ghost use Rattle.p414_syntax.specs.Breaks.{BreaksNone, declaration_rules};
ghost use Rattle.p414_decl_check.specs.Answers.{IsAnswer, BlamesLeast, flat_rules};

use crate::fault::{DeclFault, refusal};
use crate::flat::flat_names;
use p414_list_check::has_bad_list;
use p414_names::Names14;
use p414_syntax::{Decl, ProgramRule, Syntax14};
use std::alloc::Global;

/// The names, if their declarations break C8 neither.
fn with_lists<'a>(alloc: Global, names: Names14<'a>) -> Result<Names14<'a>, DeclFault>
    requires { BreaksNone names flat_rules }
    ensures { IsAnswer names.entry declaration_rules result }
{
    if has_bad_list(alloc, &names)? {
        return Err(refusal(ProgramRule::C8));
    }
    Ok(names)
}

/// The names of these declarations, or the first of the rules C1 to C8 that they break.
fn names_in(alloc: Global, decls: &[Decl]) -> Result<Names14<'_>, DeclFault>
    ensures { IsAnswer decls.now declaration_rules result }
{
    match flat_names(alloc, decls) {
        Ok(names) => with_lists(alloc, names),
        Err(fault) => Err(fault),
    }
}

/// The names of a program that breaks none of the rules C1 to C8. The errors are want of memory, and the least rule that
/// is broken.
pub fn decls(alloc: Global, syntax: &Syntax14) -> Result<Names14<'_>, DeclFault>
    ensures answer { IsAnswer syntax.now.decls declaration_rules result }
    ensures least { BlamesLeast syntax.now result }
{
    names_in(alloc, syntax.decls.as_slice())
}
