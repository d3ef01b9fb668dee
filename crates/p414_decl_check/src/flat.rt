// C1 to C7: the rules that are truth values, asked one after another.
ghost use Rattle.std.specs.Prelude.{◌≡◌, IfOk};
ghost use Rattle.p414_decl_check.specs.Answers.{IsAnswer, flat_rules};
ghost use Rattle.p414_uses.specs.internal.Collected.{AreUses};
ghost use Rattle.p414_decl_check.specs.internal.Judged.{is_flat_broken, first_broken, behind_c1};

use crate::fault::{DeclFault, refusal};
use crate::selects::has_bad_select;
use crate::stacks::has_bad_stack;
use crate::totals::{has_bad_layout, has_too_much};
use crate::unknown::has_unknown_name;
use crate::widths::has_bad_width;
use p4x_bits::OutOfMemory;
use p414_names::{Names14, names_of};
use p414_syntax::{Decl, ProgramRule};
use p414_uses::{Use, uses_of};
use std::alloc::Global;

/// The rules that are asked once the names are known.
const BEHIND_C1: [ProgramRule; 6] = [
    ProgramRule::C2,
    ProgramRule::C3,
    ProgramRule::C4,
    ProgramRule::C5,
    ProgramRule::C6,
    ProgramRule::C7,
];

/// Whether one of these rules is broken, given all uses of the program.
fn is_broken(names: &Names14<'_>, uses: &[Use<'_>], rule: ProgramRule) -> bool
    requires { AreUses names.now uses.now }
    ensures { result ≡ is_flat_broken names.now rule }
{
    match rule {
        ProgramRule::C2 => has_unknown_name(names, uses),
        ProgramRule::C3 => has_bad_width(names.decls()),
        ProgramRule::C4 => has_bad_stack(names, uses),
        ProgramRule::C5 => has_bad_layout(names),
        ProgramRule::C6 => has_bad_select(names, uses),
        ProgramRule::C7 => has_too_much(names),
        _ => false,
    }
}

/// The first of these rules that is broken.
fn first_broken(names: &Names14<'_>, uses: &[Use<'_>], rules: &[ProgramRule]) -> Option<ProgramRule>
    requires { AreUses names.now uses.now }
    ensures { result ≡ first_broken names.now rules.now }
{
    for rule in rules {
        if is_broken(names, uses, *rule) {
            return Some(*rule);
        }
    }
    None
}

/// The first of C2 to C7 that is broken.
fn first_behind_c1(alloc: Global, names: &Names14<'_>) -> Result<Option<ProgramRule>, OutOfMemory>
    ensures { IfOk result (λ found. found ≡ first_broken names.now behind_c1) }
{
    let uses = uses_of(alloc, names.decls())?;
    Ok(first_broken(names, &uses, &BEHIND_C1))
}

/// The names of a program that breaks none of the rules C1 to C7. The errors are want of memory, and the least of these
/// rules that is broken.
pub fn flat_names(alloc: Global, decls: &[Decl]) -> Result<Names14<'_>, DeclFault>
    ensures { IsAnswer decls.now flat_rules result }
{
    let Some(names) = names_of(alloc, decls)? else {
        return Err(refusal(ProgramRule::C1));
    };
    match first_behind_c1(alloc, &names)? {
        Some(rule) => Err(refusal(rule)),
        None => Ok(names),
    }
}
