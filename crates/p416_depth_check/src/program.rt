// How deep a program nests (the limit is this project's own).
ghost use Rattle.std.specs.Prelude.{◌≡◌, IfOk};
ghost use Rattle.std.specs.List.{list_any};
ghost use Rattle.p416_syntax.specs.declared.rule.ProgramRule.TheVariants.{T12};
ghost use Rattle.p416_syntax.specs.Exact.{IsExact};
ghost use Rattle.p416_syntax.specs.Scopes.{Scope};
ghost use Rattle.p416_syntax.specs.Totals as totals;
ghost use Rattle.p416_syntax.specs.Breaks.{has_use, SomeBreaks};
ghost use Rattle.p416_depth_check.specs.internal.Deep.{is_deep_decl};

use crate::bodies::is_deep_instance;
use crate::controls::is_deep_control;
use crate::parsers::is_deep_parser;
use p4x_bits::OutOfMemory;
use p416_syntax::{Decl16, Syntax16};
use std::alloc::Global;

/// Whether blocks or expressions of a declaration nest over 512 deep.
fn is_deep_decl(alloc: Global, decl: &Decl16) -> Result<bool, OutOfMemory>
    ensures { IfOk result (λ deep. deep ≡ is_deep_decl decl.now) }
{
    match decl {
        Decl16::Header(_) => Ok(false),
        Decl16::Struct(_) => Ok(false),
        Decl16::Instance(_, instance) => is_deep_instance(alloc, instance),
        Decl16::Parser(parser) => is_deep_parser(alloc, parser),
        Decl16::Control(control) => is_deep_control(alloc, control),
    }
}

/// Whether one of these does.
fn some_deep_decl(alloc: Global, decls: &[Decl16]) -> Result<bool, OutOfMemory>
    ensures { IfOk result (λ deep. deep ≡ list_any is_deep_decl decls.now) }
{
    for decl in decls {
        if is_deep_decl(alloc, decl)? {
            return Ok(true);
        }
    }
    Ok(false)
}

/// Whether a declaration breaks T12 by itself, exactly: blocks or expressions nest over 512 deep. That doesn't depend on
/// the names at the top. Its time is linear in the declaration; the one error is want of memory.
pub fn is_too_deep(alloc: Global, decl: &Decl16) -> Result<bool, OutOfMemory>
    ensures { IfOk result (λ deep. (s : Scope) → deep ≡ has_use totals.is_too_deep s decl.now) }
{
    is_deep_decl(alloc, decl)
}

/// Whether some declaration of a program breaks T12 by itself, exactly. Its time is linear in the program; the one error
/// is want of memory.
pub fn some_too_deep(alloc: Global, syntax: &Syntax16) -> Result<bool, OutOfMemory>
    ensures { IfOk result (λ deep. IsExact deep (SomeBreaks T12 syntax.now)) }
{
    some_deep_decl(alloc, syntax.decls.as_slice())
}
