// How many variables, and parameters of actions, are declared in front of a block.
ghost use Rattle.std.specs.Prelude.{◌≡◌, ◌+◌, length, IfOk};
ghost use Rattle.v1_core.specs.Slots.{kinds_of};
ghost use Rattle.v1_block_laws.specs.Variables.{count_before, parser_from, control_from};
ghost use Rattle.v1_block_seats.specs.internal.Wanted.{test_of};

use p4x_bits::OutOfMemory;
use p416_names::{Kind, Top};
use p416_syntax::{Control16, Decl16, Parser16, Syntax16};
use std::alloc::Global;
use v1_layout::add_declared;

/// The parser, or the control, of this name.
#[derive(Clone, Copy, Drop)]
enum Wanted<'n> {
    Parser(&'n [u8]),
    Control(&'n [u8]),
}

/// Whether a declaration is the block that is wanted.
fn is_wanted(wanted: Wanted<'_>, declared: &Decl16) -> bool
    ensures { result ≡ test_of wanted.entry declared.now }
{
    match wanted {
        Wanted::Parser(name) => match declared {
            Decl16::Parser(parser) => parser.name.as_slice() == name,
            _ => false,
        },
        Wanted::Control(name) => match declared {
            Decl16::Control(control) => control.name.as_slice() == name,
            _ => false,
        },
    }
}

/// A number, and so many more. A sum of more bits than an address has counts as want of memory.
pub(crate) fn further(number: usize, count: usize) -> Result<usize, OutOfMemory>
    ensures { IfOk result (λ n. n ≡ number + count) }
{
    match number.checked_add(count) {
        Some(n) => Ok(n),
        None => Err(OutOfMemory),
    }
}

/// How many there are.
pub(crate) fn count_of(kinds: &[Kind<'_>]) -> usize
    ensures { result ≡ length kinds.now }
{
    kinds.len()
}

/// How many variables and parameters of actions stand in a declaration.
#[tactic(auto, using(crate::proofs::Before::counted))]
fn count_in<'a>(
    alloc: Global,
    top: &Top<'a>,
    syntax: &Syntax16,
    declared: &'a Decl16,
) -> Result<usize, OutOfMemory>
    requires { top.now ≡ syntax.now.decls }
    ensures { IfOk result (λ n. n ≡ length (kinds_of syntax.now declared.now)) }
{
    let mut kinds = Vec::new(alloc);
    add_declared(alloc, top, syntax, declared, &mut kinds)?;
    Ok(count_of(&kinds))
}

/// How many stand in front of the first of these declarations that is the block that is wanted.
#[tactic(auto, using(crate::proofs::Before::counted_here, crate::proofs::Before::counted_past))]
fn count_before<'a>(
    alloc: Global,
    top: &Top<'a>,
    syntax: &Syntax16,
    wanted: Wanted<'_>,
    decls: &'a [Decl16],
) -> Result<usize, OutOfMemory>
    requires { top.now ≡ syntax.now.decls }
    ensures { IfOk result (λ n. n ≡ count_before syntax.now (test_of wanted.entry) decls.now) }
{
    let mut count = 0usize;
    for declared in decls {
        if is_wanted(wanted, declared) {
            return Ok(count);
        }
        let own = count_in(alloc, top, syntax, declared)?;
        count = further(count, own)?;
    }
    Ok(count)
}

/// The number of the first variable of a parser among all variables and parameters of actions of its program, from 0. The one
/// error is want of memory.
#[tactic(auto, using(crate::proofs::Before::parser_counted))]
pub fn parser_from(
    alloc: Global,
    top: &Top<'_>,
    syntax: &Syntax16,
    parser: &Parser16,
) -> Result<usize, OutOfMemory>
    requires { top.now ≡ syntax.now.decls }
    ensures { IfOk result (λ n. n ≡ parser_from syntax.now parser.now) }
{
    let wanted = Wanted::Parser(parser.name.as_slice());
    count_before(alloc, top, syntax, wanted, top.decls())
}

/// The same of a control.
#[tactic(auto, using(crate::proofs::Before::control_counted))]
pub fn control_from(
    alloc: Global,
    top: &Top<'_>,
    syntax: &Syntax16,
    control: &Control16,
) -> Result<usize, OutOfMemory>
    requires { top.now ≡ syntax.now.decls }
    ensures { IfOk result (λ n. n ≡ control_from syntax.now control.now) }
{
    let wanted = Wanted::Control(control.name.as_slice());
    count_before(alloc, top, syntax, wanted, top.decls())
}
