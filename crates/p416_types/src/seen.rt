// What is found in all declarations of a program.
ghost use Rattle.std.specs.Prelude.{◌≡◌, ◌||◌, length, drop, map, IfOk, OnOk};
ghost use Rattle.p416_expression_uses.specs.Found.{after_all};
ghost use Rattle.p416_expression_uses.specs.Seen.{seen_counted};
ghost use Rattle.p416_types.specs.internal.Seen.{uses_at_top, uses_of_all, counts_wrongly};

use p4x_bits::OutOfMemory;
use p416_counter_check::counts_outside;
use p416_expression_uses::{Counted, Findings};
use p416_main_check::MainPlaces;
use p416_names::{Top, decl_name};
use p416_syntax::Decl16;
use p416_uses::see_declaration;
use std::alloc::Global;

/// How many direct counters were counted so far.
#[tactic(auto, using(crate::proofs::Leaving::count_is))]
fn counted_so_far(found: &Findings<'_>) -> usize
    ensures { result ≡ length found.now.counted }
{
    found.counted().len()
}

/// The direct counters that were counted behind so many.
#[tactic(auto, using(crate::proofs::Leaving::counted_drop))]
fn counted_behind<'f, 'a>(found: &'f Findings<'a>, before: usize) -> &'f [Counted<'a>]
    ensures { map seen_counted result.now ≡ drop before found.now.counted }
{
    let counted = found.counted();
    counted.split_at(before.min(counted.len())).1
}

/// Finds what a declaration has, and whether it counts a direct counter outside its table.
fn see_one<'t, 'a>(
    alloc: Global,
    top: &'t Top<'a>,
    places: &'t MainPlaces<'_>,
    decl: &'a Decl16,
    found: &mut Findings<'a>,
) -> Result<bool, OutOfMemory>
    ensures found { OnOk result (found.new ≡ after_all found.old (uses_at_top top.now places.now decl.now)) }
    ensures outside { IfOk result (λ outside. outside ≡ counts_wrongly (uses_at_top top.now places.now decl.now)) }
{
    let positions = places.of_name(decl_name(decl).as_slice());
    let before = counted_so_far(found);
    see_declaration(alloc, top, positions, decl, found)?;
    let outside = counts_outside(alloc, decl, counted_behind(found, before))?;
    Ok(outside)
}

/// Whether one of these holds.
fn is_either(first: bool, second: bool) -> bool
    ensures { result ≡ (first || second) }
{
    first || second
}

/// The same of these declarations.
pub(crate) fn see_all<'t, 'a>(
    alloc: Global,
    top: &'t Top<'a>,
    places: &'t MainPlaces<'_>,
    decls: &'a [Decl16],
    found: &mut Findings<'a>,
) -> Result<bool, OutOfMemory>
    ensures found { OnOk result (found.new ≡ after_all found.old (uses_of_all top.now places.now decls.now)) }
    ensures outside { IfOk result (λ outside. outside ≡ counts_wrongly (uses_of_all top.now places.now decls.now)) }
{
    let mut outside = false;
    for decl in decls {
        let here = see_one(alloc, top, places, decl, found)?;
        outside = is_either(outside, here);
    }
    Ok(outside)
}
