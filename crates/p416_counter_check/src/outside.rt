// Whether a direct counter is counted outside its table (`v1model.p4`).
ghost use Rattle.std.specs.Prelude.{◌≡◌, ℕ, not, map, flat_map, IfOk, List};
ghost use Rattle.std.specs.List.{list_any};
ghost use Rattle.p416_syntax.specs.declared.program.Decl16.{Decl16};
ghost use Rattle.p416_syntax.specs.Declarations.{top_scope, declaration_uses};
ghost use Rattle.p416_expression_uses.specs.Found.{counted_of};
ghost use Rattle.p416_expression_uses.specs.Seen.{seen_counted};
ghost use Rattle.p416_listed_check.specs.Pairs.{is_same_pair};
ghost use Rattle.p416_counter_check.specs.Counting.{is_counted_use};
ghost use Rattle.p416_counter_check.specs.internal.Pairs.{is_missing};

use crate::pairs::pairs_of;
use p4x_bits::OutOfMemory;
use p416_expression_uses::Counted;
use p416_listed_check::PairSet;
use p416_syntax::Decl16;
use std::alloc::Global;

/// Whether a counter isn't among these with the action that counts it.
fn is_missing(set: &PairSet<'_>, counted: Counted<'_>) -> bool
    ensures { result ≡ is_missing set.now (seen_counted counted.entry) }
{
    !set.has(counted.counter, counted.action)
}

/// Whether one of these counters isn't.
fn some_missing(set: &PairSet<'_>, counted: &[Counted<'_>]) -> bool
    ensures { result ≡ list_any (is_missing set.now) (map seen_counted counted.now) }
{
    for next in counted {
        if is_missing(set, *next) {
            return true;
        }
    }
    false
}

/// Whether an action of a declaration counts a direct counter that belongs to no table of it that lists the action: what T9
/// asks of expressions, exactly, given the direct counters that are counted in the declaration. In time linear in the tables
/// and in these, but for the look-ups; the one error is want of memory.
pub fn counts_outside(
    alloc: Global,
    decl: &Decl16,
    counted: &[Counted<'_>],
) -> Result<bool, OutOfMemory>
    ensures { IfOk result (λ outside. (ds : List Decl16) (positions : List ℕ) → map seen_counted counted.now ≡ flat_map counted_of (declaration_uses (top_scope ds positions) decl.now) → outside ≡ list_any is_counted_use (declaration_uses (top_scope ds positions) decl.now)) }
{
    let set = pairs_of(alloc, decl)?;
    let outside = some_missing(&set, counted);
    Ok(outside)
}
