// What the keys of `select` are compared with (P4_16 1.2, "Select expressions").
ghost use Rattle.std.specs.Prelude.{◌≡◌, ◌∷◌, ◌++◌, ◌||◌, [], not, nat_eq, length, map, flat_map, OnOk};
ghost use Rattle.std.specs.List.{list_any};
ghost use Rattle.p416_syntax.specs.Calls.{literal_of};
ghost use Rattle.p416_syntax.specs.Types as rules;
ghost use Rattle.p416_syntax.specs.Uses.{a_keyset, uses};
ghost use Rattle.p416_syntax.specs.Declarations.{simple_uses, compared_uses, keyset_parts, with_keys};
ghost use Rattle.p416_names.specs.SeenKinds.{seen_kind};
ghost use Rattle.p416_scopes.specs.Seen.{seen_scope};
ghost use Rattle.p416_expression_check.specs.Judged.{first_broken};
ghost use Rattle.p416_expression_uses.specs.Found.{after, after_all};
ghost use Rattle.p416_syntax.specs.declared.parsers.Keyset.TheVariants.{One};
ghost use Rattle.p416_uses.specs.Parts.{key_at, paired};

use crate::statements::see_at;
use p4x_bits::OutOfMemory;
use p416_calls::Place;
use p416_expression_uses::Findings;
use p416_names::Kind;
use p416_scopes::Scope;
use p416_syntax::{Exp, Keyset, ProgramRule, Simple};
use std::alloc::Global;

/// What the key with a number is; unknown, where there is none.
#[tactic(auto, using(crate::proofs::KeysetUses::key_there, crate::proofs::KeysetUses::key_past))]
fn key_at<'a>(keys: &[Kind<'a>], number: usize) -> Kind<'a>
    ensures { seen_kind result ≡ key_at (map seen_kind keys.now) number }
{
    match keys.get(number) {
        Some(kind) => *kind,
        None => Kind::Unknown,
    }
}

/// Whether a key of this kind can't be compared so: masks and ranges are of bits.
fn compares_other(key: Kind<'_>, part: &Simple) -> bool
    ensures { result ≡ rules.compares_other (seen_kind key.entry, part.now) }
{
    match part {
        Simple::Mask(_, _) => !key.is_bits(),
        Simple::Range(_, _) => !key.is_bits(),
        _ => false,
    }
}

/// Whether one of these keys can't be compared so.
fn some_other(keys: &[Kind<'_>], parts: &[Simple]) -> bool
    ensures { result ≡ list_any rules.compares_other (paired (map seen_kind keys.now) 0 parts.now) }
{
    let mut number = 0;
    for part in parts {
        if compares_other(key_at(keys, number), part) {
            return true;
        }
        number += 1;
    }
    false
}

/// Whether there are more or fewer of these than keys.
fn is_other_count(keys: &[Kind<'_>], parts: &[Simple]) -> bool
    ensures { result ≡ not (nat_eq (length keys.now) (length parts.now)) }
{
    keys.len() != parts.len()
}

/// Whether one of two holds.
fn is_either(first: bool, second: bool) -> bool
    ensures { result ≡ (first || second) }
{
    first || second
}

/// Whether these don't fit the keys, one for each.
#[tactic(auto, using(crate::proofs::KeysetUses::misfit_from))]
fn are_misfit(keys: &[Kind<'_>], parts: &[Simple]) -> bool
    ensures { result ≡ rules.is_misfit (map seen_kind keys.now) parts.now }
{
    is_either(is_other_count(keys, parts), some_other(keys, parts))
}

/// Whether this doesn't fit the keys, where it is the one that they are compared with.
#[tactic(auto, using(crate::proofs::KeysetUses::one_misfit_told))]
fn is_misfit(keys: &[Kind<'_>], part: &Simple) -> bool
    ensures { result ≡ rules.is_misfit (map seen_kind keys.now) (part.now ∷ []) }
{
    keys.len() != 1 || compares_other(key_at(keys, 0), part)
}

/// Whether one part without parentheses doesn't fit the keys; `default` and `_` stand for all of them.
fn is_bad_alone(keys: &[Kind<'_>], part: &Simple) -> bool
    ensures { result ≡ rules.is_bad_keyset (map seen_kind keys.now) (One part.now) }
{
    match part {
        Simple::Default => false,
        Simple::Any => false,
        part => is_misfit(keys, part),
    }
}

/// Whether a keyset doesn't fit the keys.
fn is_bad_keyset(keys: &[Kind<'_>], keyset: &Keyset) -> bool
    ensures { result ≡ rules.is_bad_keyset (map seen_kind keys.now) keyset.now }
{
    match keyset {
        Keyset::Tuple(parts) => are_misfit(keys, parts.as_slice()),
        Keyset::One(part) => is_bad_alone(keys, part),
    }
}

/// The rule that a keyset breaks by how it fits the keys.
fn broken_keyset(keys: &[Kind<'_>], keyset: &Keyset) -> Option<ProgramRule>
    ensures { result ≡ first_broken (a_keyset (map seen_kind keys.now) keyset.now) }
{
    if is_bad_keyset(keys, keyset) {
        Some(ProgramRule::T3)
    } else {
        None
    }
}

/// Judges how a keyset fits the keys.
pub(crate) fn see_fit(keys: &[Kind<'_>], keyset: &Keyset, found: &mut Findings<'_>)
    ensures { found.new ≡ after found.old (a_keyset (map seen_kind keys.now) keyset.now) }
{
    found.see_rule(broken_keyset(keys, keyset));
}

/// Judges two literals that a key of this kind is compared with.
#[tactic(auto, using(p416_expression_uses::proofs::Finding::after_then))]
fn see_two<'a>(
    alloc: Global,
    scope: &Scope<'_, 'a>,
    key: Kind<'a>,
    first: &'a Exp,
    second: &'a Exp,
    found: &mut Findings<'a>,
) -> Result<(), OutOfMemory>
    ensures { OnOk result (found.new ≡ after_all found.old (uses (seen_scope scope.now) (literal_of (seen_kind key.entry)) first.now ++ uses (seen_scope scope.now) (literal_of (seen_kind key.entry)) second.now)) }
{
    see_at(alloc, scope, Place::LiteralOf(key), &first.view(), found)?;
    see_at(alloc, scope, Place::LiteralOf(key), &second.view(), found)?;
    Ok(())
}

/// Judges what a key of this kind is compared with.
fn see_simple<'a>(
    alloc: Global,
    scope: &Scope<'_, 'a>,
    key: Kind<'a>,
    part: &'a Simple,
    found: &mut Findings<'a>,
) -> Result<(), OutOfMemory>
    ensures { OnOk result (found.new ≡ after_all found.old (simple_uses (seen_scope scope.now) (seen_kind key.entry) part.now)) }
{
    match part {
        Simple::Default => Ok(()),
        Simple::Any => Ok(()),
        Simple::Mask(a, b) => see_two(alloc, scope, key, a, b, found),
        Simple::Range(a, b) => see_two(alloc, scope, key, a, b, found),
        Simple::Value(a) => see_at(alloc, scope, Place::LiteralOf(key), &a.view(), found),
    }
}

/// Judges what these keys are compared with.
#[tactic(auto, using(p416_expression_uses::proofs::Finding::after_turn))]
fn see_parts<'a>(
    alloc: Global,
    scope: &Scope<'_, 'a>,
    keys: &[Kind<'a>],
    parts: &'a [Simple],
    found: &mut Findings<'a>,
) -> Result<(), OutOfMemory>
    ensures { OnOk result (found.new ≡ after_all found.old (flat_map (compared_uses (seen_scope scope.now)) (paired (map seen_kind keys.now) 0 parts.now))) }
{
    let mut number = 0;
    for part in parts {
        see_simple(alloc, scope, key_at(keys, number), part, found)?;
        number += 1;
    }
    Ok(())
}

/// Judges the literals of a keyset.
#[tactic(auto, using(crate::proofs::KeysetUses::parts_told, crate::proofs::KeysetUses::part_told))]
pub(crate) fn see_keyset<'a>(
    alloc: Global,
    scope: &Scope<'_, 'a>,
    keys: &[Kind<'a>],
    keyset: &'a Keyset,
    found: &mut Findings<'a>,
) -> Result<(), OutOfMemory>
    ensures { OnOk result (found.new ≡ after_all found.old (flat_map (compared_uses (seen_scope scope.now)) (with_keys (map seen_kind keys.now) (keyset_parts keyset.now)))) }
{
    match keyset {
        Keyset::Tuple(parts) => {
            see_parts(alloc, scope, keys, parts.as_slice(), found)?;
            Ok(())
        }
        Keyset::One(part) => {
            see_simple(alloc, scope, key_at(keys, 0), part, found)?;
            Ok(())
        }
    }
}
