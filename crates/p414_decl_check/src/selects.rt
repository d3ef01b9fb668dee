// C6: `latest` and selects.
ghost use Rattle.std.specs.Prelude.{◌≡◌, map, sum_by, nat_lt, option_copied};
ghost use Rattle.std.specs.List.{list_any};
ghost use Rattle.p414_syntax.specs.Selects.{is_early, latest_bits, value_bits, joins_too_much, state_joins_too_much, has_bad_select};
ghost use Rattle.p414_uses.specs.Shown.{shown_use};
ghost use Rattle.p414_uses.specs.internal.Collected.{AreUses};

use p414_names::Names14;
use p414_syntax::{Decl, Inst, PValue, Return};
use p414_uses::{Use, last_extracted};

/// How many bits a select joins at most.
const MOST_BITS: u128 = 128;

/// Whether nothing was extracted before `latest`.
fn is_early(item: &Use<'_>) -> bool
    ensures { result ≡ is_early (shown_use item.now) }
{
    matches!(item, Use::OfLatest(None, _))
}

/// Whether that is so of one of these uses.
fn some_early(uses: &[Use<'_>]) -> bool
    ensures { result ≡ list_any is_early (map shown_use uses.now) }
{
    for item in uses {
        if is_early(item) {
            return true;
        }
    }
    false
}

/// The bits of a field of what was extracted last; 0 where it isn't there.
fn latest_bits(names: &Names14<'_>, last: Option<&Inst>, field: &[u8]) -> u128
    ensures { result ≡ latest_bits names.now (option_copied last.entry) field.now }
{
    match last {
        Some(instance) => names.width_of(instance.name.as_slice(), field).unwrap_or(0),
        None => 0,
    }
}

/// The bits of a value in a select, where `last` was extracted last.
fn value_bits(names: &Names14<'_>, last: Option<&Inst>, value: &PValue) -> u128
    ensures { result ≡ value_bits names.now (option_copied last.entry) value.now }
{
    match value {
        PValue::Current(_, bits) => bits.value,
        PValue::Latest(field) => latest_bits(names, last, field.as_slice()),
        PValue::Field(field) => names.ref_width(field).unwrap_or(0),
        PValue::Number(_) => 0,
    }
}

/// Whether these values together have over 128 bits.
#[tactic(auto, using(p414_names::proofs::Sums::over_now, p414_names::proofs::Sums::add_now))]
fn are_too_wide(names: &Names14<'_>, last: Option<&Inst>, values: &[PValue]) -> bool
    ensures { result ≡ nat_lt 128 (sum_by (value_bits names.now (option_copied last.entry)) values.now) }
{
    let mut total = 0;
    for value in values {
        let bits = value_bits(names, last, value);
        if bits > MOST_BITS - total {
            return true;
        }
        total += bits;
    }
    false
}

/// Whether a return joins over 128 bits.
fn joins_too_much(names: &Names14<'_>, last: Option<&Inst>, end: &Return) -> bool
    ensures { result ≡ joins_too_much names.now (option_copied last.entry) end.now }
{
    match end {
        Return::Select(values, _) => are_too_wide(names, last, values.as_slice()),
        _ => false,
    }
}

/// Whether a state joins over 128 bits.
fn state_joins_too_much(names: &Names14<'_>, decl: &Decl) -> bool
    ensures { result ≡ state_joins_too_much names.now decl.now }
{
    match decl {
        Decl::Parser(state) => {
            joins_too_much(
                names,
                last_extracted(state.statements.as_slice()),
                &state.end,
            )
        }
        _ => false,
    }
}

/// Whether some state joins over 128 bits.
fn some_joins_too_much(names: &Names14<'_>, decls: &[Decl]) -> bool
    ensures { result ≡ list_any (state_joins_too_much names.now) decls.now }
{
    for decl in decls {
        if state_joins_too_much(names, decl) {
            return true;
        }
    }
    false
}

/// Whether C6 is broken, given all uses of the program.
pub fn has_bad_select(names: &Names14<'_>, uses: &[Use<'_>]) -> bool
    requires { AreUses names.now uses.now }
    ensures { result ≡ has_bad_select names.now }
{
    some_early(uses) || some_joins_too_much(names, names.decls())
}
