// Cases of selects.
ghost use Rattle.std.specs.Prelude.{◌≡◌, ◌++◌, ◌∷◌, [], nat_lt, ◌^◌, IfOk, OnOk};
ghost use Rattle.agreement_of_meanings.specs.Lowered.{case_to, cases_of, number16, select_cases, simple_of, target16, value_cases};
ghost use Rattle.lower_laws_parser.specs.Words.{next_of};
ghost use Rattle.lower_parser.specs.Written.{parser_names};

use crate::names::StateNames;
use crate::values::plain_number;
use p4x_bits::{OutOfMemory, Rows};
use p414_slots::low;
use p414_syntax::{Case, CaseTarget, CaseValues, Literal, Masked};
use p416_syntax::{Exp, ExpNode, Keyset, Nodes, SelectCase, Simple, Target};
use std::alloc::Global;

/// A number without a width, as an expression by itself.
fn number(alloc: Global, value: u128) -> Result<Exp, OutOfMemory>
    ensures { IfOk result (λ e. e ≡ number16 value) }
{
    let mut nodes = Nodes::new(alloc);
    let place = nodes.expression(ExpNode::Literal(plain_number(value)))?;
    Ok(Exp::new(nodes, place))
}

/// What a key of so many bits is compared with: a value as it stands, on the bits of its mask that the key has.
fn simple(
    alloc: Global,
    width: u8,
    value: u128,
    mask: Option<Literal>,
) -> Result<Simple, OutOfMemory>
    ensures { IfOk result (λ part. part ≡ simple_of width value mask) }
{
    let value = number(alloc, value)?;
    match mask {
        None => Ok(Simple::Value(value)),
        Some(mask) => {
            let mask = number(alloc, low(width, mask.value))?;
            Ok(Simple::Mask(value, mask))
        }
    }
}

/// A case by what the key is compared with.
fn case_to(part: Simple, target: Target) -> SelectCase
    ensures { result ≡ case_to target part }
{
    let keyset = Keyset::One(part);
    SelectCase { keyset, target }
}

/// Where a case leads.
fn case_target(
    alloc: Global,
    names: &StateNames<'_, '_>,
    to: &CaseTarget,
) -> Result<Target, OutOfMemory>
    ensures { IfOk result (λ target. target ≡ target16 (next_of names.now (parser_names names.now)) to.now) }
{
    match to {
        CaseTarget::State(name) => names.target(alloc, name.as_slice()),
        CaseTarget::ParseError(_) => Ok(Target::Reject),
    }
}

/// Whether a number has no more bits than so many.
#[tactic(auto, using(crate::proofs::Powers::fits_all))]
fn fits(width: u8, value: u128) -> bool
    ensures { result ≡ nat_lt value (2 ^ width) }
{
    if width < 128 {
        value < (1u128 << width)
    } else {
        true
    }
}

/// Puts the case of a value last, unless no key of so many bits can have it.
fn add_value(
    alloc: Global,
    made: &mut Rows<SelectCase>,
    names: &StateNames<'_, '_>,
    width: u8,
    to: &CaseTarget,
    masked: Masked,
) -> Result<(), OutOfMemory>
    ensures { OnOk result (made.new ≡ made.old ++ value_cases width (target16 (next_of names.now (parser_names names.now)) to.now) (masked ∷ [])) }
{
    if fits(width, masked.value.value) {
        let part = simple(alloc, width, masked.value.value, masked.mask)?;
        let target = case_target(alloc, names, to)?;
        made.push(case_to(part, target))?;
    }
    Ok(())
}

/// Puts the cases of these values last.
#[tactic(auto, using(crate::proofs::Selects::value_turn))]
fn add_values(
    alloc: Global,
    made: &mut Rows<SelectCase>,
    names: &StateNames<'_, '_>,
    width: u8,
    to: &CaseTarget,
    values: &[Masked],
) -> Result<(), OutOfMemory>
    ensures { OnOk result (made.new ≡ made.old ++ value_cases width (target16 (next_of names.now (parser_names names.now)) to.now) values.now) }
{
    for masked in values {
        add_value(alloc, made, names, width, to, *masked)?;
    }
    Ok(())
}

/// Puts the cases of a case last: one for each of its values.
fn add_case(
    alloc: Global,
    made: &mut Rows<SelectCase>,
    names: &StateNames<'_, '_>,
    width: u8,
    case: &Case,
) -> Result<(), OutOfMemory>
    ensures { OnOk result (made.new ≡ made.old ++ cases_of width (target16 (next_of names.now (parser_names names.now)) case.now.target) case.now.values) }
{
    match &case.values {
        CaseValues::Default => {
            let target = case_target(alloc, names, &case.target)?;
            made.push(case_to(Simple::Default, target))
        }
        CaseValues::Values(values) => {
            add_values(alloc, made, names, width, &case.target, values.as_slice())
        }
    }
}

/// The cases of a select whose key has so many bits, in order.
#[tactic(auto, using(crate::proofs::Selects::case_turn))]
pub fn cases(
    alloc: Global,
    names: &StateNames<'_, '_>,
    width: u8,
    cases: &[Case],
) -> Result<Rows<SelectCase>, OutOfMemory>
    ensures { IfOk result (λ made. made ≡ select_cases width (next_of names.now (parser_names names.now)) cases.now) }
{
    let mut made = Rows::new(alloc);
    for case in cases {
        add_case(alloc, &mut made, names, width, case)?;
    }
    Ok(made)
}
