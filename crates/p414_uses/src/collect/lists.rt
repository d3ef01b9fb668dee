// The uses in header types, metadata, field lists and calculated fields.
ghost use Rattle.std.specs.Prelude.{◌≡◌, [], ◌∷◌, ◌++◌, map, option_copied, option_to_list, OnOk, None, Some};
ghost use Rattle.std.specs.List.{flat_map};
ghost use Rattle.p414_syntax.specs.Subtrees.{subexpressions, subtrees};
ghost use Rattle.p414_uses.specs.internal.Collected.{Adds};
ghost use Rattle.p414_syntax.specs.declared.syntax.Sort.TheVariants as sort;
ghost use Rattle.p414_syntax.specs.Uses.{of_sort, uses_of_expr, tail_expressions, use_of_initial, uses_of_item, uses_of_condition, uses_of_calc, uses_of_calculated};

use crate::collect::expressions::add_expression;
use crate::uses::{Use, add};
use p4x_bits::{OutOfMemory, Text};
use p414_syntax::{Calc, CalcCond, CalculatedField, ExprView, HeaderType, Initial, Item, Sort};
use std::alloc::Global;

/// Adds the uses in an expression, if there is one.
fn add_tail<'a>(
    alloc: Global,
    found: &mut Vec<Use<'a>>,
    expression: Option<ExprView<'a>>,
) -> Result<(), OutOfMemory>
    ensures { OnOk result (Adds found.old.items found.new.items (flat_map uses_of_expr (option_to_list expression.entry))) }
{
    match expression {
        Some(expression) => add_expression(alloc, found, &expression),
        None => Ok(()),
    }
}

/// Adds the uses behind the fields of a header type.
#[tactic(auto, using(crate::proofs::Adding::added_flat))]
pub fn add_header_type<'a>(
    alloc: Global,
    found: &mut Vec<Use<'a>>,
    declared: &'a HeaderType,
) -> Result<(), OutOfMemory>
    ensures { OnOk result (Adds found.old.items found.new.items (flat_map uses_of_expr (tail_expressions declared.now))) }
{
    add_tail(alloc, found, declared.length())?;
    add_tail(alloc, found, declared.max_length())
}

/// Adds the uses of fields that have initial values.
pub fn add_initials<'a>(
    found: &mut Vec<Use<'a>>,
    header_type: &'a Text,
    initials: &'a [Initial],
) -> Result<(), OutOfMemory>
    ensures { OnOk result (Adds found.old.items found.new.items (map (use_of_initial header_type.now) initials.now)) }
{
    for initial in initials {
        add(found, Use::OfTypeField(header_type, &initial.field))?;
    }
    Ok(())
}

/// Adds the names of a sort.
pub fn add_names<'a>(
    found: &mut Vec<Use<'a>>,
    sort: Sort,
    names: &'a [Text],
) -> Result<(), OutOfMemory>
    ensures { OnOk result (Adds found.old.items found.new.items (map (of_sort sort) names.now)) }
{
    for name in names {
        add(found, Use::OfSort(sort, name))?;
    }
    Ok(())
}

/// Adds the use of an item.
fn add_item<'a>(found: &mut Vec<Use<'a>>, item: &'a Item) -> Result<(), OutOfMemory>
    ensures { OnOk result (Adds found.old.items found.new.items (uses_of_item item.now)) }
{
    match item {
        Item::Field(field) => add(found, Use::OfField(field)),
        Item::Instance(instance) => add(found, Use::OfItem(instance)),
        _ => Ok(()),
    }
}

/// Adds the uses in a field list.
pub fn add_items<'a>(found: &mut Vec<Use<'a>>, items: &'a [Item]) -> Result<(), OutOfMemory>
    ensures { OnOk result (Adds found.old.items found.new.items (flat_map uses_of_item items.now)) }
{
    for item in items {
        add_item(found, item)?;
    }
    Ok(())
}

/// Adds the use in a condition, if there is one.
fn add_condition<'a>(
    found: &mut Vec<Use<'a>>,
    condition: &'a Option<CalcCond>,
) -> Result<(), OutOfMemory>
    ensures { OnOk result (Adds found.old.items found.new.items (flat_map uses_of_condition (option_to_list condition.now))) }
{
    match condition {
        Some(CalcCond::Valid(instance)) => add(found, Use::OfInstance(instance)),
        Some(CalcCond::Equal(field, _)) => add(found, Use::OfField(field)),
        None => Ok(()),
    }
}

/// Adds the uses in an entry of a calculated field.
#[tactic(auto, using(crate::proofs::Adding::added_two))]
fn add_entry<'a>(found: &mut Vec<Use<'a>>, entry: &'a Calc) -> Result<(), OutOfMemory>
    ensures { OnOk result (Adds found.old.items found.new.items (uses_of_calc entry.now)) }
{
    add(found, Use::OfSort(Sort::Calculation, &entry.calculation))?;
    add_condition(found, &entry.condition)
}

/// Adds the uses in entries of a calculated field.
fn add_entries<'a>(found: &mut Vec<Use<'a>>, entries: &'a [Calc]) -> Result<(), OutOfMemory>
    ensures { OnOk result (Adds found.old.items found.new.items (flat_map uses_of_calc entries.now)) }
{
    for entry in entries {
        add_entry(found, entry)?;
    }
    Ok(())
}

/// Adds the uses in a calculated field.
#[tactic(auto, using(crate::proofs::Adding::added_two))]
pub fn add_calculated<'a>(
    found: &mut Vec<Use<'a>>,
    declared: &'a CalculatedField,
) -> Result<(), OutOfMemory>
    ensures { OnOk result (Adds found.old.items found.new.items (uses_of_calculated declared.now)) }
{
    add(found, Use::OfField(&declared.field))?;
    add_entries(found, declared.entries.as_slice())
}
