// Direct counters with the actions that their tables list (`v1model.p4`).
ghost use Rattle.std.specs.Prelude.{◌≡◌, ◌||◌, [], ◌∷◌, filter_map, IfOk, OnOk};
ghost use Rattle.std.specs.List.{list_any};
ghost use Rattle.p416_syntax.specs.Declarations.{table_in};
ghost use Rattle.p416_syntax.specs.Tables.{tables_of};
ghost use Rattle.p416_listed_check.specs.Pairs.{Pair, is_same_pair};
ghost use Rattle.p416_counter_check.specs.internal.Pairs.{is_pair_of};

use p4x_bits::OutOfMemory;
use p416_listed_check::{PairSet, add_actions};
use p416_syntax::{Decl16, Local, Table16};
use std::alloc::Global;

/// Puts the direct counter of a table there with each action that the table lists, where it has one.
fn add_table<'a>(set: &mut PairSet<'a>, table: &'a Table16) -> Result<(), OutOfMemory>
    ensures { OnOk result ((p : Pair) → list_any (is_same_pair p) set.new ≡ (list_any (is_same_pair p) set.old || is_pair_of p table.now)) }
{
    match table.counters() {
        Some(counter) => add_actions(set, counter.as_slice(), table.actions()),
        None => Ok(()),
    }
}

/// The same of what is declared in a control.
fn add_local<'a>(set: &mut PairSet<'a>, declared: &'a Local) -> Result<(), OutOfMemory>
    ensures { OnOk result ((p : Pair) → list_any (is_same_pair p) set.new ≡ (list_any (is_same_pair p) set.old || list_any (is_pair_of p) (filter_map table_in (declared.now ∷ [])))) }
{
    match declared {
        Local::Table(table) => add_table(set, table),
        _ => Ok(()),
    }
}

/// The same of all that is declared in one.
fn add_locals<'a>(set: &mut PairSet<'a>, locals: &'a [Local]) -> Result<(), OutOfMemory>
    ensures { OnOk result ((p : Pair) → list_any (is_same_pair p) set.new ≡ (list_any (is_same_pair p) set.old || list_any (is_pair_of p) (filter_map table_in locals.now))) }
{
    for declared in locals {
        add_local(set, declared)?;
    }
    Ok(())
}

/// The direct counters of a declaration's tables, each with the actions that the table lists.
pub(crate) fn pairs_of(alloc: Global, decl: &Decl16) -> Result<PairSet<'_>, OutOfMemory>
    ensures { IfOk result (λ set. (p : Pair) → list_any (is_same_pair p) set ≡ list_any (is_pair_of p) (tables_of decl.now)) }
{
    let mut set = PairSet::new(alloc);
    if let Decl16::Control(control) = decl {
        add_locals(&mut set, control.locals.as_slice())?;
    }
    Ok(set)
}
