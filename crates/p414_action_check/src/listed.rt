// C15: the actions that tables list.
ghost use Rattle.std.specs.Prelude.{◌≡◌, ◌≤◌, ◌∷◌, ◌++◌, List, map, flat_map, option_to_list, IfOk, OnOk};
ghost use Rattle.p414_syntax.specs.Names.{Name};
ghost use Rattle.p414_syntax.specs.Distinct.{distinct, distinct_behind};
ghost use Rattle.p414_syntax.specs.Arguments.{action_number};
ghost use Rattle.p414_syntax.specs.Tables.{table_in};
ghost use Rattle.p414_syntax.specs.Actions.{distinct_listed, all_listed};
ghost use Rattle.p414_action_check.specs.internal.Counted.{listed_numbers, total_from};

use crate::hashes::{capped, number_at};
use p4x_bits::{OutOfMemory, Text};
use p414_calls::action_number;
use p414_names::{NameSet, Names14};
use p414_syntax::Decl;
use std::alloc::Global;

/// Puts the number of the action with a name last, unless the name stood before.
fn add_once<'a>(
    found: &mut Vec<Option<usize>>,
    before: &mut NameSet<'a>,
    names: &Names14<'_>,
    name: &'a [u8],
) -> Result<(), OutOfMemory>
    ensures { OnOk result ((rest : List Name) → found.new.items ++ map (action_number names.now) (distinct_behind before.new rest) ≡ found.old.items ++ map (action_number names.now) (distinct_behind before.old (name.now ∷ rest))) }
{
    if before.add(name)? {
        found.push(action_number(names, name))?;
    }
    Ok(())
}

/// Puts the numbers of the actions with these names last, each once; none for an action that isn't there.
fn add_names(
    alloc: Global,
    found: &mut Vec<Option<usize>>,
    names: &Names14<'_>,
    listed: &[Text],
) -> Result<(), OutOfMemory>
    ensures { OnOk result (found.new.items ≡ found.old.items ++ map (action_number names.now) (distinct listed.now)) }
{
    let mut before = NameSet::new(alloc);
    for name in listed {
        add_once(found, &mut before, names, name.as_slice())?;
    }
    Ok(())
}

/// The same of the actions that a declaration lists, if it is a table.
fn add_listed(
    alloc: Global,
    found: &mut Vec<Option<usize>>,
    names: &Names14<'_>,
    decl: &Decl,
) -> Result<(), OutOfMemory>
    ensures { OnOk result (found.new.items ≡ found.old.items ++ flat_map (listed_numbers names.now) (option_to_list (table_in decl.now))) }
{
    match decl {
        Decl::Table(declared) => add_names(alloc, found, names, declared.actions()),
        _ => Ok(()),
    }
}

/// The numbers of the actions that each table lists, each once for each table, table after table; none for an action that
/// isn't there. The one error is want of memory.
pub fn all_numbers(alloc: Global, names: &Names14<'_>) -> Result<Vec<Option<usize>>, OutOfMemory>
    ensures { IfOk result (λ found. found.items ≡ map (action_number names.now) (all_listed names.now)) }
{
    let mut found = Vec::new(alloc);
    for decl in names.decls() {
        add_listed(alloc, &mut found, names, decl)?;
    }
    Ok(found)
}

/// What these actions come to together, but at most the limit; nothing where one isn't there.
pub fn total(sizes: &[u64], actions: &[Option<usize>]) -> Option<u64>
    ensures { result ≡ total_from 65537 sizes.now 0 actions.now }
{
    let mut so_far = 0;
    for action in actions {
        let Some(action) = *action else {
            return None;
        };
        so_far = capped(so_far, number_at(sizes, action));
    }
    Some(so_far)
}
