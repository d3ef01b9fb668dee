// What T9 asks of one table (P4_16 1.2, "Tables").
ghost use Rattle.std.specs.Prelude.{◌≡◌, IfOk, OnOk};
ghost use Rattle.p416_syntax.specs.Tables.{has_bad_actions, is_bad_table};
ghost use Rattle.p416_scopes.specs.Seen.{seen_scope};
ghost use Rattle.p416_listed_check.specs.Listings.{AreGiven};

use crate::actions::some_bad_action;
use crate::planes::mixes_up;
use p4x_bits::OutOfMemory;
use p416_name_set::NameSet;
use p416_scopes::Scope;
use p416_syntax::{ActionName, Table16};
use p416_table_check::{has_bad_keys, has_outside_default};
use std::alloc::Global;

/// Whether an entry can't give a parameter of one of these actions, or two of them have one control-plane name.
fn has_bad_actions<'a>(
    alloc: Global,
    given: &mut NameSet<'a>,
    scope: &Scope<'_, 'a>,
    actions: &'a [ActionName],
) -> Result<bool, OutOfMemory>
    requires { AreGiven (seen_scope scope.now) given.old }
    ensures bad { IfOk result (λ bad. bad ≡ has_bad_actions (seen_scope scope.now) actions.now) }
    ensures given { OnOk result (AreGiven (seen_scope scope.now) given.new) }
{
    if some_bad_action(given, scope, actions)? {
        return Ok(true);
    }
    let mixed = mixes_up(alloc, scope, actions)?;
    Ok(mixed)
}

/// Whether a table that stands in this scope breaks T9 by itself, exactly: its keys, its default action, the parameters of the
/// actions that it lists, and their control-plane names. It is given names of actions each of whose parameters an entry can give,
/// and puts those of its own actions there. In time linear in the table and the parameters of the actions that aren't there yet,
/// but for the look-ups; the one error is want of memory.
pub fn is_bad_table<'a>(
    alloc: Global,
    given: &mut NameSet<'a>,
    scope: &Scope<'_, 'a>,
    table: &'a Table16,
) -> Result<bool, OutOfMemory>
    requires { AreGiven (seen_scope scope.now) given.old }
    ensures bad { IfOk result (λ bad. bad ≡ is_bad_table (seen_scope scope.now) table.now) }
    ensures given { OnOk result (AreGiven (seen_scope scope.now) given.new) }
{
    if has_bad_keys(table.keys()) {
        return Ok(true);
    }
    if has_bad_actions(alloc, given, scope, table.actions())? {
        return Ok(true);
    }
    Ok(has_outside_default(table))
}
