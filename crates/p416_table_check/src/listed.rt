// The actions that tables list (P4_16 1.2, "Tables").
ghost use Rattle.std.specs.Prelude.{◌≡◌, false, not, option_copied};
ghost use Rattle.std.specs.Option.{option_map_or};
ghost use Rattle.p416_syntax.specs.Properties.{actions_of, default_action_of};
ghost use Rattle.p416_syntax.specs.Tables.{is_same_action, is_outside_actions};

use p416_syntax::{ActionName, Table16};

/// Whether two names mean one action.
fn is_same_action(first: &ActionName, second: &ActionName) -> bool
    ensures { result ≡ is_same_action first.now second.now }
{
    match first {
        ActionName::Declared(name) => match second {
            ActionName::Declared(other) => name.as_slice() == other.as_slice(),
            ActionName::NoAction => false,
        },
        ActionName::NoAction => match second {
            ActionName::Declared(_) => false,
            ActionName::NoAction => true,
        },
    }
}

/// Whether an action isn't among those that a table lists. In time linear in these.
pub fn is_outside_actions(actions: &[ActionName], action: &ActionName) -> bool
    ensures { result ≡ is_outside_actions actions.now action.now }
{
    for listed in actions {
        if is_same_action(action, listed) {
            return false;
        }
    }
    true
}

/// Whether the default action of a table is none that the table lists: what T9 asks of default actions, exactly. In time
/// linear in the table.
pub fn has_outside_default(table: &Table16) -> bool
    ensures { result ≡ option_map_or (is_outside_actions (actions_of table.now.properties)) (default_action_of table.now.properties) false }
{
    match table.default_action() {
        Some(action) => is_outside_actions(table.actions(), action),
        None => false,
    }
}
