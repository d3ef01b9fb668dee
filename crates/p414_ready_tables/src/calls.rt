// Which action an application of a table runs.
ghost use Rattle.std.specs.Prelude.{◌≡◌, [], option_map};
ghost use Rattle.std.specs.Option.{option_map_or};
ghost use Rattle.match_core.specs.declared.entries.DefaultCall.{DefaultCall as Default};
ghost use Rattle.match_core.specs.Best.{entry_at};
ghost use Rattle.p414_sem.specs.Controls.{chosen_action};
ghost use Rattle.p414_ready_tables.specs.internal.Applying.{arguments_of, call_by};

use match_core::{DefaultCall, Entry, TableFill};

/// The place of the action of an entry; 0 where there is no such entry.
fn entry_action(entries: &[Entry], entry: u32) -> u32
    ensures { result ≡ (entry_at entries.now entry).action }
{
    match entries.get(entry as usize) {
        Some(found) => found.action,
        None => 0,
    }
}

/// The arguments of an entry; none where there is no such entry.
fn entry_arguments(entries: &[Entry], entry: u32) -> &[u128]
    ensures { result.now ≡ (entry_at entries.now entry).arguments }
{
    match entries.get(entry as usize) {
        Some(found) => found.arguments.as_slice(),
        None => &[],
    }
}

/// The place of the action of a default, if there is one.
fn default_action(default: &Option<DefaultCall>) -> Option<u32>
    ensures { result ≡ option_map (λ (d : Default). d.action) default.now }
{
    match default {
        Some(call) => Some(call.action),
        None => None,
    }
}

/// The arguments of a default; none where there is none.
fn default_arguments(default: &Option<DefaultCall>) -> &[u128]
    ensures { result.now ≡ option_map_or (λ (d : Default). d.arguments) default.now [] }
{
    match default {
        Some(call) => call.arguments.as_slice(),
        None => &[],
    }
}

/// The action that is called, by its place among those of the table: on a hit the entry's, on a miss that of the default of the
/// entries, else that of the program's default, if there is one.
pub fn called_action(
    fill: &TableFill,
    default: &Option<DefaultCall>,
    entry: Option<u32>,
) -> Option<u32>
    ensures { result ≡ option_map chosen_action (call_by fill.now default.now entry) }
{
    match entry {
        Some(entry) => Some(entry_action(fill.entries.as_slice(), entry)),
        None => match default_action(&fill.default) {
            Some(action) => Some(action),
            None => default_action(default),
        },
    }
}

/// The arguments that it is called with.
pub fn called_arguments<'e>(
    fill: &'e TableFill,
    default: &'e Option<DefaultCall>,
    entry: Option<u32>,
) -> &'e [u128]
    ensures { result.now ≡ arguments_of (call_by fill.now default.now entry) }
{
    match entry {
        Some(entry) => entry_arguments(fill.entries.as_slice(), entry),
        None => match &fill.default {
            Some(call) => call.arguments.as_slice(),
            None => default_arguments(default),
        },
    }
}
