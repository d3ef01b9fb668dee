// A line is judged by those before it.
ghost use Rattle.std.specs.Prelude.{◌≡◌, ◌<◌, ◌∷◌, ◌++◌, [], length, map, position, unwrap_or, Some, IfSome, IfOk, IfErr};
ghost use Rattle.std.specs.Option.{option_map};
ghost use Rattle.match_core.specs.Fits.{action_at};
ghost use Rattle.entries_file.specs.Forms as forms;
ghost use Rattle.entries_file.specs.Filling as filling;
ghost use Rattle.entries_file.specs.Rules as rules;
ghost use Rattle.entries_file.specs.Reading as reading;
ghost use Rattle.entries_file.specs.internal.Staged.{Stage, form_tests};
ghost use Rattle.entries_file.specs.internal.Drafts.{drafted, IsDraft, IsJudged, IsNames};

use crate::arguments::{priority_of, priority_words, read_arguments, read_colours};
use crate::calls::{Call, Names};
use crate::draft::Draft;
use crate::fault::Stop;
use crate::key_forms::read_keys;
use crate::numerals::number_up_to;
use match_core::{DefaultCall, Entry, Signature, TableSig};
use state_store::{GREATEST_PORT, GREATEST_SESSION, Session};
use std::alloc::Global;
use text_lines::{is_comment, words};

/// What a line of each form begins with.
const TABLE_ADD: &[u8] = b"table_add";

const TABLE_SET_DEFAULT: &[u8] = b"table_set_default";

const MIRRORING_ADD: &[u8] = b"mirroring_add";

const METER_COLOURS: &[u8] = b"meter_colours";

/// What stands between the keys of an entry and its arguments.
const ARROW: &[u8] = b"=>";

/// The place of the first `=>`.
fn arrow(words: &[&[u8]]) -> Option<usize>
    ensures is { result ≡ position forms.is_arrow (map (λ word. word.now) words.now) }
    ensures within { IfSome result (λ at. at < length words.now) }
{
    for i in 0..words.len() {
        if words[i] == ARROW {
            return Some(i);
        }
    }
    None
}

/// The number of an action as entries keep it.
fn action_number(action: usize) -> Result<u32, Stop>
    ensures same { IfOk result (λ number. number ≡ action) }
    ensures memory { IfErr result (λ stop. stop ≡ Stop.Memory) }
{
    match u32::try_from(action) {
        Ok(number) => Ok(number),
        Err(_) => Err(Stop::Memory),
    }
}

/// The entry of a table with these keys and these words behind them, or the rule that it breaks.
fn entry_of(
    alloc: Global,
    table: &TableSig,
    action: usize,
    keys: &[&[u8]],
    behind: &[&[u8]],
) -> Result<Entry, Stop>
    requires { action < length table.now.actions }
    ensures { let specs = table.now.keys in
        let widths = (action_at table.now action).widths in
        let keys = map (λ word. word.now) keys.now in
        let words = map (λ word. word.now) behind.now in
        Stage (form_tests specs widths keys words) (λ entry. entry ≡ rules.entry_of specs widths action keys words) result }
{
    let specs = table.keys.as_slice();
    let widths = table.actions.as_slice()[action].widths.as_slice();
    if specs.is_empty() || keys.len() != specs.len() {
        return Err(Stop::Broken(4));
    }
    let keys = read_keys(alloc, specs, keys)?;
    let arguments = read_arguments(alloc, widths, priority_words(specs), behind)?;
    let Some(priority) = priority_of(specs, widths.len(), behind) else {
        return Err(Stop::Broken(9));
    };
    let action = action_number(action)?;
    Ok(Entry {
        keys,
        priority,
        action,
        arguments,
    })
}

/// Judges a line, and adds what it says.
pub fn judge_line(
    alloc: Global,
    signature: &Signature,
    names: &Names<'_>,
    draft: &mut Draft,
    line: &[u8],
) -> Result<(), Stop>
    requires names { IsNames signature.now names.now }
    requires draft { IsDraft signature.now draft.old }
    ensures { IsJudged signature.now (reading.judge_line signature.now (drafted draft.old) line.now) draft.new result }
{
    let words = words(alloc, line)?;
    judge_words(alloc, signature, names, draft, &words)
}

fn judge_words(
    alloc: Global,
    signature: &Signature,
    names: &Names<'_>,
    draft: &mut Draft,
    words: &[&[u8]],
) -> Result<(), Stop>
    requires names { IsNames signature.now names.now }
    requires draft { IsDraft signature.now draft.old }
    ensures { IsJudged signature.now (reading.judge_words signature.now (drafted draft.old) (map (λ word. word.now) words.now)) draft.new result }
{
    match words {
        [] => Ok(()),
        [first, rest @ ..] => {
            if is_comment(first) {
                return Ok(());
            }
            judge_form(alloc, signature, names, draft, first, rest)
        }
    }
}

/// Judges a line by its first word and the words behind it.
fn judge_form(
    alloc: Global,
    signature: &Signature,
    names: &Names<'_>,
    draft: &mut Draft,
    first: &[u8],
    words: &[&[u8]],
) -> Result<(), Stop>
    requires names { IsNames signature.now names.now }
    requires draft { IsDraft signature.now draft.old }
    ensures { IsJudged signature.now (reading.judge_form signature.now (drafted draft.old) (forms.form_of first.now (map (λ word. word.now) words.now))) draft.new result }
{
    if first == TABLE_ADD {
        entry_line(alloc, signature, names, draft, words)
    } else if first == TABLE_SET_DEFAULT {
        default_line(alloc, signature, names, draft, words)
    } else if first == MIRRORING_ADD {
        session_line(signature, draft, words)
    } else if first == METER_COLOURS {
        colours_line(alloc, signature, names, draft, words)
    } else {
        Err(Stop::Broken(1))
    }
}

fn entry_line(
    alloc: Global,
    signature: &Signature,
    names: &Names<'_>,
    draft: &mut Draft,
    words: &[&[u8]],
) -> Result<(), Stop>
    requires names { IsNames signature.now names.now }
    requires draft { IsDraft signature.now draft.old }
    ensures { IsJudged signature.now (reading.judge_form signature.now (drafted draft.old) (forms.entry_form (map (λ word. word.now) words.now))) draft.new result }
{
    let [table, action, rest @ ..] = words else {
        return Err(Stop::Broken(1));
    };
    let Some(at) = arrow(rest) else {
        return Err(Stop::Broken(1));
    };
    match names.call(signature, table, action) {
        Err(rule) => Err(Stop::Broken(rule)),
        Ok(call) => {
            let (keys, behind) = rest.split_at(at);
            judge_entry(alloc, signature, draft, call, keys, behind.split_at(1).1)
        }
    }
}

fn judge_entry(
    alloc: Global,
    signature: &Signature,
    draft: &mut Draft,
    call: Call,
    keys: &[&[u8]],
    behind: &[&[u8]],
) -> Result<(), Stop>
    requires table { call.table < length signature.now.tables }
    requires action { call.action < length (filling.table_at signature.now call.table).actions }
    requires draft { IsDraft signature.now draft.old }
    ensures { IsJudged signature.now (reading.judge_entry signature.now (drafted draft.old) (map (λ word. word.now) keys.now) (map (λ word. word.now) behind.now) call) draft.new result }
{
    let table = &signature.tables.as_slice()[call.table];
    let entry = entry_of(alloc, table, call.action, keys, behind)?;
    draft.add_entry(alloc, signature, call.table, entry)
}

fn default_line(
    alloc: Global,
    signature: &Signature,
    names: &Names<'_>,
    draft: &mut Draft,
    words: &[&[u8]],
) -> Result<(), Stop>
    requires names { IsNames signature.now names.now }
    requires draft { IsDraft signature.now draft.old }
    ensures { IsJudged signature.now (reading.judge_form signature.now (drafted draft.old) (forms.default_form (map (λ word. word.now) words.now))) draft.new result }
{
    let [table, action, words @ ..] = words else {
        return Err(Stop::Broken(1));
    };
    match names.call(signature, table, action) {
        Err(rule) => Err(Stop::Broken(rule)),
        Ok(call) => judge_default(alloc, signature, draft, call, words),
    }
}

fn judge_default(
    alloc: Global,
    signature: &Signature,
    draft: &mut Draft,
    call: Call,
    words: &[&[u8]],
) -> Result<(), Stop>
    requires table { call.table < length signature.now.tables }
    requires action { call.action < length (filling.table_at signature.now call.table).actions }
    requires draft { IsDraft signature.now draft.old }
    ensures { IsJudged signature.now (reading.judge_default signature.now (drafted draft.old) (map (λ word. word.now) words.now) call) draft.new result }
{
    let table = &signature.tables.as_slice()[call.table];
    let widths = table.actions.as_slice()[call.action].widths.as_slice();
    let arguments = read_arguments(alloc, widths, 0, words)?;
    let action = action_number(call.action)?;
    draft.set_default(call.table, DefaultCall { action, arguments });
    Ok(())
}

fn session_line(signature: &Signature, draft: &mut Draft, words: &[&[u8]]) -> Result<(), Stop>
    requires draft { IsDraft signature.now draft.old }
    ensures { IsJudged signature.now (reading.judge_form signature.now (drafted draft.old) (forms.session_form (map (λ word. word.now) words.now))) draft.new result }
{
    match words {
        [session, port] => judge_session(signature, draft, session, port),
        _ => Err(Stop::Broken(1)),
    }
}

fn judge_session(
    signature: &Signature,
    draft: &mut Draft,
    session: &[u8],
    port: &[u8],
) -> Result<(), Stop>
    requires draft { IsDraft signature.now draft.old }
    ensures { IsJudged signature.now (reading.judge_session (drafted draft.old) session.now port.now) draft.new result }
{
    let Some(number) = number_up_to(u128::from(GREATEST_SESSION), session) else {
        return Err(Stop::Broken(10));
    };
    let Some(port) = number_up_to(u128::from(GREATEST_PORT), port) else {
        return Err(Stop::Broken(10));
    };
    let number = number as u32;
    let port = port as u16;
    draft.add_session(signature, Session { number, port })
}

fn colours_line(
    alloc: Global,
    signature: &Signature,
    names: &Names<'_>,
    draft: &mut Draft,
    words: &[&[u8]],
) -> Result<(), Stop>
    requires names { IsNames signature.now names.now }
    requires draft { IsDraft signature.now draft.old }
    ensures { IsJudged signature.now (reading.judge_form signature.now (drafted draft.old) (forms.colours_form (map (λ word. word.now) words.now))) draft.new result }
{
    match words {
        [] => Err(Stop::Broken(1)),
        [meter, colours @ ..] => judge_colours(alloc, signature, names, draft, meter, colours),
    }
}

fn judge_colours(
    alloc: Global,
    signature: &Signature,
    names: &Names<'_>,
    draft: &mut Draft,
    meter: &[u8],
    colours: &[&[u8]],
) -> Result<(), Stop>
    requires names { IsNames signature.now names.now }
    requires draft { IsDraft signature.now draft.old }
    ensures { IsJudged signature.now (reading.judge_colours signature.now (drafted draft.old) meter.now (map (λ word. word.now) colours.now)) draft.new result }
{
    let Some(meter) = names.meter(signature, meter) else {
        return Err(Stop::Broken(11));
    };
    let colours = read_colours(alloc, colours)?;
    draft.add_colours(signature, meter, colours.as_slice())?;
    Ok(())
}
