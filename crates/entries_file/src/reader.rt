// An entries file, line by line.
ghost use Rattle.std.specs.Prelude.{◌≡◌, IfOk};
ghost use Rattle.std.specs.Str.Lines.{lines};
ghost use Rattle.match_core.specs.Signatures.{IsSignature};
ghost use Rattle.match_core.specs.Fits.{Fits};
ghost use Rattle.match_core.specs.Tables.{AllCanBuild};
ghost use Rattle.entries_file.specs.Reading as reading;
ghost use Rattle.entries_file.specs.Reading.{EntriesText};
ghost use Rattle.entries_file.specs.internal.Drafts.{drafted, fault_of, IsDraft, IsNames, IsRead};

use crate::calls::{Names, names_of};
use crate::draft::Draft;
use crate::fault::{EntryFault, Stop};
use crate::judge::judge_line;
use match_core::{Entries, Signature};
use p4x_fault::Rule;
use std::alloc::Global;
use text_lines::{at_line, next_line};

/// The fault of a line that isn't taken.
fn fault_of(line: u64, stop: Stop) -> EntryFault
    ensures { result ≡ fault_of line stop }
{
    match stop {
        Stop::Memory => EntryFault::Memory,
        Stop::Broken(rule) => EntryFault::Refused(at_line(Rule::E(rule), line)),
    }
}

/// Judges the lines of a text.
fn read_lines(
    alloc: Global,
    signature: &Signature,
    names: &Names<'_>,
    draft: &mut Draft,
    text: &[u8],
) -> Result<(), EntryFault>
    requires names { IsNames signature.now names.now }
    requires draft { IsDraft signature.now draft.old }
    ensures { IsRead signature.now (reading.read_lines signature.now (drafted draft.old) 1 (lines text.now)) draft.new result }
{
    let mut rest = text;
    let mut line = 1u64;
    while let Some((one, more)) = next_line(rest) {
        if let Err(stop) = judge_line(alloc, signature, names, draft, one) {
            return Err(fault_of(line, stop));
        }
        rest = more;
        line += 1;
    }
    Ok(())
}

/// What an entries file says for the tables and objects of a signature.
///
/// Lines end with LF or CR LF, and the last one with the text. Words are separated by spaces and tabs. A
/// line without words, or whose first word begins with `#`, says nothing. Each other line is one of
///
/// ```text
/// table_add TABLE ACTION KEY* => ARGUMENT* [PRIORITY]
/// table_set_default TABLE ACTION ARGUMENT*
/// mirroring_add SESSION PORT
/// meter_colours METER COLOUR*
/// ```
///
/// and is judged by the lines before it. The first line that breaks a rule is refused, with the least rule
/// that it breaks and its place, which is column 1:
///
/// - E1: it is none of the four forms.
/// - E2: there is no such table. E3: the table lists no such action.
/// - E4: the number of keys is wrong, or the table of a `table_add` has no keys.
/// - E5: a key isn't of a form of its kind, or a low end is over its high end.
/// - E6: a key or an argument doesn't fit its width, or a prefix is longer than its key.
/// - E7: the number of arguments is wrong, or one is no number.
/// - E8: an entry with the same keys and the same priority stands in the table.
/// - E9: a priority is missing, or isn't a number from 0 to 2^31 - 1.
/// - E10: a session isn't a number from 0 to 32,767 or was given before, or its port isn't one from 0 to 510.
/// - E11: there is no such meter, or a colour isn't 0, 1 or 2.
/// - E12: the table would have more entries than its size.
///
/// The only other error is want of memory. The entries that are given fit the signature, so
/// where it is well formed, each of its tables can be built of them. The text is gone
/// over once, in time linear in its length but for a logarithm, and but for ranges between a decimal number
/// over 128 bits and one of another base: see `whole_numbers`.
///
/// The format is this project's own; P4_14 1.0.5 and P4_16 1.2 leave the control plane open.
pub fn read_entries(
    alloc: Global,
    text: &[u8],
    signature: &Signature,
) -> Result<Entries, EntryFault>
    ensures is { EntriesText text.now signature.now result }
    ensures fits { IfOk result (λ entries. Fits entries signature.now) }
    ensures builds { IsSignature signature.now → IfOk result (AllCanBuild signature.now) }
{
    let Ok(names) = names_of(alloc, signature) else {
        return Err(EntryFault::Memory);
    };
    let Ok(mut draft) = Draft::new(alloc, signature) else {
        return Err(EntryFault::Memory);
    };
    read_lines(alloc, signature, &names, &mut draft, text)?;
    Ok(draft.into_entries())
}
