// The entries file.
ghost use Rattle.std.specs.Prelude.{◌≡◌, [], ℕ, List, Option, Some, Ok, Err, IfOk, IfErr, MatchResult};
ghost use Rattle.p4x_io.specs.Desk.{Rose, Moves};
ghost use Rattle.match_core.specs.Fits.{Fits};
ghost use Rattle.file_work.specs.Works.{Blames};
ghost use Rattle.file_work.specs.Phases.{Loosely};
ghost use Rattle.command_inputs.specs.EntriesFile.{entries_in, IsEntriesStop};

use entries_file::EntryFault;
use file_work::{Limited, Stop};
use match_core::{Entries, Signature};
use p4x_io::{Desk, ReadFault, read_file};
use std::alloc::Global;

/// The most octets of an entries file.
const ENTRIES_LIMIT: usize = 16777216;

/// What a file says for the tables, the sessions and the meters of a program with this signature. It fits the signature.
///
/// # Errors
/// The file's limit, the least of the rules E1 to E12 that the first broken line breaks, with that line, a fault of the file, or want of
/// memory.
pub fn read_entries<D: Desk>(
    alloc: Global,
    desk: &mut D,
    name: &str,
    signature: &Signature,
) -> Result<Entries, Stop>
    ensures moves { Moves [] (D.view desk.old) (D.view desk.new) }
    ensures gives { (file : Option (List ℕ)) → (D.view desk.old).told name.now ≡ Some file
        → MatchResult result (λ entries. entries_in signature.now file ≡ Ok entries) (λ e. Loosely e (entries_in signature.now file ≡ Err e)) }
    ensures fits { IfOk result (λ entries. Fits entries signature.now) }
    ensures only { IfErr result (λ e. IsEntriesStop e) }
    ensures cause { Blames result (Rose ((D.view desk.old).reads name.now) ((D.view desk.new).reads name.now)) }
{
    let text = match read_file(alloc, desk, name, ENTRIES_LIMIT) {
        Ok(text) => text,
        Err(ReadFault::Limit) => return Err(Stop::Limit(Limited::Entries)),
        Err(ReadFault::Failed) => return Err(Stop::Fault),
        Err(ReadFault::Memory) => return Err(Stop::Memory),
    };
    match entries_file::read_entries(alloc, &text, signature) {
        Ok(entries) => Ok(entries),
        Err(EntryFault::Refused(fault)) => Err(Stop::Unfit(fault)),
        Err(EntryFault::Memory) => Err(Stop::Memory),
    }
}
