//! That what single deeds of ready statements do to a packed frame is what the statements of a P4_16 program do to its frame:
//! writes, headers, extraction and emission, and the externs. It has definitions and laws; each law is the contract of a function
//! that does nothing.
#![tactic(auto)]

ghost use Rattle.v1_deed_laws.specs.Externs.{CloneShows, CountEntryShows, CountShows, DropShows, HashShows, MeterShows, ReadShows, RequestShows, UpdateShows, VerifyShows, WriteShows};
ghost use Rattle.v1_deed_laws.specs.Laws.{EmitShows, ExtractNextShows, ExtractShows, HeadersMade, NumbersPut, PartsPut, SlotsPut};

/// A single value that is written to an l-value is put into its slot, cut to the slot or spliced into it.
pub fn values_are_put()
    ensures { SlotsPut }
{}

/// A number that an extern gives is put into the slot of its target.
pub fn numbers_are_put()
    ensures { NumbersPut }
{}

/// A header, a stack or a struct that is written to an l-value is copied to its parts, also where these are its own.
pub fn parts_are_copied()
    ensures { PartsPut }
{}

/// A header that becomes valid or invalid is marked so.
pub fn headers_are_made()
    ensures { HeadersMade }
{}

/// An extraction fills the slots of the header, or raises the same error.
pub fn headers_are_extracted()
    ensures { ExtractShows }
{}

/// An extraction of `next` moves the place of its stack too.
pub fn next_elements_are_extracted()
    ensures { ExtractNextShows }
{}

/// A header or a stack is emitted with the same bits.
pub fn headers_are_emitted()
    ensures { EmitShows }
{}

/// A counter counts.
pub fn counters_count()
    ensures { CountShows }
{}

/// A direct counter counts the entry that was hit.
pub fn direct_counters_count()
    ensures { CountEntryShows }
{}

/// A register is read to a target.
pub fn registers_are_read()
    ensures { ReadShows }
{}

/// A register is written.
pub fn registers_are_written()
    ensures { WriteShows }
{}

/// A meter gives a colour to a target.
pub fn meters_are_executed()
    ensures { MeterShows }
{}

/// A hash goes to a target.
pub fn hashes_are_computed()
    ensures { HashShows }
{}

/// A wrong checksum is told to `checksum_error`.
pub fn checksums_are_verified()
    ensures { VerifyShows }
{}

/// A checksum is updated.
pub fn checksums_are_updated()
    ensures { UpdateShows }
{}

/// A packet is marked to be dropped.
pub fn packets_are_dropped()
    ensures { DropShows }
{}

/// A resubmission or a recirculation is requested.
pub fn passes_are_requested()
    ensures { RequestShows }
{}

/// A clone is requested.
pub fn clones_are_requested()
    ensures { CloneShows }
{}
