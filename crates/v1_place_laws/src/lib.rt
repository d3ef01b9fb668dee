//! Where the l-values of a P4_16 program stand in its frames. It has definitions and laws; each law is the contract of a function
//! that does nothing.
#![tactic(auto)]

ghost use Rattle.v1_place_laws.specs.Laws.{PlacesFound, SlotsWritten, PlacesRead, HeadersMarked};

/// Where a ready l-value is what an expression means, finding that l-value in a frame of the program gives the same part of it
/// and the same slice, or the same error.
pub fn ready_places_are_found()
    ensures { PlacesFound }
{}

/// Writing a single value to an l-value is writing its number to the slot, cut to its width, or spliced into it.
pub fn slots_are_written_as_values_are()
    ensures { SlotsWritten }
{}

/// What is read of an l-value is what stands at its seat, or the slice of that.
pub fn places_are_read_as_values_are()
    ensures { PlacesRead }
{}

/// A header that is made valid or invalid is marked so, with fields that are 0 where that changes it.
pub fn headers_are_marked_as_values_are()
    ensures { HeadersMarked }
{}
