//! When a packet's state under P4_14 agrees with its frame under P4_16, as definitions in `specs/`, and laws that what both
//! meanings do to them corresponds. Each law is the contract of a function that does nothing.
#![tactic(auto)]

ghost use Rattle.agreement_of_meanings.specs.Laws.{FieldsReadAlike, FieldsAreWrittenAlike, HeadersAreExtractedAlike, ElementsAreExtractedAlike, NextIsExtractedAlike, SelectsLeadAlike, TablesApplyAlike};

/// A field reads as the same number, one of an invalid header as 0.
pub fn fields_read_alike()
    ensures { FieldsReadAlike }
{}

/// A number of any width that is written to a field leaves a state and a frame that agree.
pub fn fields_are_written_alike()
    ensures { FieldsAreWrittenAlike }
{}

/// A header that is extracted leaves what agrees, or both parsers stop since the packet is too short.
pub fn headers_are_extracted_alike()
    ensures { HeadersAreExtractedAlike }
{}

/// So does an element of a stack by its number.
pub fn elements_are_extracted_alike()
    ensures { ElementsAreExtractedAlike }
{}

/// The next element of a stack does too, and moves the stack's place; where the stack is full, both parsers stop for that.
pub fn the_next_is_extracted_alike()
    ensures { NextIsExtractedAlike }
{}

/// A select on one key leads to the same state, or both parsers stop with the same error.
pub fn selects_lead_alike()
    ensures { SelectsLeadAlike }
{}

/// A table with one action that does the same hits the same entry, notes the same event, and leaves what agrees.
pub fn tables_apply_alike()
    ensures { TablesApplyAlike }
{}
