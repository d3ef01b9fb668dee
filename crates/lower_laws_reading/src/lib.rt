//! What the reading of a text gives to the last law of the lowering: a program has no more tokens than its text has
//! octets. The law is the contract of a function that does nothing.
#![tactic(auto)]

ghost use Rattle.lower_laws_reading.specs.Laws.{TextsAreBrief};

/// A program that a text reads as is written with no more tokens than the text has octets.
pub fn texts_are_brief()
    ensures { TextsAreBrief }
{}
