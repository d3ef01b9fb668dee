//! Conditions, statements, tables, guards and whole controls, as they are written, and that they do what those of P4_14
//! do. Each law is the contract of a function that does nothing.
#![tactic(auto)]

ghost use Rattle.lower_laws_controls.specs.Laws.{ControlsDo, FailuresDrop};

/// A control that is written as asked does what the control of P4_14 does where nothing failed, and leaves the errors as they were.
pub fn controls_do()
    ensures { ControlsDo }
{}

/// Where the parser or a checksum failed it drops the packet, and does nothing else.
pub fn failures_drop()
    ensures { FailuresDrop }
{}
