//! Calculated fields, as they are verified and updated by what is written, and what passes ask of all controls; with a
//! pair of programs that meets all that is asked of controls. Each law is the contract of a function that does nothing.
#![tactic(auto)]

ghost use Rattle.lower_laws_sums.specs.Laws.{AllControlsDo};

/// The four controls that are written as asked verify, do ingress, do egress and update as P4_14 does.
pub fn all_controls_do()
    ensures { AllControlsDo }
{}
