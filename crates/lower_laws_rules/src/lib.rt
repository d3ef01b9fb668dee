//! That what the lowering writes is spelt and breaks no rule of P4_16, form by form up to whole programs; and so for
//! the bodies of actions. Each law is the contract of a function that does nothing.
#![tactic(auto)]

ghost use Rattle.lower_laws_rules.specs.Laws.{ProgramsBreakNone, ProgramsSpelt};

/// A program whose declarations keep what is asked breaks no rule of P4_16.
pub fn programs_break_none()
    ensures { ProgramsBreakNone }
{}

/// A program whose parts are spelt is spelt.
pub fn programs_spelt()
    ensures { ProgramsSpelt }
{}
