// That rows lead where the cases of a program do (P4_16 1.2, "Select expressions").
ghost use Rattle.v1_ready_selects.specs.Matching.{NumbersTellStates, RowsLeadAlike};

/// The rows that are ready for the cases of a select lead where the first case leads that matches, for keys of any kinds, and to
/// `NoMatch` where none does. It does nothing.
#[tactic(auto, using(crate::proofs::Matching::rows_lead))]
pub fn rows_lead_alike()
    ensures { RowsLeadAlike }
{}

/// The number of a state's name is the number of that state, and of no state where none has the name. It does nothing.
#[tactic(auto, using(crate::proofs::Matching::states_told))]
pub fn numbers_tell_states()
    ensures { NumbersTellStates }
{}
