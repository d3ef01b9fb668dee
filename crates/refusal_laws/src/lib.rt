//! That a wrong program is refused: for the first sample program, written programs that `Carries` doesn't hold of. Each law is the contract of a
//! function that does nothing.
#![tactic(auto)]

ghost use Rattle.std.specs.Prelude.{◌≡◌, Some};
ghost use Rattle.p414_one_table.specs.Form.{one_table_of};
ghost use Rattle.p4x_cmd.specs.Carries.{Carries};
ghost use Rattle.one_table_text.specs.Programs.{program16};
ghost use Rattle.p4x_cmd.specs.internal.Lowering.{lowered};
ghost use Rattle.refusal_laws.specs.Wrong.{sample, sample_syntax, dropping, next_port, emitting_nothing, not_asking};

/// The syntax of the sample is of the one-table form, with these names and numbers.
#[tactic(auto, using(crate::proofs::Refused::sample_form))]
pub fn the_sample_is_of_the_form()
    ensures { one_table_of sample_syntax ≡ Some sample }
{}

/// The program that the sample becomes carries it.
#[tactic(auto, using(crate::proofs::Refused::sample_is))]
pub fn the_sample_is_carried()
    ensures { Carries sample (program16 (lowered sample)) }
{}

/// One whose action drops doesn't.
pub fn dropping_is_refused()
    ensures { Carries sample dropping → ⊥ }
{}

/// One that sends to the next port doesn't.
pub fn the_next_port_is_refused()
    ensures { Carries sample next_port → ⊥ }
{}

/// One whose deparser emits nothing doesn't.
pub fn emitting_nothing_is_refused()
    ensures { Carries sample emitting_nothing → ⊥ }
{}

/// One that doesn't ask for `parser_error`, and so sends what is too short, doesn't.
pub fn not_asking_for_errors_is_refused()
    ensures { Carries sample not_asking → ⊥ }
{}
