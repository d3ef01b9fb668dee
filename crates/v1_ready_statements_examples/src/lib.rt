//! Statements of small P4_16 programs, made ready: each example is a theorem in `proofs/`, that the ready block leaves the frame,
//! the store and the count of work that the program's block leaves by its meaning.
#![tactic(auto)]
