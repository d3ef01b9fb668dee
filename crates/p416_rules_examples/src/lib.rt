//! Programs that break a rule of P4_16, and one that breaks none: the definitions of the rules computed on them
//! (`proofs/`). It has no functions.
#![tactic(auto)]
