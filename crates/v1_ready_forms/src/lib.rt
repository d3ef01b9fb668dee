//! No code: which ready expression an expression of a P4_16 program is, where each name that is in scope has its seat in the
//! frames of the program.
#![tactic(auto)]
