//! The definitions of what a P4_14 program does, computed on small programs and packets. Each example is a theorem in
//! `proofs/`: the definitions come to the octets that stand there.
#![tactic(auto)]
