//! The definitions of what a P4_16 program does, computed on small programs and packets. Each example is a theorem in
//! `proofs/`: the definitions come to the octets and the work that stand there.
#![tactic(auto)]
