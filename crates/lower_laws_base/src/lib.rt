//! What stands around the statements that the lowering writes: what they see, how a state of P4_16 stands beside one of
//! P4_14, what is written for parts, fields and sources, and the laws that all statements share; then what is asked of
//! the six blocks of a program. Each law is the contract of a function that does nothing.
#![tactic(auto)]

ghost use Rattle.lower_laws_base.specs.Laws.{SourcesGive};

/// A source at a width gives its whole number modulo 2 ^ width, read as the state stands or at the copies of the entry's.
pub fn sources_give()
    ensures { SourcesGive }
{}
