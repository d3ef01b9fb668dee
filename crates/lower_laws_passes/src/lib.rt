//! The passes of a packet, ingress, second parsing and egress, and what is preserved between them, from what is asked
//! of the blocks and of the types. Each law is the contract of a function that does nothing.
#![tactic(auto)]

ghost use Rattle.lower_laws_passes.specs.Laws.{PassesAlike};

/// Where blocks and types are as asked, each pass of a packet comes to the same in both programs.
pub fn passes_are_alike()
    ensures { PassesAlike }
{}
