//! That what is written of controls, calculated fields, parsers and the deparser is spelt and breaks no rule of P4_16. The
//! law is the contract of a function that does nothing.
#![tactic(auto)]

ghost use Rattle.lower_laws_block_rules.specs.Laws.{BlocksKeep};

/// Ingress, egress, the deparser and the parser break no rule, where they are as they are asked to be.
pub fn blocks_keep()
    ensures { BlocksKeep }
{}
