//! The whole program that is written, and the last law of the lowering: it carries the program of P4_14, breaks no rule of P4_16, and
//! is spelt. The law is the contract of a function that does nothing.
#![tactic(auto)]

ghost use Rattle.lower_laws_translated.specs.Laws.{TranslationsHold};

/// What is written for a program that was read, with at most 2^32 tokens, and breaks no rule carries it under both rules, breaks no rule of P4_16, is spelt, nests
/// nowhere deeper than 400, and names no member `mcast_grp` of standard metadata.
pub fn translations_hold()
    ensures { TranslationsHold }
{}
