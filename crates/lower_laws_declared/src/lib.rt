//! What the written declarations give to the laws of the blocks: types, names, scopes and signatures, from the rules of
//! P4_14. Each law is the contract of a function that does nothing.
#![tactic(auto)]

ghost use Rattle.lower_laws_declared.specs.Laws.{TypesStand, ParsersFit};

/// The types that are written for a program that breaks no rule say of each instance and field what the program does.
pub fn types_stand()
    ensures { TypesStand }
{}

/// The parser that is written for a program that breaks no rule begins as it is asked to.
pub fn parsers_fit()
    ensures { ParsersFit }
{}
