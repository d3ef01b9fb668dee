//! What holds of each P4_14 program that breaks no rule. Each law is the contract of a function that does nothing.
#![tactic(auto)]

ghost use Rattle.p414_laws.specs.Laws.{ComesToOneThing, ComesToSomething};

/// A program that breaks no rule comes to something when its actions, field lists and controls are expanded.
pub fn programs_expand()
    ensures { ComesToSomething }
{}

/// It comes to one thing alone, as declarations do that come to anything.
pub fn programs_expand_in_one_way()
    ensures { ComesToOneThing }
{}
