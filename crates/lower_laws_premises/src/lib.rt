//! What the laws on actions ask, of programs that are read and break no rule. Each law is the contract of a function
//! that does nothing.
#![tactic(auto)]

ghost use Rattle.lower_laws_premises.specs.Laws.{ActionsFit, ActionsAct};

/// Each primitive of an action fits a lowering that shows the program, and no rule of P4_16 is broken by it.
pub fn actions_fit()
    ensures { ActionsFit }
{}

/// An action does what it does in P4_14, under both rules.
pub fn actions_act()
    ensures { ActionsAct }
{}
