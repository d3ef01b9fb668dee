//! What the lowering of actions writes, and that it does what their primitives do, under both rules of P4_14; and that
//! an action in which no primitive reads what an earlier one changes does the same under both. Each law is the contract
//! of a function that does nothing.
#![tactic(auto)]

ghost use Rattle.lower_laws_actions.specs.Laws.{RulesAgree, ActionsAct};

/// An action in which no primitive reads what an earlier one changes does the same under both rules, with any arguments, in any state.
pub fn rules_agree()
    ensures { RulesAgree }
{}

/// An action that is written as asked does what the action of P4_14 does, under both rules, where a table runs it.
pub fn actions_act()
    ensures { ActionsAct }
{}
