//! That the names of a block are declared as what stands at their seats in a frame, and that what is evaluated in a block keeps
//! the rules on types and sizes. It has definitions and laws; each law is the contract of a function that does nothing.
#![tactic(auto)]

ghost use Rattle.v1_block_laws.specs.Laws.{ParserSeated, ControlSeated, ActionSeated, VariableSeated, StateStands, BodyStands, ActionStands, KindsStandApart, StateApart, BodyApart, ActionApart, DeclaredApart, BodyScope, ParserKept, ControlKept, CallKept, OwnerKept};

/// In a program that keeps the rules the names in the scope of its parser are declared as what stands at their seats.
pub fn names_of_the_parser_are_seated()
    ensures { ParserSeated }
{}

/// So are those in the scope of each of its controls.
pub fn names_of_controls_are_seated()
    ensures { ControlSeated }
{}

/// So are those in the scope of an action of such a control, with the parameters of the action.
pub fn names_of_actions_are_seated()
    ensures { ActionSeated }
{}

/// They stay so behind the declaration of a variable, which has the next number.
pub fn names_stay_seated_behind_a_variable()
    ensures { VariableSeated }
{}

/// The variables of the statements of a state are of the kinds that these declare.
pub fn variables_of_states_are_of_their_kinds()
    ensures { StateStands }
{}

/// So are those of the statements of a control.
pub fn variables_of_controls_are_of_their_kinds()
    ensures { BodyStands }
{}

/// So are those of the statements of an action, behind its parameters.
pub fn variables_of_actions_are_of_their_kinds()
    ensures { ActionStands }
{}

/// Variables one behind another are those in front, and those behind.
pub fn variables_stand_one_behind_another()
    ensures { KindsStandApart }
{}

/// The variables of the statements of a state have numbers apart from those of its parser.
pub fn variables_of_states_stand_apart()
    ensures { StateApart }
{}

/// Those of the statements of a control have numbers apart from its own.
pub fn variables_of_controls_stand_apart()
    ensures { BodyApart }
{}

/// Those of an action, with its parameters, have numbers apart from those of its control.
pub fn variables_of_actions_stand_apart()
    ensures { ActionApart }
{}

/// A variable that is declared has the next number, and stands apart from the others.
pub fn declared_variables_stand_apart()
    ensures { DeclaredApart }
{}

/// Variables that stand apart can be in scope together.
pub fn variables_apart_can_be_in_scope()
    ensures { BodyScope }
{}

/// In a program that keeps the rules all that its parser evaluates keeps the rules on types and sizes.
pub fn what_the_parser_evaluates_keeps_the_rules()
    ensures { ParserKept }
{}

/// So does all that its controls evaluate.
pub fn what_controls_evaluate_keeps_the_rules()
    ensures { ControlKept }
{}

/// The arguments of a call that keeps these rules keep them.
pub fn arguments_keep_the_rules()
    ensures { CallKept }
{}

/// So does what stands before a method that is called.
pub fn owners_of_methods_keep_the_rules()
    ensures { OwnerKept }
{}
