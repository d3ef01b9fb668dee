//! That calls of the functions of `v1model.p4`, of counters, registers and meters, and of actions do over packed numbers what they
//! do over values. It has definitions and laws; each law is the contract of a function that does nothing.
#![tactic(auto)]

ghost use Rattle.v1_call_laws.specs.Controls.{ControlCallsShow, StandardStands};
ghost use Rattle.v1_call_laws.specs.Declared.{ActionsDeclared, DistinctParameters, ScopesWithin};
ghost use Rattle.v1_call_laws.specs.Laws.{ActionsCalled, ActionsCalledApart, CallsFit, FunctionsCalled, ObjectsCalled, QuietTestsTell};
ghost use Rattle.v1_call_laws.specs.Ruled.{CallsTellNone, RulesTellNone};
ghost use Rattle.v1_call_laws.specs.Standing.{ActionsStand, CallsToldNone, ControlStands, StatementsStand};
ghost use Rattle.v1_call_laws.specs.Whole.{CallsShow, ScopesPlain, ScopesStayPlain};

/// In a block without tables, where no stack tells which element is meant, no error comes: a ready test gives the value of its
/// expression, of its class, with the width of its place and below 2 to its width.
pub fn tests_tell_values()
    ensures { QuietTestsTell }
{}

/// A call of a function of `v1model.p4` does the same.
pub fn functions_are_called()
    ensures { FunctionsCalled }
{}

/// A call of a method of a counter, a register or a meter does the same.
pub fn objects_are_called()
    ensures { ObjectsCalled }
{}

/// A call of an action in whose arguments no table is applied does the same.
pub fn actions_are_called()
    ensures { ActionsCalled }
{}

/// So does a call of any action: where an argument applies a table, all wait in a frame apart.
pub fn actions_are_called_apart()
    ensures { ActionsCalledApart }
{}

/// The rules on types, sizes, literals and counts of arguments say of calls what these laws ask.
pub fn calls_fit_rules()
    ensures { CallsFit }
{}

/// So every call as a statement does the same, where pushing and popping, packets and the application of tables do.
pub fn calls_do_the_same()
    ensures { CallsShow }
{}

/// In every scope of a program names and fields are of such kinds as types name.
pub fn scopes_are_plain()
    ensures { ScopesPlain }
{}

/// They are so behind statements too.
pub fn scopes_stay_plain()
    ensures { ScopesStayPlain }
{}

/// Within a control a name that is called stands for the first action with this name, which takes what it declares.
pub fn actions_are_declared()
    ensures { ActionsDeclared }
{}

/// The parameters of an action of a program differ.
pub fn parameters_are_distinct()
    ensures { DistinctParameters }
{}

/// Within actions and behind statements only variables and parameters stand in front of the names of the block.
pub fn scopes_are_within()
    ensures { ScopesWithin }
{}

/// In a program the type of standard metadata is that of `v1model.p4`.
pub fn standard_metadata_is_own()
    ensures { StandardStands }
{}

/// So every call in a control of a program does the same, where its actions do.
pub fn calls_in_controls_do_the_same()
    ensures { ControlCallsShow }
{}

/// Outside parsers the rules let no stack tell anything in an expression.
pub fn rules_let_nothing_be_told()
    ensures { RulesTellNone }
{}

/// Nor in a call as a statement.
pub fn rules_let_calls_be_told_nothing()
    ensures { CallsTellNone }
{}

/// The scope of a control outside the parser.
pub fn controls_stand()
    ensures { ControlStands }
{}

/// Those of its actions.
pub fn actions_stand()
    ensures { ActionsStand }
{}

/// Those behind statements.
pub fn statements_stand()
    ensures { StatementsStand }
{}

/// There the rules let no stack tell anything in a call as a statement.
pub fn calls_are_told_nothing()
    ensures { CallsToldNone }
{}
