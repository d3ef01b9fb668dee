//! What the blocks of a P4_16 program that are controls do over packed numbers: that they emit octets, that they run as their ready
//! blocks, that their tables do what they do in the meaning, and that tests in which tables are applied give the values of expressions.
//! It has definitions and laws; each law is the contract of a function that does nothing.
#![tactic(auto)]

ghost use Rattle.v1_control_laws.specs.Laws.{ControlsShow, OctetsEmitted};
ghost use Rattle.v1_control_laws.specs.TableLaws.{ControlsRun, ControlTablesApply, ControlTablesFilled, ParametersHanded, RulesTellNone, ScopesPlain, StandardsOwn, TablesApplied, TablesTell};

/// What a block that is a control emits are octets.
pub fn emitted_numbers_are_octets()
    ensures { OctetsEmitted }
{}

/// A control runs as its ready block.
pub fn controls_run_as_ready_blocks()
    ensures { ControlsShow }
{}

/// Where tables apply the same, a ready test gives the value of its expression.
pub fn tests_with_tables_give_values()
    ensures { TablesTell }
{}

/// Where actions do the same, the application of a table does.
pub fn tables_apply_the_same()
    ensures { TablesApplied }
{}

/// So do the tables of a control, in its body.
pub fn control_tables_apply_the_same()
    ensures { ControlTablesApply }
{}

/// In an accepted program each table of a control fits, and what fills the tables of the signature fills it.
pub fn control_tables_are_filled()
    ensures { ControlTablesFilled }
{}

/// Outside of parsers no stack tells anything, and nothing is looked ahead at.
pub fn rules_leave_nothing_to_tell()
    ensures { RulesTellNone }
{}

/// A control of an accepted program runs as its ready block.
pub fn controls_run_with_their_tables()
    ensures { ControlsRun }
{}

/// What is handed to an action is of the kinds of its parameters.
pub fn parameters_are_handed()
    ensures { ParametersHanded }
{}

/// In the scopes of a program names and members are of such kinds as types name.
pub fn scopes_name_plain_kinds()
    ensures { ScopesPlain }
{}

/// The type of standard metadata is that of `v1model.p4`.
pub fn standard_metadata_is_its_own()
    ensures { StandardsOwn }
{}
