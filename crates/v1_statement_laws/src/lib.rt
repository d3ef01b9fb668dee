//! That the ready statements which the statements of a P4_16 program are do over packed numbers what these do: by induction over
//! statements, from what those without others in them do. It has definitions and laws; each law is the contract of a function
//! that does nothing.
#![tactic(auto)]

ghost use Rattle.v1_statement_laws.specs.Laws.{BodiesShow, HeadersCalled, HeadersEmitted, HeadersExtracted, PartsAssigned, SlotsAssigned, SlotsInitialized, StatementsShow, TestsEvaluate, VariablesInitialized, VariablesStart};

/// Where assignments, calls, conditions and tables do the same, all statements do.
pub fn statements_do_the_same()
    ensures { StatementsShow }
{}

/// So the statements of a parser's states do what the ready ones do.
pub fn states_do_the_same()
    ensures { BodiesShow }
{}

/// Where no tables are, a ready test gives the value of an expression.
pub fn tests_evaluate_expressions()
    ensures { TestsEvaluate }
{}

/// There the assignment of a single value does the same.
pub fn single_values_are_assigned()
    ensures { SlotsAssigned }
{}

/// There a variable with an initial value, which is a single one, does the same.
pub fn single_values_are_initial()
    ensures { SlotsInitialized }
{}

/// The variables of a control start at 0, one after another.
pub fn block_variables_start()
    ensures { VariablesStart }
{}

/// There a variable of the block with an initial value, which is a single one, does the same.
pub fn block_variables_are_initial()
    ensures { VariablesInitialized }
{}

/// There `isValid`, `setValid` and `setInvalid` do the same.
pub fn headers_are_called()
    ensures { HeadersCalled }
{}

/// Extraction into a header, or into the next element of a stack, does the same.
pub fn headers_are_extracted()
    ensures { HeadersExtracted }
{}

/// Emission of a header or a stack that no stack tells does the same.
pub fn headers_are_emitted()
    ensures { HeadersEmitted }
{}

/// The assignment of a header, a stack or a struct that no stack tells does the same.
pub fn parts_are_assigned()
    ensures { PartsAssigned }
{}
