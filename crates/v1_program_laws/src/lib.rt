//! That the ready parser and the ready controls of a P4_16 program do over packed numbers what its parser and its controls do: that ready
//! sources reach the parts that are meant, that headers are whole octets, and that statements, states and variables that are made ready
//! do the same. It has definitions and laws; each law is the contract of a function that does nothing.
#![tactic(auto)]

ghost use Rattle.v1_program_laws.specs.SourceLaws.{BlockPartsBegin, PartsAreOneForm, PartsBegin, PartsGo, SourcesSought, StacksCalled};
ghost use Rattle.v1_program_laws.specs.HeaderLaws.{HeadersAreWhole};
ghost use Rattle.v1_program_laws.specs.ParserLaws.{ParserKeepsRules, ParserLeaves, ReadyErrorStands, ReadyParserIsMade, ReadyParserShows, ReadyStateIsMade, ReadyVariablesBegin};
ghost use Rattle.v1_program_laws.specs.ValueLaws.{InitialsFollow, InitialsOfControls, ValuesAssigned, ValuesBegin};
ghost use Rattle.v1_program_laws.specs.Finished.{ControlLeavesDo, ControlsDo};
ghost use Rattle.v1_program_laws.specs.ControlLaws.{ActionBodiesDo, BodyLeavesDo};
ghost use Rattle.v1_program_laws.specs.Laws.{ReadyControlsDo, ReadyParsersDo};

/// In a program that breaks no rule, parts of a frame that are of one form have parts for parts, however deep they are in structs.
pub fn parts_are_of_one_form()
    ensures { PartsAreOneForm }
{}

/// A ready source reaches the parts of what its expression is, or fails with the same error.
pub fn sources_reach_what_is_meant()
    ensures { SourcesSought }
{}

/// Headers, stacks and structs are assigned as their parts are copied.
pub fn values_with_parts_are_assigned()
    ensures { PartsGo }
{}

/// So are initial values of variables in statements.
pub fn values_with_parts_are_initial()
    ensures { PartsBegin }
{}

/// So are those of the variables of a block.
pub fn block_variables_begin_with_parts()
    ensures { BlockPartsBegin }
{}

/// `push_front` and `pop_front` move and mark the elements of a stack as the program says.
pub fn stacks_are_called()
    ensures { StacksCalled }
{}

/// In a program that breaks no rule headers, and stacks of them, are whole octets wherever they stand in its frames.
pub fn headers_are_whole_octets()
    ensures { HeadersAreWhole }
{}

/// The statements of a parser without others in them that are made ready do what they do in the program, and so do conditions.
pub fn parser_statements_do_the_same()
    ensures { ParserLeaves }
{}

/// The expressions in the parser of a program that breaks no rule keep the rules that these laws want.
pub fn parsers_keep_the_rules()
    ensures { ParserKeepsRules }
{}

/// A state whose statements and transition are made ready does what that of the program does.
pub fn ready_states_are_made()
    ensures { ReadyStateIsMade }
{}

/// The variables of a parser that are made ready start at 0 and take their initial values.
pub fn ready_variables_begin()
    ensures { ReadyVariablesBegin }
{}

/// The slot of `parser_error` has room for each error.
pub fn ready_errors_stand()
    ensures { ReadyErrorStands }
{}

/// The parser of a program that breaks no rule, made ready, empties the headers, starts its variables, goes through its states and puts
/// errors into `parser_error` as that of the program does.
pub fn ready_parsers_are_made()
    ensures { ReadyParserIsMade }
{}

/// It leaves the same, and the same error ends both.
pub fn ready_parsers_parse_the_same()
    ensures { ReadyParserShows }
{}

/// Where ready tests tell the values of expressions an assignment that is made ready does the same.
pub fn values_are_assigned()
    ensures { ValuesAssigned }
{}

/// So does a variable with an initial value in a body,
pub fn variables_begin_with_values()
    ensures { ValuesBegin }
{}

/// and so do the variables of a control.
pub fn controls_begin_with_values()
    ensures { InitialsOfControls }
{}

/// Where the tables of a control do what they do in the program, so do the initial values of its variables.
pub fn initial_values_follow_tables()
    ensures { InitialsFollow }
{}

/// In the body of a control conditions, calls and tables do the same; so do all of them where assignments and initial values do.
pub fn body_statements_do_the_same()
    ensures { BodyLeavesDo }
{}

/// So in its actions.
pub fn action_statements_do_the_same()
    ensures { ActionBodiesDo }
{}

/// Assignments and initial values put in.
pub fn statements_do_the_same()
    ensures { ControlLeavesDo }
{}

/// So a control of an accepted program, whose headers are whole octets, runs as its ready block.
pub fn controls_run_as_ready()
    ensures { ControlsDo }
{}

/// In a program that breaks no rule its ready parser does what the parser does.
pub fn ready_parsers_do()
    ensures { ReadyParsersDo }
{}

/// In a program that breaks no rule, whose tables are filled with entries that fit, a ready control does what the control does.
pub fn ready_controls_do()
    ensures { ReadyControlsDo }
{}
