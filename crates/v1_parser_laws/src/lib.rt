//! That the states of a ready parser do what those of the program do. It has definitions and laws; each law is the contract of a
//! function that does nothing.
#![tactic(auto)]

ghost use Rattle.v1_parser_laws.specs.Ranges.{EmptiedBegins, EmptiedHeaders, ErrorStands};
ghost use Rattle.v1_parser_laws.specs.Laws.{MadeParserShows, MadeStatesShow, ParsingShows, TransitionsLeadAlike};

/// The ready transitions of a program that keeps the rules lead where its transitions do, or both end with the same error.
#[tactic(auto, using(crate::proofs::Transitions::transitions_lead))]
pub fn ready_transitions_lead_alike()
    ensures { TransitionsLeadAlike }
{}

/// A state whose statements do what those of the program do, and whose transition is ready, does what that state of the program
/// does.
#[tactic(auto, using(crate::proofs::States::made_states_show))]
pub fn ready_states_do_the_same()
    ensures { MadeStatesShow }
{}

/// Where the states of a ready parser do what those of the program do, so does parsing, from each state on.
pub fn parsing_does_the_same()
    ensures { ParsingShows }
{}

/// A parser that is made ready does what that of the program does, as a whole, and the same error ends both.
pub fn ready_parsers_do_the_same()
    ensures { MadeParserShows }
{}

/// Emptying the parts of a value in a frame of a program makes it the value with which a new frame begins, and the frame stays one
/// of the program.
pub fn emptied_parts_begin_anew()
    ensures { EmptiedBegins }
{}

/// So does emptying the headers what beginning to parse does.
pub fn emptied_headers_begin_anew()
    ensures { EmptiedHeaders }
{}

/// A number in the slot of `parser_error` is the error with that number there.
pub fn numbers_of_errors_stand()
    ensures { ErrorStands }
{}
