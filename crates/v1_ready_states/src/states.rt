// States that are ready to run (P4_16 1.2, "Packet parsing").
use p4x_bits::Rows;
use v1_ready_blocks::Range;
use v1_ready_selects::ReadyTransition;

/// A state of a parser.
#[derive(Drop)]
pub struct ReadyState {
    /// The place of its statements.
    pub body: usize,
    /// What it ends with.
    pub transition: ReadyTransition,
}

/// The parser of a program.
#[derive(Drop)]
pub struct ReadyParser {
    /// The parts of the headers, which are all invalid as parsing begins.
    pub headers: Range,
    /// The slot of `parser_error`.
    pub error: u32,
    /// The place of the statements by which its variables start.
    pub variables: usize,
    /// The states in the order of the text.
    pub states: Rows<ReadyState>,
    /// The number of the state `start`.
    pub first: u32,
}
