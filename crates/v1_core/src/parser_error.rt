// The errors of a parser.

/// What stops a parser, or `NoError` (`core.p4`, `error`; which errors there are is this project's own).
#[derive(Clone, Copy, PartialEq, Eq, Drop)]
pub enum ParserError {
    /// No error was raised: the parser accepted the packet or rejected it.
    NoError,
    /// An extraction or `lookahead` wants more bits than are left.
    PacketTooShort,
    /// `next` of a full stack, or `last` of a stack at place 0.
    StackOutOfBounds,
    /// No case of a select matches.
    NoMatch,
}
