//! The parser and the deparser, as they are written, and that they do what those of P4_14 do. The law is the contract
//! of a function that does nothing.
#![tactic(auto)]

ghost use Rattle.lower_laws_parser.specs.Laws.{ParsersEnd};

/// A parser that begins as it is written ends as that of P4_14 does.
pub fn parsers_end()
    ensures { ParsersEnd }
{}
