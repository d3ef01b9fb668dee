//! Declarations of P4_16 that are written: each declaration, field, statement, property and state on a line of its own, four
//! blanks a level, up to 32 levels. A blank line sets apart declarations, states, actions, tables and `apply` from what stands
//! before them, and nothing between braces is `{ }`.
#![tactic(auto)]

/// A mark, with what stands in front of it.
macro_rules! mark {
    ($gap:expr, $mark:ident) => {
        Put16 {
            gap: $gap,
            token: Token16::Mark(Mark16::$mark),
        }
    };
}

/// A reserved word, with what stands in front of it.
macro_rules! word {
    ($gap:expr, $word:ident) => {
        Put16 {
            gap: $gap,
            token: Token16::Word(Keyword16::$word),
        }
    };
}

/// A name, with what stands in front of it.
macro_rules! name {
    ($gap:expr, $text:expr) => {
        Put16 {
            gap: $gap,
            token: Token16::Name(TextView::new($text)),
        }
    };
}

/// A number, with what stands in front of it.
macro_rules! number {
    ($gap:expr, $number:expr) => {
        Put16 {
            gap: $gap,
            token: Token16::Number($number),
        }
    };
}

mod actions;
mod controls;
mod declarations;
mod fields;
mod gaps;
mod lists;
mod names;
mod notes;
mod objects;
mod params;
mod parsers;
mod states;
mod tables;
mod written;

pub use declarations::{write_declarations, write_main};
