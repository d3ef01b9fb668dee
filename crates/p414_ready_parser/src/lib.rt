//! The parser of a P4_14 program made ready to run: its states by number, with instances, fields and numbers in place of
//! names, and each case of a select as rows.
#![tactic(auto)]

mod cases;
mod ends;
mod names;
mod numbers;
mod parser;
mod rows;
mod statements;
mod values;

pub use parser::{ReadyParser, ready_parser};
pub use rows::{
    CaseRow, CaseTest, InitialRow, Next, ReadyEnd, ReadyState, ReadyStatement, ReadyValue,
    SelectPart,
};
