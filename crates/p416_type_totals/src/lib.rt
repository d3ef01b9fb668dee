//! How many fields, and how many octets of headers, a value of each type of a P4_16 program has, and whether a struct holds
//! itself.
#![tactic(auto)]

mod graph;
mod headers;
mod measure;
mod structs;
mod totals;
mod types;

pub use measure::LIMIT;
pub use totals::TypeTotals;
