//! The statements of a P4_16 block with every name resolved to slots, headers, stacks, tables, actions and objects: what they
//! do is said in the definitions, and here they are kept as nodes.
#![tactic(auto)]

mod checked;
mod externs;
mod nodes;
mod places;
mod statements;

pub use checked::{is_range, is_slot};
pub use externs::Extern;
pub use nodes::{
    ArgumentNode, IncomingNode, Node, OutgoingNode, Single, SourceNode, StatementNode, TestNode,
};
pub use places::{Range, RangePlace, Slice, SlotPlace, Target, ToldRange};
pub use statements::Statements;
