//! What a P4_16 program does with a packet under v1model, as definitions, and what it is carried out on: the frame of a
//! packet, packed, with the values that its parts make up, and expressions with every name resolved to a slot, a header
//! or a stack of the frames, with their values: no name is looked up and no memory is taken.
#![tactic(auto)]

mod block;
mod checked;
mod evaluate;
mod expressions;
mod frame;
mod layout;
mod node;
mod numbers;
mod operators;
mod parser_error;
mod requests;
mod scalar;

pub use block::Block;
pub use expressions::Expressions;
pub use frame::{Frame, what_is_set_is_got};
pub use layout::{FrameLayout, HeaderSlots};
pub use node::{Content, Element, Node, Which};
pub use numbers::joined;
pub use operators::{binary, unary};
pub use parser_error::ParserError;
pub use scalar::{Scalar, to_bits, to_slice, to_truth};
