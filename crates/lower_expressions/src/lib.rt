//! What all parts of a lowering write: fields, numbers, sources, headers and calls as trees of P4_16, under the new names of a table.
//! Each function says which expression or statement of the laws' mirror stands at the place that it gives.
#![tactic(auto)]

mod calls;
mod expressions;
mod headers;
mod numbers;
mod sources;
mod table;

pub use calls::{function_call, method, object_call, one_argument, two_arguments, valid};
pub use expressions::{
    element_expression, instance_expression, literal, member_of, member_of_name, named, plain,
    sized, slot_expression,
};
pub use headers::{add_header, guarded_write, method_of, part_expression};
pub use numbers::{low_next, needed, needed_next, power, room_over};
pub use sources::{
    both_expression, magnitude_expression, own_expression, own_width, resized, slot_width,
    source_expression,
};
pub use table::{ReadAt, Variables, WordsTable, field_in, instance_field};
