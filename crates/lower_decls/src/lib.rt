//! What a translated text declares at its top, and the types that the rest of the lowering is written with: new names, copies of
//! actions, and the marks of field lists.
#![tactic(auto)]

mod headers;
mod lowered;
mod numbers;
mod objects;
mod picked;
mod program;
mod rows;
mod structs;
mod tops;

pub use lower_copies::ActionCopy;
pub use lower_marks::Marked;
pub use lower_names::{FieldName, Renamed, new_field, new_name, new_parameters};
pub use lowered::LoweredTypes;
pub use picked::used_types;
pub use program::lower_types;
pub use rows::{MemberRow, instance_rows, member_rows};
pub use tops::top_decls;
