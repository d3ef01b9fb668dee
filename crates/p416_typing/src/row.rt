// What is known of an expression.
use p416_calls::Callee;
use p416_names::Kind;

/// What is known of an expression or an argument list.
#[derive(Clone, Copy, Drop)]
pub struct Row<'a> {
    /// What it is.
    pub kind: Kind<'a>,
    /// What its first part is: what stands before a member, an element or a slice, an operand; of `c ? a : b` that of `a`.
    pub left: Kind<'a>,
    /// What the right operand is; of `c ? a : b` that of `b`.
    pub right: Kind<'a>,
    /// What a call of it calls.
    pub callee: Callee<'a>,
    /// What it calls itself.
    pub called: Callee<'a>,
    /// How many arguments the list has.
    pub count: usize,
    /// How many arguments the call has.
    pub given: usize,
    /// Where a clone is made by this member of `CloneType`, by the place in `main`.
    pub clone: Option<usize>,
    /// The same of the first argument of the list.
    pub first: Option<usize>,
    /// The same of the first argument of the call.
    pub given_first: Option<usize>,
    /// Whether it can be written.
    pub can_write: bool,
}
