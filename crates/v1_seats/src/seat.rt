// Where a part of a frame stands.
use crate::start::Start;
use p416_names::Kind;

/// A part of a frame: what it is, through how many structs within each other it is looked into, where it begins, and the number
/// of the header of which it is a field, where it is one.
#[derive(Clone, Copy, Drop)]
pub struct Seat<'a> {
    /// Through how many structs.
    pub depth: usize,
    /// What it is.
    pub kind: Kind<'a>,
    /// Where it begins.
    pub start: Start,
    /// The header.
    pub owner: Option<u32>,
}
