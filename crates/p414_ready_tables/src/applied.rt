// What an application of a table came to.

/// An application of a table: whether it hit, and the action that ran, by its number in the order of declaration.
#[derive(Clone, Copy, Drop)]
pub struct ReadyApplied {
    /// Whether it hit.
    pub hit: bool,
    /// The action that ran; none where none ran.
    pub action: Option<u32>,
}
