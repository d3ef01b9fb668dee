// How much a program asks of what runs or translates it.

/// How much a program asks of what runs or translates it (this project's own).
#[derive(Clone, Copy, PartialEq, Eq, Drop)]
pub enum Stage14 {
    /// No action makes a further item, and the program keeps nothing from packet to packet and calculates nothing.
    Plain,
    /// No action makes a further item, and the program declares a counter, a meter, a register or a calculated field, or
    /// calls the hash.
    Stateful,
    /// An action calls a clone, resubmit or recirculate.
    Reentrant,
}
