// Parser states by their numbers (P4_14 1.0.5, "Parser Specification").
use p4x_bits::Rows;

/// A parser state.
pub struct StateNode {
    /// The numbers of the instances that the state extracts, in order.
    pub extracts: Rows<u32>,
    /// The numbers of the states that its return names, in the order of the text. A transition to `ingress` leads to none.
    pub next: Rows<u32>,
}

impl Drop for StateNode {
    fn drop(self) {
        let StateNode {
            extracts: _extracts,
            next: _next,
        } = self;
    }
}

/// The parser states of a program, in the order of the text, from number 0.
#[derive(Drop)]
pub struct Graph {
    /// The states.
    pub states: Rows<StateNode>,
    /// The number of the state `start`.
    pub start: u32,
}
