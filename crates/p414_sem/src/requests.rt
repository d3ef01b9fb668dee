// What a control asks for beside the way of its packet.

/// A request for a further item (P4_14 1.0.5, "Primitive Actions": `clone_ingress_pkt_to_egress`,
/// `clone_egress_pkt_to_egress`, `resubmit`, `recirculate`).
#[derive(Clone, Copy, PartialEq, Eq, Drop)]
pub struct Request14 {
    /// The number of the clone session; 0 for resubmit and recirculate.
    pub session: u32,
    /// The field list whose metadata is preserved, by its number in the order of declaration.
    pub list: Option<u32>,
}
