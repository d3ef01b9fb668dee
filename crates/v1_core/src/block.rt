// The blocks that are controls.

/// A block of `V1Switch` that is a control (`v1model.p4`). The other one is the parser.
#[derive(Clone, Copy, PartialEq, Eq, Drop)]
pub enum Block {
    /// Checksums are verified.
    Verify,
    /// Ingress.
    Ingress,
    /// Egress.
    Egress,
    /// Checksums are computed.
    Compute,
    /// The packet is put together.
    Deparse,
}
