// The fields of standard metadata.

/// A field of `standard_metadata` (P4_14 1.0.5, "Standard Intrinsic Metadata").
#[derive(Clone, Copy, PartialEq, Eq, Drop)]
pub enum Standard {
    /// `ingress_port`, of 9 bits.
    IngressPort,
    /// `egress_spec`, of 9 bits.
    EgressSpec,
    /// `egress_port`, of 9 bits.
    EgressPort,
    /// `packet_length`, of 32 bits.
    PacketLength,
    /// `instance_type`, of 32 bits.
    InstanceType,
}
