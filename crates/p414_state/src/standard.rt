// The fields of standard metadata.
ghost use Rattle.std.specs.Prelude.{◌≡◌, ℕ, ◌^◌, ◌<◌};
ghost use Rattle.p414_state.specs.Packets.{standard_bits};
ghost use Rattle.p414_state.specs.internal.Parts.{standard_in, with_standard_in, AreStandard};

use p414_sem::Standard;

/// The fields of `standard_metadata` (P4_14 1.0.5, "Standard Intrinsic Metadata").
#[derive(Clone, Copy, Drop)]
pub struct StandardFields {
    pub ingress_port: u32,
    pub egress_spec: u32,
    pub egress_port: u32,
    pub packet_length: u32,
    pub instance_type: u32,
}

/// A field's number.
pub fn get(fields: StandardFields, field: Standard) -> u32
    requires { AreStandard fields }
    ensures is { result ≡ standard_in fields field }
    ensures fits { result < 2 ^ standard_bits field }
{
    match field {
        Standard::IngressPort => fields.ingress_port,
        Standard::EgressSpec => fields.egress_spec,
        Standard::EgressPort => fields.egress_port,
        Standard::PacketLength => fields.packet_length,
        Standard::InstanceType => fields.instance_type,
    }
}

/// The fields with another number in one of them.
pub fn with(fields: StandardFields, field: Standard, value: u32) -> StandardFields
    requires fields { AreStandard fields }
    requires value { value < 2 ^ standard_bits field }
    ensures is { result ≡ with_standard_in fields field value }
    ensures fits { AreStandard result }
{
    match field {
        Standard::IngressPort => StandardFields {
            ingress_port: value,
            ..fields
        },
        Standard::EgressSpec => StandardFields {
            egress_spec: value,
            ..fields
        },
        Standard::EgressPort => StandardFields {
            egress_port: value,
            ..fields
        },
        Standard::PacketLength => StandardFields {
            packet_length: value,
            ..fields
        },
        Standard::InstanceType => StandardFields {
            instance_type: value,
            ..fields
        },
    }
}
