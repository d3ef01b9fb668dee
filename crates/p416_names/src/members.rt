// The enumerations of `v1model.p4` and of `error` with their members (`core.p4`; `v1model.p4`).
ghost use Rattle.std.specs.Prelude.{◌≡◌, map};
ghost use Rattle.p416_syntax.specs.Names.{has_name};
ghost use Rattle.p416_syntax.specs.BuiltIn.{members_of, error_names};
ghost use Rattle.p416_names.specs.SeenKinds.{referred, seen_enumeration};

use crate::kind::Enumeration;

const HASH_ALGORITHMS: [&[u8]; 4] = [b"csum16", b"crc16", b"crc32", b"identity"];

const COUNTER_TYPES: [&[u8]; 3] = [b"packets", b"bytes", b"packets_and_bytes"];

const METER_TYPES: [&[u8]; 2] = [b"packets", b"bytes"];

const CLONE_TYPES: [&[u8]; 2] = [b"I2E", b"E2E"];

const ERRORS: [&[u8]; 4] = [
    b"NoError",
    b"PacketTooShort",
    b"StackOutOfBounds",
    b"NoMatch",
];

/// Whether a name stands among these.
pub fn is_among(name: &[u8], names: &[&[u8]]) -> bool
    ensures { result ≡ has_name (map referred names.now) name.now }
{
    for known in names {
        if name == *known {
            return true;
        }
    }
    false
}

/// Whether an enumeration has a member of this name.
pub fn has_member(of: Enumeration, name: &[u8]) -> bool
    ensures { result ≡ has_name (members_of (seen_enumeration of)) name.now }
{
    match of {
        Enumeration::HashAlgorithm => is_among(name, &HASH_ALGORITHMS),
        Enumeration::CounterType => is_among(name, &COUNTER_TYPES),
        Enumeration::MeterType => is_among(name, &METER_TYPES),
        Enumeration::CloneType => is_among(name, &CLONE_TYPES),
    }
}

/// Whether `error` has a member of this name.
pub fn is_error_name(name: &[u8]) -> bool
    ensures { result ≡ has_name error_names name.now }
{
    is_among(name, &ERRORS)
}
