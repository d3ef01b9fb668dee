// The primitive actions and standard metadata.
ghost use Rattle.std.specs.Prelude.{◌≡◌, Some, None, map, option_copied};
ghost use Rattle.std.specs.List.{list_any};
ghost use Rattle.p414_syntax.specs.References.{referred};
ghost use Rattle.p414_syntax.specs.Names.{has_name};
ghost use Rattle.p414_syntax.specs.Primitives.{places_of, primitive_places, is_primitive, left_out_primitives, is_any_primitive, is_standard, standard_width};
ghost use Rattle.p414_names.specs.internal.Places.{last_places, object_places};

use p414_syntax::ArgumentPlace;
use p414_syntax::ArgumentPlace::*;

const TWO_SOURCES: [&[u8]; 6] = [
    b"add",
    b"subtract",
    b"bit_and",
    b"bit_or",
    b"bit_xor",
    b"modify_field",
];

const SHIFTS: [&[u8]; 2] = [b"shift_left", b"shift_right"];

const ONE_SOURCE: [&[u8]; 2] = [b"add_to_field", b"subtract_from_field"];

const ONE_HEADER: [&[u8]; 2] = [b"add_header", b"remove_header"];

const STACK_MOVES: [&[u8]; 2] = [b"push", b"pop"];

const WITHOUT_ARGUMENTS: [&[u8]; 2] = [b"drop", b"no_op"];

const ONE_LIST: [&[u8]; 2] = [b"resubmit", b"recirculate"];

const CLONES: [&[u8]; 4] = [
    b"clone_ingress_pkt_to_egress",
    b"clone_i2e",
    b"clone_egress_pkt_to_egress",
    b"clone_e2e",
];

const COPY_HEADER: &[u8] = b"copy_header";

const COUNT: &[u8] = b"count";

const REGISTER_READ: &[u8] = b"register_read";

const REGISTER_WRITE: &[u8] = b"register_write";

const EXECUTE_METER: &[u8] = b"execute_meter";

const HASH: &[u8] = b"modify_field_with_hash_based_offset";

const LEFT_OUT: [&[u8]; 7] = [
    b"truncate",
    b"modify_field_rng_uniform",
    b"generate_digest",
    b"clone_ingress_pkt_to_ingress",
    b"clone_egress_pkt_to_ingress",
    b"clone_i2i",
    b"clone_e2i",
];

const STANDARD_METADATA: &[u8] = b"standard_metadata";

const PORTS: [&[u8]; 3] = [b"ingress_port", b"egress_spec", b"egress_port"];

const COUNTS: [&[u8]; 2] = [b"packet_length", b"instance_type"];

const LEFT_OUT_FIELDS: [&[u8]; 4] = [
    b"egress_instance",
    b"parser_status",
    b"parser_error_location",
    b"clone_spec",
];

/// Whether a name stands among these.
pub fn is_among(name: &[u8], names: &[&[u8]]) -> bool
    ensures { result ≡ has_name (map referred names.now) name.now }
{
    for known in names {
        if name == *known {
            return true;
        }
    }
    false
}

/// What the arguments of hashes and of primitives on packets stand for.
fn last_places(name: &[u8]) -> Option<&'static [ArgumentPlace]>
    ensures { option_copied result ≡ last_places name.now }
{
    if name == HASH {
        Some(&[Target, Unsigned, Calculation, Unsigned])
    } else if is_among(name, &WITHOUT_ARGUMENTS) {
        Some(&[])
    } else if is_among(name, &ONE_LIST) {
        Some(&[List])
    } else if is_among(name, &CLONES) {
        Some(&[Unsigned, List])
    } else {
        None
    }
}

/// What the arguments of primitives on stacks and stateful objects stand for, and of those above.
fn object_places(name: &[u8]) -> Option<&'static [ArgumentPlace]>
    ensures { option_copied result ≡ object_places name.now }
{
    if is_among(name, &STACK_MOVES) {
        Some(&[Stack, Elements])
    } else if name == COUNT {
        Some(&[Counter, Unsigned])
    } else if name == REGISTER_READ {
        Some(&[Target, Register, Unsigned])
    } else if name == REGISTER_WRITE {
        Some(&[Register, Unsigned, Source])
    } else if name == EXECUTE_METER {
        Some(&[Meter, Unsigned, Target])
    } else {
        last_places(name)
    }
}

/// What the arguments of a primitive stand for, in order; none where the name is no primitive.
pub fn places_of(name: &[u8]) -> Option<&'static [ArgumentPlace]>
    ensures { option_copied result ≡ places_of name.now }
{
    if is_among(name, &TWO_SOURCES) {
        Some(&[Target, Source, Source])
    } else if is_among(name, &SHIFTS) {
        Some(&[Target, Unsigned, Unsigned])
    } else if is_among(name, &ONE_SOURCE) {
        Some(&[Target, Source])
    } else if is_among(name, &ONE_HEADER) {
        Some(&[Header])
    } else if name == COPY_HEADER {
        Some(&[Header, Header])
    } else {
        object_places(name)
    }
}

/// What the arguments of a primitive stand for; nothing where the name is no primitive.
pub fn primitive_places(name: &[u8]) -> &'static [ArgumentPlace]
    ensures { result.now ≡ primitive_places name.now }
{
    match places_of(name) {
        Some(places) => places,
        None => &[],
    }
}

/// Whether the name is that of a primitive that is left out.
pub fn is_left_out_primitive(name: &[u8]) -> bool
    ensures { result ≡ has_name left_out_primitives name.now }
{
    is_among(name, &LEFT_OUT)
}

/// Whether the name is that of a primitive, left out or not.
pub fn is_any_primitive(name: &[u8]) -> bool
    ensures { result ≡ is_any_primitive name.now }
{
    places_of(name).is_some() || is_left_out_primitive(name)
}

/// Whether the name is `standard_metadata`.
pub fn is_standard(name: &[u8]) -> bool
    ensures { result ≡ is_standard name.now }
{
    name == STANDARD_METADATA
}

/// The width of a field of standard metadata in bits; those that are left out count as 0.
pub fn standard_width(field: &[u8]) -> Option<u128>
    ensures { result ≡ standard_width field.now }
{
    if is_among(field, &PORTS) {
        Some(9)
    } else if is_among(field, &COUNTS) {
        Some(32)
    } else if is_among(field, &LEFT_OUT_FIELDS) {
        Some(0)
    } else {
        None
    }
}
