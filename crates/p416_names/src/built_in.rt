// What `core.p4` and `v1model.p4` declare.
ghost use Rattle.std.specs.Prelude.{◌≡◌, List, [], ◌∷◌};
ghost use Rattle.std.specs.Option.{option_map};
ghost use Rattle.p416_syntax.specs.Scopes.{Known, sort_in, fields_in};
ghost use Rattle.p416_syntax.specs.Names.{has_name};
ghost use Rattle.p416_syntax.specs.Expressions.{field_kind_in};
ghost use Rattle.p416_syntax.specs.BuiltIn.{built_in, functions, standard_layout};
ghost use Rattle.p416_names.specs.SeenKinds.{seen_kind};
ghost use Rattle.p416_names.specs.Seen.{seen_sort};
ghost use Rattle.p416_names.specs.internal.Tables.{function_behind, enumeration_behind, standard_field};

use crate::kind::{Enumeration, Kind};
use crate::members::is_among;
use crate::sort::Sort;

const PACKET_IN: &[u8] = b"packet_in";

const PACKET_OUT: &[u8] = b"packet_out";

const STANDARD_METADATA: &[u8] = b"standard_metadata_t";

const HASH_ALGORITHM: &[u8] = b"HashAlgorithm";

const COUNTER_TYPE: &[u8] = b"CounterType";

const METER_TYPE: &[u8] = b"MeterType";

const CLONE_TYPE: &[u8] = b"CloneType";

const FUNCTIONS: [&[u8]; 9] = [
    b"mark_to_drop",
    b"hash",
    b"verify_checksum",
    b"update_checksum",
    b"verify_checksum_with_payload",
    b"update_checksum_with_payload",
    b"clone_preserving_field_list",
    b"resubmit_preserving_field_list",
    b"recirculate_preserving_field_list",
];

const INGRESS_PORT: &[u8] = b"ingress_port";

const EGRESS_SPEC: &[u8] = b"egress_spec";

const EGRESS_PORT: &[u8] = b"egress_port";

const PACKET_LENGTH: &[u8] = b"packet_length";

const INSTANCE_TYPE: &[u8] = b"instance_type";

const PARSER_ERROR: &[u8] = b"parser_error";

const CHECKSUM_ERROR: &[u8] = b"checksum_error";

/// Whether this is the name of a function of `v1model.p4`.
fn is_function(name: &[u8]) -> bool
    ensures { result ≡ has_name functions name.now }
{
    is_among(name, &FUNCTIONS)
}

/// What a name of a function of `v1model.p4` means.
fn function_sort<'a>(name: &[u8]) -> Sort<'a>
    ensures { (names : List Known) → seen_sort names result ≡ function_behind name.now }
{
    if is_function(name) {
        Sort::Function
    } else {
        Sort::Undeclared
    }
}

/// What a name of an enumeration or a function means.
fn enumeration_sort<'a>(name: &[u8]) -> Sort<'a>
    ensures { (names : List Known) → seen_sort names result ≡ enumeration_behind name.now }
{
    if HASH_ALGORITHM == name {
        Sort::Enumeration(Enumeration::HashAlgorithm)
    } else if COUNTER_TYPE == name {
        Sort::Enumeration(Enumeration::CounterType)
    } else if METER_TYPE == name {
        Sort::Enumeration(Enumeration::MeterType)
    } else if CLONE_TYPE == name {
        Sort::Enumeration(Enumeration::CloneType)
    } else {
        function_sort(name)
    }
}

/// What a name means that the program doesn't declare at the top.
pub fn built_in_sort<'a>(name: &[u8]) -> Sort<'a>
    ensures { (names : List Known) → seen_sort names result ≡ sort_in built_in name.now }
{
    if PACKET_IN == name {
        Sort::Type(Kind::PacketIn)
    } else if PACKET_OUT == name {
        Sort::Type(Kind::PacketOut)
    } else if STANDARD_METADATA == name {
        Sort::Type(Kind::Struct(STANDARD_METADATA))
    } else {
        enumeration_sort(name)
    }
}

/// What the field of this name of the standard metadata is.
fn standard_field<'a>(name: &[u8]) -> Option<Kind<'a>>
    ensures { option_map seen_kind result ≡ standard_field name.now }
{
    if INGRESS_PORT == name {
        Some(Kind::Bits(9))
    } else if EGRESS_SPEC == name {
        Some(Kind::Bits(9))
    } else if EGRESS_PORT == name {
        Some(Kind::Bits(9))
    } else if PACKET_LENGTH == name {
        Some(Kind::Bits(32))
    } else if INSTANCE_TYPE == name {
        Some(Kind::Bits(32))
    } else if PARSER_ERROR == name {
        Some(Kind::ErrorCode)
    } else if CHECKSUM_ERROR == name {
        Some(Kind::Bits(1))
    } else {
        None
    }
}

/// What the field of this name is of a struct of a type that the program doesn't declare.
pub fn built_in_field<'a>(of: &[u8], name: &[u8]) -> Option<Kind<'a>>
    ensures { option_map seen_kind result ≡ field_kind_in (fields_in (standard_layout ∷ []) of.now) name.now }
{
    if STANDARD_METADATA == of {
        standard_field(name)
    } else {
        None
    }
}
