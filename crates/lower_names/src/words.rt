// The words that are no new names.
ghost use Rattle.std.specs.Prelude.{◌≡◌};
ghost use Rattle.p414_syntax.specs.Names.{has_name};
ghost use Rattle.lower_laws_names.specs.Words.{further, words, outer_words};

use p414_names::is_among;
use p416_syntax::is_reserved;

/// Further words of P4_16, and those that name no member where they stand behind a dot.
const FURTHER: [&[u8]; 38] = [
    b"abstract",
    b"const",
    b"entries",
    b"enum",
    b"exit",
    b"extern",
    b"for",
    b"header_union",
    b"int",
    b"match_kind",
    b"package",
    b"return",
    b"string",
    b"this",
    b"tuple",
    b"type",
    b"typedef",
    b"value_set",
    b"valueset",
    b"varbit",
    b"void",
    b"list",
    b"priority",
    b"pragma",
    b"break",
    b"continue",
    b"isValid",
    b"setValid",
    b"setInvalid",
    b"minSizeInBits",
    b"minSizeInBytes",
    b"push_front",
    b"pop_front",
    b"next",
    b"last",
    b"lastIndex",
    b"hit",
    b"miss",
];

/// What `core.p4` and `v1model.p4` declare, and then the names that each translated text has.
const OUTER: [&[u8]; 60] = [
    b"packet_in",
    b"packet_out",
    b"verify",
    b"static_assert",
    b"exact",
    b"ternary",
    b"lpm",
    b"range",
    b"optional",
    b"selector",
    b"standard_metadata_t",
    b"PortId_t",
    b"HashAlgorithm",
    b"CounterType",
    b"MeterType",
    b"CloneType",
    b"direct_meter",
    b"action_profile",
    b"action_selector",
    b"Checksum16",
    b"random",
    b"digest",
    b"hash",
    b"mark_to_drop",
    b"verify_checksum",
    b"update_checksum",
    b"verify_checksum_with_payload",
    b"update_checksum_with_payload",
    b"clone",
    b"clone3",
    b"clone_preserving_field_list",
    b"resubmit",
    b"resubmit_preserving_field_list",
    b"recirculate",
    b"recirculate_preserving_field_list",
    b"truncate",
    b"assert",
    b"assume",
    b"log_msg",
    b"Parser",
    b"VerifyChecksum",
    b"Ingress",
    b"Egress",
    b"ComputeChecksum",
    b"Deparser",
    b"P",
    b"V",
    b"I",
    b"E",
    b"C",
    b"D",
    b"hs",
    b"ms",
    b"packet",
    b"hdr",
    b"meta",
    b"sm",
    b"old_hdr",
    b"old_meta",
    b"old_sm",
];

/// Whether the octets are a word that is no name anywhere.
#[tactic(auto, using(lower_laws_names::proofs::Things::words_parts))]
pub fn is_word(name: &[u8]) -> bool
    ensures { result ≡ has_name words name.now }
{
    is_reserved(name) || is_among(name, &FURTHER)
}

/// Whether the octets are a word that is no name but that of a member.
pub fn is_outer_word(name: &[u8]) -> bool
    ensures { result ≡ has_name outer_words name.now }
{
    is_among(name, &OUTER)
}
