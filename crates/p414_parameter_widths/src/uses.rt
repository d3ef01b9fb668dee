// How many bits a primitive asks of what stands for its arguments.
ghost use Rattle.std.specs.Prelude.{◌≡◌, filter_map, map};
ghost use Rattle.p414_syntax.specs.declared.place.ArgumentPlace.TheVariants as place;
ghost use Rattle.p414_syntax.specs.Names.{has_name};
ghost use Rattle.p414_syntax.specs.Arguments.{placed_argument};
ghost use Rattle.p414_calls.specs.Shown.{shown_argument};
ghost use Rattle.p414_call_check.specs.Shown.{shown_placed};
ghost use Rattle.p414_sem.specs.Slots.{bits_of_ref};
ghost use Rattle.p414_sem.specs.Signatures.{indexed, first_of, is_unsigned, register_in, register_width, register_bits, target_bits};
ghost use Rattle.p414_parameter_widths.specs.internal.Noting.{other_bits};

use p414_call_check::PlacedArgument;
use p414_calls::Argument;
use p414_names::{Names14, is_among};
use p414_syntax::{ArgumentPlace, Decl, Literal, Ref, Sort};

/// The primitives whose arguments of kind `Unsigned` are an index or a session.
const INDEXED: [&[u8]; 8] = [
    b"count",
    b"register_read",
    b"register_write",
    b"execute_meter",
    b"clone_ingress_pkt_to_egress",
    b"clone_i2e",
    b"clone_egress_pkt_to_egress",
    b"clone_e2e",
];

const REGISTER_WRITE: &[u8] = b"register_write";

/// The bits of the field that a reference names, from 1 to 128 in a program that keeps the rules; 0 where there is none. It
/// takes no memory (P4_14 1.0.5, "Header Type Declarations").
pub fn bits_of_ref(names: &Names14<'_>, named: &Ref) -> u128
    ensures { result ≡ bits_of_ref names.now named.now }
{
    names.ref_width(named).unwrap_or(0)
}

/// The bits that a register's declaration gives.
fn register_in(decl: &Decl) -> Option<Literal>
    ensures { result ≡ register_in decl.now }
{
    match decl {
        Decl::Register(register) => register.width(),
        _ => None,
    }
}

/// The bits of the cells of a register; 0 where none has the name.
fn register_width(names: &Names14<'_>, name: &[u8]) -> u128
    ensures { result ≡ register_width names.now name.now }
{
    match names.declaration_of(Sort::Object, name) {
        Some(decl) => match register_in(decl) {
            Some(width) => width.value,
            None => 0,
        },
        None => 0,
    }
}

/// The bits of an argument that is a field, if it is one.
fn field_bits(names: &Names14<'_>, argument: &Argument<'_>) -> Option<u128>
    ensures { result ≡ target_bits names.now (placed_argument place.Target (shown_argument argument.now)) }
{
    match argument {
        Argument::Field(field) => Some(bits_of_ref(names, field)),
        _ => None,
    }
}

/// The bits of the field that a call writes, if it is this argument.
fn target_bits(names: &Names14<'_>, placed: &PlacedArgument<'_>) -> Option<u128>
    ensures { result ≡ target_bits names.now (shown_placed placed.now) }
{
    match placed.wanted {
        ArgumentPlace::Target => field_bits(names, &placed.argument),
        _ => None,
    }
}

/// The bits of an argument that names a register, if it names something.
fn named_bits(names: &Names14<'_>, argument: &Argument<'_>) -> Option<u128>
    ensures { result ≡ register_bits names.now (placed_argument place.Register (shown_argument argument.now)) }
{
    match argument {
        Argument::Named(register) => Some(register_width(names, register.name.as_slice())),
        _ => None,
    }
}

/// The bits of the register that a call writes to, if it is this argument.
fn register_bits(names: &Names14<'_>, placed: &PlacedArgument<'_>) -> Option<u128>
    ensures { result ≡ register_bits names.now (shown_placed placed.now) }
{
    match placed.wanted {
        ArgumentPlace::Register => named_bits(names, &placed.argument),
        _ => None,
    }
}

/// The bits of the field that a call writes; 0 where it writes none.
fn first_target(names: &Names14<'_>, placed: &[PlacedArgument<'_>]) -> u128
    ensures { result ≡ first_of (filter_map (target_bits names.now) (map shown_placed placed.now)) }
{
    for argument in placed {
        if let Some(bits) = target_bits(names, argument) {
            return bits;
        }
    }
    0
}

/// The bits of the register that a call writes to; 0 where there is none.
fn first_register(names: &Names14<'_>, placed: &[PlacedArgument<'_>]) -> u128
    ensures { result ≡ first_of (filter_map (register_bits names.now) (map shown_placed placed.now)) }
{
    for argument in placed {
        if let Some(bits) = register_bits(names, argument) {
            return bits;
        }
    }
    0
}

/// The bits that a primitive asks of a source that is no index and no session.
pub fn other_bits(names: &Names14<'_>, callee: &[u8], placed: &[PlacedArgument<'_>]) -> u128
    ensures { result ≡ other_bits names.now callee.now (map shown_placed placed.now) }
{
    if callee == REGISTER_WRITE {
        first_register(names, placed)
    } else {
        first_target(names, placed)
    }
}

/// Whether the arguments of kind `Unsigned` of a primitive are an index or a session.
pub fn is_indexed(callee: &[u8]) -> bool
    ensures { result ≡ has_name indexed callee.now }
{
    is_among(callee, &INDEXED)
}

/// Whether what is wanted is a source that isn't negative.
pub fn is_unsigned(wanted: ArgumentPlace) -> bool
    ensures { result ≡ is_unsigned wanted }
{
    matches!(wanted, ArgumentPlace::Unsigned)
}
