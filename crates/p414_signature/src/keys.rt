// The keys of a table.
ghost use Rattle.std.specs.Prelude.{◌≡◌, map, IfOk};
ghost use Rattle.p414_sem.specs.Signatures.{kind_named, key_spec};
ghost use Rattle.p414_sem.specs.Slots.{bits_of_ref};

use match_core::{KeyKind, KeySpec};
use p4x_bits::{OutOfMemory, Rows};
use p414_names::Names14;
use p414_parameter_widths::bits_of_ref;
use p414_syntax::{Read, ReadKey, Ref};
use std::alloc::Global;

const TERNARY: &[u8] = b"ternary";

const LPM: &[u8] = b"lpm";

const RANGE: &[u8] = b"range";

/// The kind with a name.
fn kind_named(name: &[u8]) -> KeyKind
    ensures { result ≡ kind_named name.now }
{
    if name == TERNARY {
        KeyKind::Ternary
    } else if name == LPM {
        KeyKind::Lpm
    } else if name == RANGE {
        KeyKind::Range
    } else {
        KeyKind::Exact
    }
}

/// A width as one of 8 bits. One that is larger, which no program that keeps the rules has, counts as want of memory.
pub fn narrow_width(width: u128) -> Result<u8, OutOfMemory>
    ensures { IfOk result (λ narrow. narrow ≡ width) }
{
    match u8::try_from(width) {
        Ok(narrow) => Ok(narrow),
        Err(_) => Err(OutOfMemory),
    }
}

/// A key that is a field, matched by this kind.
fn field_spec(names: &Names14<'_>, kind: KeyKind, field: &Ref) -> Result<KeySpec, OutOfMemory>
    ensures { IfOk result (λ spec. spec ≡ record { kind = kind; width = bits_of_ref names.now field.now }) }
{
    let width = narrow_width(bits_of_ref(names, field))?;
    Ok(KeySpec { kind, width })
}

/// A key of a table: one of kind valid is one bit that is matched exactly.
fn key_spec(names: &Names14<'_>, read: &Read) -> Result<KeySpec, OutOfMemory>
    ensures { IfOk result (λ spec. spec ≡ key_spec names.now read.now) }
{
    match &read.key {
        ReadKey::Field(field) => field_spec(names, kind_named(read.kind.as_slice()), field),
        ReadKey::Instance(_) => Ok(KeySpec {
            kind: KeyKind::Exact,
            width: 1,
        }),
    }
}

/// The keys of a table that reads these, in order. The one error is want of memory.
pub fn key_specs(
    alloc: Global,
    names: &Names14<'_>,
    reads: &[Read],
) -> Result<Rows<KeySpec>, OutOfMemory>
    ensures { IfOk result (λ specs. specs ≡ map (key_spec names.now) reads.now) }
{
    let mut specs = Rows::new(alloc);
    for read in reads {
        specs.push(key_spec(names, read)?)?;
    }
    Ok(specs)
}
