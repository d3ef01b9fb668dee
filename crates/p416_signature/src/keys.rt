// The keys of a table.
ghost use Rattle.std.specs.Prelude.{◌≡◌, List, map, IfOk};
ghost use Rattle.p416_names.specs.SeenKinds.{seen_kind};
ghost use Rattle.p416_syntax.specs.Scopes.{Known};
ghost use Rattle.p416_syntax.specs.Expressions.{kind_of};
ghost use Rattle.p416_syntax.specs.Totals.{bits_in};
ghost use Rattle.p416_scopes.specs.Seen.{seen_scope};
ghost use Rattle.p416_typing.specs.Seen.{seen_row};
ghost use Rattle.v1_core.specs.Signatures.{kind_named, key_width};
ghost use Rattle.p416_signature.specs.internal.Firsts.{kind_first};
ghost use Rattle.p416_signature.specs.internal.Gathered.{key_in};

use crate::shapes::narrow_width;
use match_core::{KeyKind, KeySpec};
use p4x_bits::{OutOfMemory, Rows};
use p416_names::Kind;
use p416_scopes::Scope;
use p416_syntax::{Exp, TableKey};
use p416_typing::{Row, typed_expression};
use std::alloc::Global;
use work_stack::Stack;

const TERNARY: &[u8] = b"ternary";

const LPM: &[u8] = b"lpm";

const RANGE: &[u8] = b"range";

/// The match kind with a name.
fn kind_named(name: &[u8]) -> KeyKind
    ensures { result ≡ kind_named name.now }
{
    if name == TERNARY {
        KeyKind::Ternary
    } else if name == LPM {
        KeyKind::Lpm
    } else if name == RANGE {
        KeyKind::Range
    } else {
        KeyKind::Exact
    }
}

/// How many bits a value has that is bits; else 0.
pub fn bits_in(kind: Kind<'_>) -> u128
    ensures { result ≡ bits_in (seen_kind kind.entry) }
{
    match kind {
        Kind::Bits(width) => width,
        _ => 0,
    }
}

/// How wide a key is; a truth value is one bit.
fn key_width(kind: Kind<'_>) -> u128
    ensures { result ≡ key_width (seen_kind kind.entry) }
{
    match kind {
        Kind::Boolean => 1,
        _ => bits_in(kind),
    }
}

/// What the first of these rows tells of its expression; unknown where there is none.
fn first_kind<'a>(rows: &mut Stack<Row<'a>>) -> Kind<'a>
    ensures { (top : List Known) → seen_kind result ≡ kind_first (map (seen_row top) rows.old) }
{
    match rows.pop() {
        Some(row) => row.kind,
        None => Kind::Unknown,
    }
}

/// What an expression is.
fn kind_of<'a>(alloc: Global, scope: &Scope<'_, 'a>, exp: &'a Exp) -> Result<Kind<'a>, OutOfMemory>
    ensures { IfOk result (λ kind. seen_kind kind ≡ kind_of (seen_scope scope.now) exp.now) }
{
    let mut typed = typed_expression(alloc, scope, &exp.view())?;
    Ok(first_kind(&mut typed.rows))
}

/// A key of a table in a scope.
fn key_spec<'a>(
    alloc: Global,
    scope: &Scope<'_, 'a>,
    key: &'a TableKey,
) -> Result<KeySpec, OutOfMemory>
    ensures { IfOk result (λ spec. spec ≡ key_in (seen_scope scope.now) key.now) }
{
    let width = narrow_width(key_width(kind_of(alloc, scope, &key.exp)?))?;
    Ok(KeySpec {
        kind: kind_named(key.kind.as_slice()),
        width,
    })
}

/// The keys of a table in a scope, in order. The one error is want of memory.
pub fn key_specs<'a>(
    alloc: Global,
    scope: &Scope<'_, 'a>,
    keys: &'a [TableKey],
) -> Result<Rows<KeySpec>, OutOfMemory>
    ensures { IfOk result (λ specs. specs ≡ map (key_in (seen_scope scope.now)) keys.now) }
{
    let mut specs = Rows::new(alloc);
    for key in keys {
        specs.push(key_spec(alloc, scope, key)?)?;
    }
    Ok(specs)
}
