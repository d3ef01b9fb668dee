// C11, C12 and C24: keys and default actions of tables.
ghost use Rattle.std.specs.Prelude.{◌≡◌, false, length, count_by, cond, nat_lt, codes, option_copied};
ghost use Rattle.std.specs.List.{list_any};
ghost use Rattle.std.specs.Option.{option_map_or};
ghost use Rattle.std.specs.Str.{bytes_eq};
ghost use Rattle.p414_syntax.specs.Names.{has_name};
ghost use Rattle.p414_syntax.specs.Arguments.{action_in, action_of};
ghost use Rattle.p414_syntax.specs.Tables.{table_in, tables, field_kinds, is_header_key, is_field_key, is_bad_key, has_bad_keys, has_bad_key, is_lpm_key, has_two_prefixes, has_two_lpm_keys, argument_count, takes_other_count, is_bad_default, defaults_badly, has_bad_default};

use p4x_bits::{Rows, Text};
use p414_names::{Names14, is_among};
use p414_syntax::{Action, Decl, Number, Read, ReadKey, Sort, Table};

/// How many keys a table has at most.
const MOST_KEYS: usize = 64;

/// How many lpm keys a table has at most.
const MOST_PREFIXES: u32 = 1;

/// The kinds by which a field is matched.
const FIELD_KINDS: [&[u8]; 4] = [b"exact", b"ternary", b"lpm", b"range"];

/// Whether a kind is `valid`.
fn is_valid(kind: &[u8]) -> bool
    ensures { result ≡ bytes_eq kind.now (codes "valid") }
{
    kind == b"valid".as_slice()
}

/// Whether a kind is one by which a field is matched.
fn is_field_kind(kind: &[u8]) -> bool
    ensures { result ≡ has_name field_kinds kind.now }
{
    is_among(kind, &FIELD_KINDS)
}

/// Whether a key is a header.
fn is_header_key(names: &Names14<'_>, key: &ReadKey) -> bool
    ensures { result ≡ is_header_key names.now key.now }
{
    match key {
        ReadKey::Instance(instance) => names.is_header(instance.name.as_slice()),
        ReadKey::Field(_) => false,
    }
}

/// Whether a key is a field.
fn is_field_key(key: &ReadKey) -> bool
    ensures { result ≡ is_field_key key.now }
{
    matches!(key, ReadKey::Field(_))
}

/// Whether a key has a kind that it may not have.
fn is_bad_key(names: &Names14<'_>, read: &Read) -> bool
    ensures { result ≡ is_bad_key names.now read.now }
{
    if is_valid(read.kind.as_slice()) {
        !is_header_key(names, &read.key) || read.mask.is_some()
    } else {
        !is_field_key(&read.key) || !is_field_kind(read.kind.as_slice())
    }
}

/// Whether one of these keys has such a kind.
fn some_bad_key(names: &Names14<'_>, reads: &[Read]) -> bool
    ensures { result ≡ list_any (is_bad_key names.now) reads.now }
{
    for read in reads {
        if is_bad_key(names, read) {
            return true;
        }
    }
    false
}

/// Whether there are over 64 keys.
fn are_too_many(reads: &[Read]) -> bool
    ensures { result ≡ nat_lt 64 (length reads.now) }
{
    reads.len() > MOST_KEYS
}

/// Whether a table has a bad key, or too many.
fn has_bad_keys(names: &Names14<'_>, table: &Table) -> bool
    ensures { result ≡ has_bad_keys names.now table.now }
{
    let reads = table.reads();
    some_bad_key(names, reads) || are_too_many(reads)
}

/// Whether a declaration is such a table.
fn declares_bad_keys(names: &Names14<'_>, decl: &Decl) -> bool
    ensures { result ≡ option_map_or (has_bad_keys names.now) (table_in decl.now) false }
{
    match decl {
        Decl::Table(declared) => has_bad_keys(names, declared),
        _ => false,
    }
}

/// Whether one of these declarations is such a table.
fn some_bad_keys(names: &Names14<'_>, decls: &[Decl]) -> bool
    ensures { result ≡ list_any (has_bad_keys names.now) (tables decls.now) }
{
    for decl in decls {
        if declares_bad_keys(names, decl) {
            return true;
        }
    }
    false
}

/// Whether C11 is broken. Its time is proportional to the program.
pub fn has_bad_key(names: &Names14<'_>) -> bool
    ensures { result ≡ has_bad_key names.now }
{
    some_bad_keys(names, names.decls())
}

/// Whether a key is of the kind `lpm`.
fn is_lpm_key(read: &Read) -> bool
    ensures { result ≡ is_lpm_key read.now }
{
    read.kind.as_slice() == b"lpm".as_slice()
}

/// One where it is so.
fn one_if(is_so: bool) -> u32
    ensures { result ≡ cond is_so 1 0 }
{
    if is_so { 1 } else { 0 }
}

/// Whether over one of these keys is of the kind `lpm`.
fn some_two_prefixes(reads: &[Read]) -> bool
    ensures { result ≡ nat_lt 1 (count_by is_lpm_key reads.now) }
{
    let mut total = 0;
    for read in reads {
        let more = one_if(is_lpm_key(read));
        if more > MOST_PREFIXES - total {
            return true;
        }
        total += more;
    }
    false
}

/// Whether a table has two lpm keys.
fn has_two_prefixes(table: &Table) -> bool
    ensures { result ≡ has_two_prefixes table.now }
{
    some_two_prefixes(table.reads())
}

/// Whether a declaration is such a table.
fn declares_two_prefixes(decl: &Decl) -> bool
    ensures { result ≡ option_map_or has_two_prefixes (table_in decl.now) false }
{
    match decl {
        Decl::Table(declared) => has_two_prefixes(declared),
        _ => false,
    }
}

/// Whether one of these declarations is such a table.
fn two_lpm_keys_in(decls: &[Decl]) -> bool
    ensures { result ≡ has_two_lpm_keys decls.now }
{
    for decl in decls {
        if declares_two_prefixes(decl) {
            return true;
        }
    }
    false
}

/// Whether C12 is broken. Its time is proportional to the program.
pub fn has_two_lpm_keys(names: &Names14<'_>) -> bool
    ensures { result ≡ has_two_lpm_keys names.now }
{
    two_lpm_keys_in(names.decls())
}

/// The action in a declaration.
fn action_in(decl: &Decl) -> Option<&Action>
    ensures { option_copied result ≡ action_in decl.now }
{
    match decl {
        Decl::Action(declared) => Some(declared),
        _ => None,
    }
}

/// The action with a name; none where it is no declared action.
#[tactic(auto, using(crate::proofs::ActionNames::same_action))]
fn action_of<'a>(names: &Names14<'a>, name: &[u8]) -> Option<&'a Action>
    ensures { option_copied result ≡ action_of names.now name.now }
{
    match names.declaration_of(Sort::Action, name) {
        Some(decl) => action_in(decl),
        None => None,
    }
}

/// How many arguments a default action is given; none where no parentheses stand.
fn argument_count(arguments: Option<&Rows<Number>>) -> usize
    ensures { result ≡ argument_count (option_copied arguments.entry) }
{
    match arguments {
        Some(arguments) => arguments.as_slice().len(),
        None => 0,
    }
}

/// Whether an action has another number of parameters.
fn takes_other_count(given: usize, action: &Action) -> bool
    ensures { result ≡ takes_other_count given action.now }
{
    action.parameters.as_slice().len() != given
}

/// Whether the action of a name has another number of parameters.
fn is_given_other_count(names: &Names14<'_>, given: usize, name: &[u8]) -> bool
    ensures { result ≡ option_map_or (takes_other_count given) (action_of names.now name.now) false }
{
    match action_of(names, name) {
        Some(action) => takes_other_count(given, action),
        None => false,
    }
}

/// Whether a name stands among these.
fn is_listed(listed: &[Text], name: &[u8]) -> bool
    ensures { result ≡ has_name listed.now name.now }
{
    for known in listed {
        if name == known.as_slice() {
            return true;
        }
    }
    false
}

/// Whether a table may not have this default action.
fn is_bad_default(names: &Names14<'_>, table: &Table, name: &[u8]) -> bool
    ensures { result ≡ is_bad_default names.now table.now name.now }
{
    !is_listed(table.actions(), name)
        || is_given_other_count(names, argument_count(table.default_arguments()), name)
}

/// Whether a table has a default action that it may not have.
fn defaults_badly(names: &Names14<'_>, table: &Table) -> bool
    ensures { result ≡ defaults_badly names.now table.now }
{
    match table.default_action() {
        Some(name) => is_bad_default(names, table, name.as_slice()),
        None => false,
    }
}

/// Whether a declaration is such a table.
fn declares_bad_default(names: &Names14<'_>, decl: &Decl) -> bool
    ensures { result ≡ option_map_or (defaults_badly names.now) (table_in decl.now) false }
{
    match decl {
        Decl::Table(declared) => defaults_badly(names, declared),
        _ => false,
    }
}

/// Whether one of these declarations is such a table.
fn some_bad_default(names: &Names14<'_>, decls: &[Decl]) -> bool
    ensures { result ≡ list_any (defaults_badly names.now) (tables decls.now) }
{
    for decl in decls {
        if declares_bad_default(names, decl) {
            return true;
        }
    }
    false
}

/// Whether C24 is broken. Its time is proportional to the program.
pub fn has_bad_default(names: &Names14<'_>) -> bool
    ensures { result ≡ has_bad_default names.now }
{
    some_bad_default(names, names.decls())
}
