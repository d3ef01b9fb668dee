// The keys of tables (P4_16 1.2, "Tables"; `v1model.p4`; how many there may be is this project's own).
ghost use Rattle.std.specs.Prelude.{◌≡◌, map, count_by};
ghost use Rattle.std.specs.List.{list_any};
ghost use Rattle.p416_syntax.specs.Names.{has_name};
ghost use Rattle.p416_syntax.specs.Tables.{is_bad_key, is_prefix_key, has_bad_keys};

use p416_syntax::TableKey;

const EXACT: &[u8] = b"exact";

const TERNARY: &[u8] = b"ternary";

const PREFIX: &[u8] = b"lpm";

const RANGE: &[u8] = b"range";

/// How many keys a table may have.
const MOST_KEYS: usize = 64;

/// Whether a key has no match kind of these.
fn is_bad_key(key: &TableKey) -> bool
    ensures { result ≡ is_bad_key key.now }
{
    let kind = key.kind.as_slice();
    !(kind == EXACT || kind == TERNARY || kind == PREFIX || kind == RANGE)
}

/// Whether a key matches the longest prefix.
fn is_prefix_key(key: &TableKey) -> bool
    ensures { result ≡ is_prefix_key key.now }
{
    key.kind.as_slice() == PREFIX
}

/// Whether one of these keys has no match kind.
fn some_bad_key(keys: &[TableKey]) -> bool
    ensures { result ≡ list_any is_bad_key keys.now }
{
    for key in keys {
        if is_bad_key(key) {
            return true;
        }
    }
    false
}

/// How many of these keys match the longest prefix.
fn count_prefix_keys(keys: &[TableKey]) -> usize
    ensures { result ≡ count_by is_prefix_key keys.now }
{
    let mut count = 0;
    for key in keys {
        if is_prefix_key(key) {
            count += 1;
        }
    }
    count
}

/// Whether a key of a table has no match kind of these, two of them match the longest prefix, or there are over 64: what T9
/// asks of keys, exactly. In time linear in the keys.
pub fn has_bad_keys(keys: &[TableKey]) -> bool
    ensures { result ≡ has_bad_keys keys.now }
{
    some_bad_key(keys) || count_prefix_keys(keys) > 1 || keys.len() > MOST_KEYS
}
