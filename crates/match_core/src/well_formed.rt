// Whether a signature is well formed.
ghost use Rattle.std.specs.Prelude.{◌≡◌, ℕ, ◌^◌, ◌<◌, ◌≤◌, ◌↔◌, length, All, IfOk, IfSome, IsTrue};
ghost use Rattle.std.specs.List.{AllPairs};
ghost use Rattle.match_core.specs.Signatures.{IsWidth, most_keys, is_lpm, AreSpecs, ComesBefore, AreActions, IsObject, AreObjects, IsDirectAt, IsTable, ShareNone, IsSignature};

use crate::signatures::{ActionSig, KeyKind, KeySpec, ObjectSig, Signature, TableSig};
use p4x_bits::OutOfMemory;
use state_store::Shape;
use std::alloc::Global;
use std::cmp::Ordering;
use std::collections::BTreeSet;

/// How many keys a table can have. (This project's own.)
pub const MOST_KEYS: usize = 64;

/// What has a control-plane name.
trait Named {
    ghost use Rattle.std.specs.Prelude.{◌≡◌, ℕ, List};

    ghost named: { Self → List ℕ };

    /// Its name.
    fn name(&self) -> &[u8]
        ensures { result.now ≡ named self.now };
}

impl Named for TableSig {
    ghost named = { λ table. table.name };

    fn name(&self) -> &[u8] {
        self.name.as_slice()
    }
}

impl Named for ActionSig {
    ghost named = { λ action. action.name };

    fn name(&self) -> &[u8] {
        self.name.as_slice()
    }
}

impl Named for ObjectSig {
    ghost named = { λ object. object.name };

    fn name(&self) -> &[u8] {
        self.name.as_slice()
    }
}

/// Whether a name stands before another in the order of their octets.
fn comes_before(name: &[u8], other: &[u8]) -> bool
    ensures { IsTrue result ↔ ComesBefore name.now other.now }
{
    match name.cmp(&other) {
        Ordering::Less => true,
        _ => false,
    }
}

/// Whether these stand in the order of their names, each of which stands once.
fn are_in_order<T: Named>(items: &[T]) -> bool
    ensures { IsTrue result ↔ AllPairs (λ a b. ComesBefore (T.named a) (T.named b)) items.now }
{
    for i in 1..items.len() {
        if !comes_before(items[i - 1].name(), items[i].name()) {
            return false;
        }
    }
    true
}

/// A number of 32 bits, as it is.
fn number(number: u32) -> u32
    ensures same { result ≡ number }
    ensures fits { result < 2 ^ 32 }
{
    number
}

fn is_width(width: u128) -> bool
    ensures { IsTrue result ↔ IsWidth width }
{
    1 <= width && width <= 128
}

/// Whether a key of the table is of the kind `lpm`.
pub fn is_lpm(kind: KeyKind) -> bool
    ensures { result ≡ is_lpm kind }
{
    match kind {
        KeyKind::Lpm => true,
        _ => false,
    }
}

fn have_widths(specs: &[KeySpec]) -> bool
    ensures { IsTrue result ↔ All (λ spec. IsWidth spec.width) specs.now }
{
    specs.iter().all(|spec| is_width(u128::from(spec.width)))
}

/// Whether a table can have these keys: each has 1 to 128 bits, and one at most is lpm.
pub fn are_specs(specs: &[KeySpec]) -> bool
    ensures { IsTrue result ↔ AreSpecs specs.now }
{
    let prefixes = specs.iter().filter(|spec| is_lpm(spec.kind)).count();
    have_widths(specs) && prefixes <= 1
}

fn are_widths(widths: &[u128]) -> bool
    ensures { IsTrue result ↔ All IsWidth widths.now }
{
    widths.iter().all(|width| is_width(*width))
}

fn have_parameters(actions: &[ActionSig]) -> bool
    ensures { IsTrue result ↔ All (λ action. All IsWidth action.widths) actions.now }
{
    actions
        .iter()
        .all(|action| are_widths(action.widths.as_slice()))
}

/// Whether a table can have these actions.
fn are_actions(actions: &[ActionSig]) -> bool
    ensures { IsTrue result ↔ AreActions actions.now }
{
    actions.len() <= u32::MAX as usize && have_parameters(actions) && are_in_order(actions)
}

fn is_object(shape: Shape) -> bool
    ensures { IsTrue result ↔ IsObject shape }
{
    match shape {
        Shape::Direct { cells, .. } => cells == 0,
        Shape::Register { width, .. } => is_width(u128::from(width)),
        Shape::Counter { .. } | Shape::Meter { .. } => true,
    }
}

fn have_shapes(objects: &[ObjectSig]) -> bool
    ensures { IsTrue result ↔ All (λ object. IsObject object.shape) objects.now }
{
    objects.iter().all(|object| is_object(object.shape))
}

/// Whether a program can have these objects.
fn are_objects(objects: &[ObjectSig]) -> bool
    ensures { IsTrue result ↔ AreObjects objects.now }
{
    objects.len() <= u32::MAX as usize && have_shapes(objects) && are_in_order(objects)
}

/// Whether a direct counter stands at this number among the objects, where there is a number.
fn is_direct(objects: &[ObjectSig], direct: Option<u32>) -> bool
    ensures { IsTrue result ↔ IfSome direct (IsDirectAt objects.now) }
{
    let Some(object) = direct else {
        return true;
    };
    if object as usize >= objects.len() {
        return false;
    }
    match objects[object as usize].shape {
        Shape::Direct { .. } => true,
        _ => false,
    }
}

/// Whether a program with these objects can have this table.
fn is_table(objects: &[ObjectSig], table: &TableSig) -> bool
    ensures { IsTrue result ↔ IsTable objects.now table.now }
{
    let _size = number(table.size);
    table.keys.len() <= MOST_KEYS
        && are_specs(table.keys.as_slice())
        && are_actions(table.actions.as_slice())
        && is_direct(objects, table.direct)
}

fn are_tables(objects: &[ObjectSig], tables: &[TableSig]) -> bool
    ensures { IsTrue result ↔ All (IsTable objects.now) tables.now }
{
    tables.iter().all(|table| is_table(objects, table))
}

/// Whether each direct counter belongs to one table at most.
fn share_none(alloc: Global, tables: &[TableSig]) -> Result<bool, OutOfMemory>
    ensures { IfOk result (λ alone. IsTrue alone ↔ AllPairs ShareNone tables.now) }
{
    let mut seen = BTreeSet::new(alloc);
    for i in 0..tables.len() {
        if let Some(object) = tables[i].direct {
            if !seen.insert(object)? {
                return Ok(false);
            }
        }
    }
    Ok(true)
}

impl Signature {
    /// Whether the signature is well formed: its tables, its objects and the actions of each table stand in the octet
    /// order of their names, each of which stands once; keys, parameters and registers have 1 to 128 bits; a table has
    /// at most `MOST_KEYS` keys, and one lpm key; a table's direct counter is one and belongs to it alone; and a direct
    /// counter has 0 cells. The one error is want of memory. It takes n log n steps.
    pub fn is_well_formed(&self, alloc: Global) -> Result<bool, OutOfMemory>
        ensures { IfOk result (λ formed. IsTrue formed ↔ IsSignature self.now) }
    {
        let tables = self.tables.as_slice();
        let objects = self.objects.as_slice();
        let alone = share_none(alloc, tables)?;
        Ok(
            alone
                && tables.len() <= u32::MAX as usize
                && are_in_order(tables)
                && are_objects(objects)
                && are_tables(objects, tables),
        )
    }
}
