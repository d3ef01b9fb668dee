// A table, and tables by their names.
ghost use Rattle.std.specs.Prelude.{◌≡◌, ◌^◌, ◌-◌, ◌++◌, min, map, filter_map, option_copied, option_to_list, IfOk, OnOk};
ghost use Rattle.p416_syntax.specs.Properties.{actions_of, keys_of};
ghost use Rattle.p416_syntax.specs.Tables.{table_plane};
ghost use Rattle.p416_scopes.specs.Seen.{seen_scope};
ghost use Rattle.v1_core.specs.Signatures.{in_order, table_size};
ghost use Rattle.p416_signature.specs.internal.Gathered.{key_in, objects_seen, sig_at, sig_in, sig_name, sig_with, sigs_in};

use crate::actions::action_sigs;
use crate::by_name::ByName;
use crate::keys::key_specs;
use crate::objects::Objects;
use crate::order::in_order;
use crate::shapes::plane_name;
use match_core::{ActionSig, KeySpec, TableSig};
use name_numbers::{Numbering, number_names};
use p4x_bits::{Numbers, OutOfMemory, Rows, Text};
use p416_scopes::Scope;
use p416_syntax::Table16;
use std::alloc::Global;

/// How many entries a table may have that gives no size.
const UNSIZED: u32 = 1_024;

/// A size as one of 32 bits, or the greatest of them.
fn capped(size: u128) -> u32
    ensures { result ≡ min (2 ^ 32 - 1) size }
{
    if size > 4_294_967_295 {
        u32::MAX
    } else {
        size as u32
    }
}

/// How many entries a table may have.
fn table_size(table: &Table16) -> u32
    ensures { result ≡ table_size table.now }
{
    match table.size() {
        Some(size) => capped(size.value),
        None => UNSIZED,
    }
}

/// The control-plane name of a table.
fn table_name(alloc: Global, table: &Table16) -> Result<Text, OutOfMemory>
    ensures { IfOk result (λ name. name ≡ table_plane table.now) }
{
    Text::from_slice(alloc, plane_name(table.notes.as_slice(), &table.name))
}

/// The keys of a table.
fn table_keys<'a>(
    alloc: Global,
    scope: &Scope<'_, 'a>,
    table: &'a Table16,
) -> Result<Rows<KeySpec>, OutOfMemory>
    ensures { IfOk result (λ keys. keys ≡ map (key_in (seen_scope scope.now)) (keys_of table.now.properties)) }
{
    key_specs(alloc, scope, table.keys())
}

/// The actions of a table.
fn table_actions<'a>(
    alloc: Global,
    scope: &Scope<'_, 'a>,
    table: &'a Table16,
) -> Result<Rows<ActionSig>, OutOfMemory>
    ensures { IfOk result (λ actions. actions ≡ sigs_in (seen_scope scope.now).names (actions_of table.now.properties)) }
{
    action_sigs(alloc, scope, table.actions())
}

/// A table of a control with this scope and these objects. The one error is want of memory.
#[tactic(auto, using(crate::proofs::Whole::made))]
pub fn table_sig<'a>(
    alloc: Global,
    scope: &Scope<'_, 'a>,
    own: &ByName<'a>,
    objects: &Objects<'a>,
    table: &'a Table16,
) -> Result<TableSig, OutOfMemory>
    ensures { IfOk result (λ made. made ≡ sig_in (seen_scope scope.now) (objects_seen own.now) objects.now table.now) }
{
    let keys = table_keys(alloc, scope, table)?;
    let actions = table_actions(alloc, scope, table)?;
    let direct = objects.direct(own, table)?;
    let name = table_name(alloc, table)?;
    Ok(TableSig {
        name,
        keys,
        actions,
        size: table_size(table),
        direct,
    })
}

/// An action once more.
fn action_again(alloc: Global, action: &ActionSig) -> Result<ActionSig, OutOfMemory>
    ensures { IfOk result (λ again. again ≡ action.now) }
{
    let name = Text::from_slice(alloc, action.name.as_slice())?;
    let widths = Numbers::from_slice(alloc, action.widths.as_slice())?;
    Ok(ActionSig { name, widths })
}

/// Actions once more.
fn actions_again(alloc: Global, actions: &[ActionSig]) -> Result<Rows<ActionSig>, OutOfMemory>
    ensures { IfOk result (λ again. again ≡ actions.now) }
{
    let mut again = Rows::new(alloc);
    for action in actions {
        again.push(action_again(alloc, action)?)?;
    }
    Ok(again)
}

/// A table once more.
fn table_again(alloc: Global, table: &TableSig) -> Result<TableSig, OutOfMemory>
    ensures { IfOk result (λ again. again ≡ table.now) }
{
    let name = Text::from_slice(alloc, table.name.as_slice())?;
    let keys = Rows::from_slice(alloc, table.keys.as_slice())?;
    let actions = actions_again(alloc, table.actions.as_slice())?;
    Ok(TableSig {
        name,
        keys,
        actions,
        size: table.size,
        direct: table.direct,
    })
}

/// The names of tables.
fn sig_names(alloc: Global, sigs: &[TableSig]) -> Result<Vec<&[u8]>, OutOfMemory>
    ensures { IfOk result (λ names. map (λ name. name.now) names.items ≡ map sig_name sigs.now) }
{
    let mut names = Vec::new(alloc);
    for sig in sigs {
        names.push(sig.name.as_slice())?;
    }
    Ok(names)
}

/// The first table with a name, where these are the names of the tables.
fn sig_at<'s>(sigs: &'s [TableSig], names: &Numbering<'_>, name: &[u8]) -> Option<&'s TableSig>
    ensures { option_copied result ≡ sig_at sigs.now names.now name.now }
{
    match names.find(name) {
        Some(place) => sigs.get(place as usize),
        None => None,
    }
}

/// Puts the first table with a name last once more, if there is one.
fn add_again(
    alloc: Global,
    found: &mut Rows<TableSig>,
    sigs: &[TableSig],
    names: &Numbering<'_>,
    name: &[u8],
) -> Result<(), OutOfMemory>
    ensures { OnOk result (found.new ≡ found.old ++ option_to_list (sig_at sigs.now names.now name.now)) }
{
    if let Some(sig) = sig_at(sigs, names, name) {
        found.push(table_again(alloc, sig)?)?;
    }
    Ok(())
}

/// The first tables with these names, in order, where the names of the tables are those others.
fn sigs_at(
    alloc: Global,
    sigs: &[TableSig],
    names: &Numbering<'_>,
    ordered: &[&[u8]],
) -> Result<Rows<TableSig>, OutOfMemory>
    ensures { IfOk result (λ tables. tables ≡ filter_map (sig_at sigs.now names.now) (map (λ name. name.now) ordered.now)) }
{
    let mut tables = Rows::new(alloc);
    for name in ordered {
        add_again(alloc, &mut tables, sigs, names, name)?;
    }
    Ok(tables)
}

/// Tables by the octet order of their names, of those with one name the first. The one error is want of memory.
#[tactic(auto, using(crate::proofs::Whole::ordered_are))]
pub fn by_names(alloc: Global, sigs: &[TableSig]) -> Result<Rows<TableSig>, OutOfMemory>
    ensures { IfOk result (λ tables. tables ≡ filter_map (sig_with sigs.now) (in_order (map sig_name sigs.now))) }
{
    let names = sig_names(alloc, sigs)?;
    let ordered = in_order(alloc, &names)?;
    let numbers = number_names(alloc, names)?;
    sigs_at(alloc, sigs, &numbers, &ordered)
}
