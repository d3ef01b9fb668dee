// The methods of counters, registers and meters.
ghost use Rattle.std.specs.Prelude.{◌≡◌, [], ◌∷◌, option_map, IfOk, OnOk};
ghost use Rattle.name_numbers.specs.Names.{find_name};
ghost use Rattle.p416_syntax.specs.Declarations.{layouts_of};
ghost use Rattle.p416_syntax.specs.Uses.{arguments_of};
ghost use Rattle.p416_scopes.specs.Seen.{seen_scope};
ghost use Rattle.v1_ready_blocks.specs.declared.externs.Extern.TheVariants as extern;
ghost use Rattle.v1_ready_blocks.specs.Statements.{does};
ghost use Rattle.v1_ready_program.specs.Seen.{seen_seats};
ghost use Rattle.v1_ready_nodes.specs.Held.{IsHeld, Grows};
ghost use Rattle.v1_ready_operands.specs.SeenStatements.{seen_statement, IsStatementIn};
ghost use Rattle.v1_ready_operands.specs.Objects.{count_by, count_entry_by, read_by, write_by, meter_by};

use name_numbers::Numbering;
use p4x_bits::OutOfMemory;
use p416_calls::Place;
use p416_names::Kind;
use p416_syntax::ExpView;
use std::alloc::Global;
use v1_ready_blocks::{Extern, Target};
use v1_ready_nodes::ReadyNodes;
use v1_ready_operands::{next_argument, one_value, put_execute, target_given};
use v1_ready_program::Around;
use v1_ready_tests::{arguments_in, no_arguments, value_before};

/// A counter that counts the packet's length, where that has a slot.
fn counted(object: u32, slot: Option<u32>) -> Option<Extern>
    ensures { result ≡ option_map (λ x. extern.Count object x) slot }
{
    match slot {
        Some(slot) => Some(Extern::Count(object, slot)),
        None => None,
    }
}

/// A direct counter that counts the packet's length, where that has a slot.
fn entry_counted(object: u32, slot: Option<u32>) -> Option<Extern>
    ensures { result ≡ option_map (λ x. extern.CountEntry object x) slot }
{
    match slot {
        Some(slot) => Some(Extern::CountEntry(object, slot)),
        None => None,
    }
}

/// A register that is read to a target, where there is one.
fn read_to(object: u32, to: Option<Target>) -> Option<Extern>
    ensures { result ≡ option_map (λ x. extern.Read object x) to }
{
    match to {
        Some(to) => Some(Extern::Read(object, to)),
        None => None,
    }
}

/// A meter whose colour goes to a target, where there is one.
fn meter_to(object: u32, to: Option<Target>) -> Option<Extern>
    ensures { result ≡ option_map (λ x. extern.ExecuteMeter object x) to }
{
    match to {
        Some(to) => Some(Extern::ExecuteMeter(object, to)),
        None => None,
    }
}

/// `count` with this argument.
fn count_of<'a>(
    alloc: Global,
    nodes: &mut ReadyNodes<'_>,
    around: Around<'_, 'a>,
    tables: &Numbering<'_>,
    slot: Option<u32>,
    object: u32,
    index: &ExpView<'a>,
) -> Result<Option<usize>, OutOfMemory>
    requires held { IsHeld nodes.old }
    requires types { around.types.now ≡ layouts_of around.scope.now.top.now }
    ensures statement { IfOk result (λ found. seen_statement nodes.new found ≡ option_map does (count_by (seen_scope around.entry.scope.now) (seen_seats around.entry.seats.now) (find_name tables.now) slot object (index.now ∷ []))) }
    ensures within { IfOk result (IsStatementIn nodes.new) }
    ensures grows { OnOk result (Grows nodes.old nodes.new) }
{
    let place = Place::Value(Kind::Bits(32));
    let rest = one_value(alloc, nodes, around, tables, place, index)?;
    let statement = put_execute(nodes, counted(object, slot), rest)?;
    Ok(statement)
}

/// `c.count(i)` of the counter with this number, where `packet_length` has this slot: the place of the statement, which is put behind
/// the others; none exactly where an argument is none of what its place asks for. Errors as those of `ready_test`, and for too few
/// arguments.
pub fn ready_count<'a>(
    alloc: Global,
    nodes: &mut ReadyNodes<'_>,
    around: Around<'_, 'a>,
    tables: &Numbering<'_>,
    slot: Option<u32>,
    object: u32,
    given: &ExpView<'a>,
) -> Result<Option<usize>, OutOfMemory>
    requires held { IsHeld nodes.old }
    requires types { around.types.now ≡ layouts_of around.scope.now.top.now }
    ensures statement { IfOk result (λ found. seen_statement nodes.new found ≡ option_map does (count_by (seen_scope around.entry.scope.now) (seen_seats around.entry.seats.now) (find_name tables.now) slot object (arguments_of given.now))) }
    ensures within { IfOk result (IsStatementIn nodes.new) }
    ensures grows { OnOk result (Grows nodes.old nodes.new) }
{
    let mut arguments = arguments_in(alloc, given)?;
    let index = next_argument(&mut arguments)?;
    let statement = count_of(alloc, nodes, around, tables, slot, object, &index)?;
    Ok(statement)
}

/// `d.count()` of the direct counter with this number; as `ready_count`.
pub fn ready_count_entry(
    nodes: &mut ReadyNodes<'_>,
    slot: Option<u32>,
    object: u32,
) -> Result<Option<usize>, OutOfMemory>
    requires held { IsHeld nodes.old }
    ensures statement { IfOk result (λ found. seen_statement nodes.new found ≡ option_map does (count_entry_by slot object)) }
    ensures within { IfOk result (IsStatementIn nodes.new) }
    ensures grows { OnOk result (Grows nodes.old nodes.new) }
{
    let none = no_arguments(nodes)?;
    let statement = put_execute(nodes, entry_counted(object, slot), none)?;
    Ok(statement)
}

/// `read` with these arguments.
fn read_of<'a>(
    alloc: Global,
    nodes: &mut ReadyNodes<'_>,
    around: Around<'_, 'a>,
    tables: &Numbering<'_>,
    object: u32,
    to: &ExpView<'a>,
    index: &ExpView<'a>,
) -> Result<Option<usize>, OutOfMemory>
    requires held { IsHeld nodes.old }
    requires types { around.types.now ≡ layouts_of around.scope.now.top.now }
    ensures statement { IfOk result (λ found. seen_statement nodes.new found ≡ option_map does (read_by (seen_scope around.entry.scope.now) (seen_seats around.entry.seats.now) (find_name tables.now) object (to.now ∷ index.now ∷ []))) }
    ensures within { IfOk result (IsStatementIn nodes.new) }
    ensures grows { OnOk result (Grows nodes.old nodes.new) }
{
    let target = target_given(alloc, around, to)?;
    let place = Place::Value(Kind::Bits(32));
    let rest = one_value(alloc, nodes, around, tables, place, index)?;
    let statement = put_execute(nodes, read_to(object, target), rest)?;
    Ok(statement)
}

/// `r.read(v, i)` of the register with this number; as `ready_count`.
pub fn ready_read<'a>(
    alloc: Global,
    nodes: &mut ReadyNodes<'_>,
    around: Around<'_, 'a>,
    tables: &Numbering<'_>,
    object: u32,
    given: &ExpView<'a>,
) -> Result<Option<usize>, OutOfMemory>
    requires held { IsHeld nodes.old }
    requires types { around.types.now ≡ layouts_of around.scope.now.top.now }
    ensures statement { IfOk result (λ found. seen_statement nodes.new found ≡ option_map does (read_by (seen_scope around.entry.scope.now) (seen_seats around.entry.seats.now) (find_name tables.now) object (arguments_of given.now))) }
    ensures within { IfOk result (IsStatementIn nodes.new) }
    ensures grows { OnOk result (Grows nodes.old nodes.new) }
{
    let mut arguments = arguments_in(alloc, given)?;
    let to = next_argument(&mut arguments)?;
    let index = next_argument(&mut arguments)?;
    let statement = read_of(alloc, nodes, around, tables, object, &to, &index)?;
    Ok(statement)
}

/// `write` with these arguments.
fn write_of<'a>(
    alloc: Global,
    nodes: &mut ReadyNodes<'_>,
    around: Around<'_, 'a>,
    tables: &Numbering<'_>,
    object: u32,
    index: &ExpView<'a>,
    number: &ExpView<'a>,
) -> Result<Option<usize>, OutOfMemory>
    requires held { IsHeld nodes.old }
    requires types { around.types.now ≡ layouts_of around.scope.now.top.now }
    ensures statement { IfOk result (λ found. seen_statement nodes.new found ≡ option_map does (write_by (seen_scope around.entry.scope.now) (seen_seats around.entry.seats.now) (find_name tables.now) object (index.now ∷ number.now ∷ []))) }
    ensures within { IfOk result (IsStatementIn nodes.new) }
    ensures grows { OnOk result (Grows nodes.old nodes.new) }
{
    let end = one_value(alloc, nodes, around, tables, Place::AnyBits, number)?;
    let place = Place::Value(Kind::Bits(32));
    let rest = value_before(alloc, nodes, around, tables, place, index, end)?;
    let statement = put_execute(nodes, Some(Extern::Write(object)), rest)?;
    Ok(statement)
}

/// `r.write(i, v)` of the register with this number; as `ready_count`.
pub fn ready_write<'a>(
    alloc: Global,
    nodes: &mut ReadyNodes<'_>,
    around: Around<'_, 'a>,
    tables: &Numbering<'_>,
    object: u32,
    given: &ExpView<'a>,
) -> Result<Option<usize>, OutOfMemory>
    requires held { IsHeld nodes.old }
    requires types { around.types.now ≡ layouts_of around.scope.now.top.now }
    ensures statement { IfOk result (λ found. seen_statement nodes.new found ≡ option_map does (write_by (seen_scope around.entry.scope.now) (seen_seats around.entry.seats.now) (find_name tables.now) object (arguments_of given.now))) }
    ensures within { IfOk result (IsStatementIn nodes.new) }
    ensures grows { OnOk result (Grows nodes.old nodes.new) }
{
    let mut arguments = arguments_in(alloc, given)?;
    let index = next_argument(&mut arguments)?;
    let number = next_argument(&mut arguments)?;
    let statement = write_of(alloc, nodes, around, tables, object, &index, &number)?;
    Ok(statement)
}

/// `execute_meter` with these arguments.
fn meter_of<'a>(
    alloc: Global,
    nodes: &mut ReadyNodes<'_>,
    around: Around<'_, 'a>,
    tables: &Numbering<'_>,
    object: u32,
    index: &ExpView<'a>,
    to: &ExpView<'a>,
) -> Result<Option<usize>, OutOfMemory>
    requires held { IsHeld nodes.old }
    requires types { around.types.now ≡ layouts_of around.scope.now.top.now }
    ensures statement { IfOk result (λ found. seen_statement nodes.new found ≡ option_map does (meter_by (seen_scope around.entry.scope.now) (seen_seats around.entry.seats.now) (find_name tables.now) object (index.now ∷ to.now ∷ []))) }
    ensures within { IfOk result (IsStatementIn nodes.new) }
    ensures grows { OnOk result (Grows nodes.old nodes.new) }
{
    let target = target_given(alloc, around, to)?;
    let place = Place::Value(Kind::Bits(32));
    let rest = one_value(alloc, nodes, around, tables, place, index)?;
    let statement = put_execute(nodes, meter_to(object, target), rest)?;
    Ok(statement)
}

/// `m.execute_meter(i, v)` of the meter with this number; as `ready_count`.
pub fn ready_meter<'a>(
    alloc: Global,
    nodes: &mut ReadyNodes<'_>,
    around: Around<'_, 'a>,
    tables: &Numbering<'_>,
    object: u32,
    given: &ExpView<'a>,
) -> Result<Option<usize>, OutOfMemory>
    requires held { IsHeld nodes.old }
    requires types { around.types.now ≡ layouts_of around.scope.now.top.now }
    ensures statement { IfOk result (λ found. seen_statement nodes.new found ≡ option_map does (meter_by (seen_scope around.entry.scope.now) (seen_seats around.entry.seats.now) (find_name tables.now) object (arguments_of given.now))) }
    ensures within { IfOk result (IsStatementIn nodes.new) }
    ensures grows { OnOk result (Grows nodes.old nodes.new) }
{
    let mut arguments = arguments_in(alloc, given)?;
    let index = next_argument(&mut arguments)?;
    let to = next_argument(&mut arguments)?;
    let statement = meter_of(alloc, nodes, around, tables, object, &index, &to)?;
    Ok(statement)
}
