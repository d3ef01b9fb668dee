// `mark_to_drop` (`v1model.p4`).
ghost use Rattle.std.specs.Prelude.{◌≡◌, Some, option_map, option_and_then, codes, IfOk, OnOk};
ghost use Rattle.p416_syntax.specs.Declarations.{layouts_of};
ghost use Rattle.p416_scopes.specs.Seen.{seen_scope};
ghost use Rattle.v1_core.specs.Values.{to_member};
ghost use Rattle.v1_ready_forms.specs.Spots.{spot_behind};
ghost use Rattle.v1_ready_blocks.specs.declared.externs.Extern.TheVariants as extern;
ghost use Rattle.v1_ready_blocks.specs.Statements.{does};
ghost use Rattle.v1_place_laws.specs.Places.{behind_meant};
ghost use Rattle.v1_ready_program.specs.Seen.{seen_seats};
ghost use Rattle.v1_ready_places.specs.Seen.{seen_meant};
ghost use Rattle.v1_ready_nodes.specs.Held.{IsHeld, Grows};
ghost use Rattle.v1_ready_statements.specs.Targets.{target_of};
ghost use Rattle.v1_ready_operands.specs.SeenStatements.{seen_statement, IsStatementIn};
ghost use Rattle.v1_ready_operands.specs.Functions.{slot_in, field_slot_by, drop_by};

use p4x_bits::OutOfMemory;
use p416_syntax::ExpView;
use std::alloc::Global;
use v1_ready_blocks::{Extern, Target};
use v1_ready_nodes::ReadyNodes;
use v1_ready_operands::put_execute;
use v1_ready_places::{Meant, ready_place, target_of, whole};
use v1_ready_program::Around;
use v1_ready_program::spots::member;
use v1_ready_tests::no_arguments;
use v1_seats::TypeTable;

const EGRESS_SPEC: &[u8] = b"egress_spec";

/// The slot of a target, where there is one.
fn slot_in(target: Option<Target>) -> Option<u32>
    ensures { result ≡ option_map slot_in target }
{
    match target {
        Some(target) => Some(target.slot),
        None => None,
    }
}

/// The target that is meant, if anything is.
fn target_in(meant: Option<Meant<'_>>) -> Option<Target>
    ensures { result ≡ option_and_then target_of (option_map seen_meant meant.entry) }
{
    match meant {
        Some(meant) => target_of(meant),
        None => None,
    }
}

/// The field of this name of what is meant. A slice has none.
fn field_in<'a>(
    types: &TypeTable<'_, 'a>,
    meant: Meant<'a>,
    word: &[u8],
) -> Result<Option<Meant<'a>>, OutOfMemory>
    ensures { IfOk result (λ found. option_map seen_meant found ≡ behind_meant (spot_behind types.now (to_member word.now)) (Some (seen_meant meant.entry))) }
{
    match meant.slice {
        Some(_) => Ok(None),
        None => {
            let part = member(types, meant.spot, word)?;
            Ok(whole(part))
        }
    }
}

/// The target that the field of this name is of what is meant.
fn target_at<'a>(
    types: &TypeTable<'_, 'a>,
    meant: Meant<'a>,
    word: &[u8],
) -> Result<Option<Target>, OutOfMemory>
    ensures { IfOk result (λ found. found ≡ option_and_then target_of (behind_meant (spot_behind types.now (to_member word.now)) (Some (seen_meant meant.entry)))) }
{
    let part = field_in(types, meant, word)?;
    Ok(target_in(part))
}

/// The slot of the field of this name of what an expression means.
fn field_slot<'a>(
    alloc: Global,
    around: Around<'_, 'a>,
    expression: &ExpView<'a>,
    word: &[u8],
) -> Result<Option<u32>, OutOfMemory>
    requires types { around.types.now ≡ layouts_of around.scope.now.top.now }
    ensures { IfOk result (λ found. found ≡ field_slot_by (seen_scope around.entry.scope.now) (seen_seats around.entry.seats.now) word.now expression.now) }
{
    match ready_place(alloc, around, expression)? {
        Some(meant) => {
            let target = target_at(around.types, meant, word)?;
            Ok(slot_in(target))
        }
        None => Ok(None),
    }
}

/// The slot of `egress_spec` of what an expression means.
fn dropping_slot<'a>(
    alloc: Global,
    around: Around<'_, 'a>,
    expression: &ExpView<'a>,
) -> Result<Option<u32>, OutOfMemory>
    requires types { around.types.now ≡ layouts_of around.scope.now.top.now }
    ensures { IfOk result (λ found. found ≡ field_slot_by (seen_scope around.entry.scope.now) (seen_seats around.entry.seats.now) (codes "egress_spec") expression.now) }
{
    let slot = field_slot(alloc, around, expression, EGRESS_SPEC)?;
    Ok(slot)
}

/// A packet that is dropped by its slot of `egress_spec`, where that is known.
fn drop_at(slot: Option<u32>) -> Option<Extern>
    ensures { result ≡ option_map (λ x. extern.MarkToDrop x) slot }
{
    match slot {
        Some(slot) => Some(Extern::MarkToDrop(slot)),
        None => None,
    }
}

/// `mark_to_drop(sm)` of this standard metadata: the place of the statement, which is put behind the others; none exactly where that
/// has no field `egress_spec` in the frame. Errors as those of `ready_place`.
pub fn ready_drop<'a>(
    alloc: Global,
    nodes: &mut ReadyNodes<'_>,
    around: Around<'_, 'a>,
    standard: &ExpView<'a>,
) -> Result<Option<usize>, OutOfMemory>
    requires held { IsHeld nodes.old }
    requires types { around.types.now ≡ layouts_of around.scope.now.top.now }
    ensures statement { IfOk result (λ found. seen_statement nodes.new found ≡ option_map does (drop_by (seen_scope around.entry.scope.now) (seen_seats around.entry.seats.now) standard.now)) }
    ensures within { IfOk result (IsStatementIn nodes.new) }
    ensures grows { OnOk result (Grows nodes.old nodes.new) }
{
    let slot = dropping_slot(alloc, around, standard)?;
    let none = no_arguments(nodes)?;
    let statement = put_execute(nodes, drop_at(slot), none)?;
    Ok(statement)
}
