// Arguments with none behind them.
ghost use Rattle.std.specs.Prelude.{◌≡◌, IfOk, OnOk};
ghost use Rattle.name_numbers.specs.Names.{find_name};
ghost use Rattle.p416_syntax.specs.Declarations.{layouts_of};
ghost use Rattle.p416_calls.specs.Seen.{seen_place};
ghost use Rattle.p416_scopes.specs.Seen.{seen_scope};
ghost use Rattle.v1_ready_program.specs.Seen.{seen_seats};
ghost use Rattle.v1_ready_nodes.specs.Held.{IsHeld, Grows};
ghost use Rattle.v1_ready_tests.specs.Items.{list_by};
ghost use Rattle.v1_ready_tests.specs.Seen.{seen_arguments, AreArgumentsIn};
ghost use Rattle.v1_ready_operands.specs.Functions.{value_by};

use name_numbers::Numbering;
use p4x_bits::OutOfMemory;
use p416_calls::Place;
use p416_syntax::ExpView;
use std::alloc::Global;
use v1_ready_nodes::ReadyNodes;
use v1_ready_program::Around;
use v1_ready_tests::{list_before, no_arguments, value_before};

/// A value alone.
#[tactic(auto, using(crate::proofs::Lasting::value_last))]
pub fn one_value<'a>(
    alloc: Global,
    nodes: &mut ReadyNodes<'_>,
    around: Around<'_, 'a>,
    tables: &Numbering<'_>,
    place: Place<'a>,
    expression: &ExpView<'a>,
) -> Result<Option<usize>, OutOfMemory>
    requires held { IsHeld nodes.old }
    requires types { around.types.now ≡ layouts_of around.scope.now.top.now }
    ensures arguments { IfOk result (λ found. seen_arguments nodes.new found ≡ value_by (seen_scope around.entry.scope.now) (seen_seats around.entry.seats.now) (find_name tables.now) (seen_place place.entry) expression.now) }
    ensures within { IfOk result (AreArgumentsIn nodes.new) }
    ensures grows { OnOk result (Grows nodes.old nodes.new) }
{
    let none = no_arguments(nodes)?;
    let found = value_before(alloc, nodes, around, tables, place, expression, none)?;
    Ok(found)
}

/// A list alone.
#[tactic(auto, using(crate::proofs::Lasting::list_last))]
pub fn one_list<'a>(
    alloc: Global,
    nodes: &mut ReadyNodes<'_>,
    around: Around<'_, 'a>,
    tables: &Numbering<'_>,
    list: &ExpView<'a>,
) -> Result<Option<usize>, OutOfMemory>
    requires held { IsHeld nodes.old }
    requires types { around.types.now ≡ layouts_of around.scope.now.top.now }
    ensures arguments { IfOk result (λ found. seen_arguments nodes.new found ≡ list_by (seen_scope around.entry.scope.now) (seen_seats around.entry.seats.now) (find_name tables.now) list.now) }
    ensures within { IfOk result (AreArgumentsIn nodes.new) }
    ensures grows { OnOk result (Grows nodes.old nodes.new) }
{
    let none = no_arguments(nodes)?;
    let found = list_before(alloc, nodes, around, tables, list, none)?;
    Ok(found)
}
