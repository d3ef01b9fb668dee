// The keys of a table (P4_16 1.2, "Tables").
ghost use Rattle.std.specs.Prelude.{◌≡◌, ◌<◌, length, option_map, IfOk, IfSome, OnOk};
ghost use Rattle.p416_syntax.specs.Declarations.{layouts_of};
ghost use Rattle.p416_scopes.specs.Seen.{seen_scope};
ghost use Rattle.v1_ready_program.specs.Seen.{seen_seats};
ghost use Rattle.v1_core.specs.Nodes.{ready_at};
ghost use Rattle.v1_ready_nodes.specs.Held.{ready_in, IsHeld, Grows};
ghost use Rattle.v1_ready_statements.specs.Blocks.{all_of};
ghost use Rattle.v1_ready_tables.specs.Seen.{seen_keys, AreKeysIn};
ghost use Rattle.v1_ready_tables.specs.Tables.{key_within};

use p4x_bits::{OutOfMemory, Rows};
use p416_calls::Place;
use p416_syntax::TableKey;
use std::alloc::Global;
use v1_ready_nodes::ReadyNodes;
use v1_ready_program::Around;

/// The kind of match for which a truth value may be a key.
const EXACT: &[u8] = b"exact";

/// Makes a key ready in a scope of keys.
fn ready_key<'a>(
    alloc: Global,
    nodes: &mut ReadyNodes<'_>,
    around: Around<'_, 'a>,
    key: &'a TableKey,
) -> Result<Option<usize>, OutOfMemory>
    requires held { IsHeld nodes.old }
    requires types { around.types.now ≡ layouts_of around.scope.now.top.now }
    ensures ready { IfOk result (λ found. option_map (ready_at (ready_in nodes.new)) found ≡ key_within (seen_scope around.entry.scope.now) (seen_seats around.entry.seats.now) key.now) }
    ensures within { IfOk result (λ found. IfSome found (λ place. place < length (ready_in nodes.new))) }
    ensures grows { OnOk result (Grows nodes.old nodes.new) }
{
    let place = Place::TableKey(key.kind.as_slice() == EXACT);
    nodes.expression(alloc, around, place, &key.exp.view())
}

/// Makes keys ready in a scope of keys: their places among the expressions; none where one of them is no single value.
#[tactic(auto, using(v1_ready_bodies::proofs::Fronts::all_ready, v1_ready_bodies::proofs::Fronts::none_more, v1_ready_nodes::proofs::Growing::grows_same))]
pub(crate) fn ready_keys<'a>(
    alloc: Global,
    nodes: &mut ReadyNodes<'_>,
    around: Around<'_, 'a>,
    keys: &'a [TableKey],
) -> Result<Option<Rows<usize>>, OutOfMemory>
    requires held { IsHeld nodes.old }
    requires types { around.types.now ≡ layouts_of around.scope.now.top.now }
    ensures ready { IfOk result (λ found. option_map (seen_keys nodes.new) found ≡ all_of (key_within (seen_scope around.entry.scope.now) (seen_seats around.entry.seats.now)) keys.now) }
    ensures within { IfOk result (λ found. IfSome found (AreKeysIn nodes.new)) }
    ensures grows { OnOk result (Grows nodes.old nodes.new) }
{
    let mut places = Rows::new(alloc);
    for key in keys {
        match ready_key(alloc, nodes, around, key)? {
            Some(place) => places.push(place)?,
            None => return Ok(None),
        }
    }
    Ok(Some(places))
}
