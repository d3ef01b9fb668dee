// What drops the packet: 511 as it is goes to `egress_spec`.
ghost use Rattle.std.specs.Prelude.{◌≡◌, codes, IfOk};
ghost use Rattle.p414_sem.specs.Operations.{just};
ghost use Rattle.p414_sem.specs.Slots.{standard};
ghost use Rattle.p414_slots.specs.Shown.{slot_in};
ghost use Rattle.p414_ready_actions.specs.Running.{shown_source, shown_term};
ghost use Rattle.lower_laws_base.specs.Mirror.{drop_stmt};
ghost use Rattle.lower_laws_actions.specs.Mirror.{drops};
ghost use Rattle.lower_expressions.specs.Table.{words_in};
ghost use Rattle.lower_expressions.specs.Making.{MakesStmt};

use lower_expressions::{ReadAt, WordsTable, function_call, named, one_argument};
use p4x_bits::OutOfMemory;
use p414_ready_actions::{ReadySource, ReadyTerm};
use p414_sem::Standard;
use p414_slots::FieldSlot;
use p414_wholes::Whole;
use p416_syntax::Nodes;
use std::alloc::Global;

/// Whether a source drops the packet, where it goes to `egress_spec`.
fn source_drops(source: ReadySource) -> bool
    ensures { result ≡ drops (standard Standard.EgressSpec) (just (shown_source source)) }
{
    match source {
        ReadySource::Number(Whole::Plus(number)) => number == 511,
        ReadySource::Number(Whole::Minus(_)) => false,
        ReadySource::Field(_) => false,
        ReadySource::Parameter(_) => false,
    }
}

/// Whether a term drops the packet, where it goes to `egress_spec`.
fn term_drops(term: ReadyTerm) -> bool
    ensures { result ≡ drops (standard Standard.EgressSpec) (shown_term term) }
{
    match term {
        ReadyTerm::Just(source) => source_drops(source),
        _ => false,
    }
}

/// Whether a write drops the packet.
pub fn drops(slot: FieldSlot, term: ReadyTerm) -> bool
    ensures { result ≡ drops (slot_in slot) (shown_term term) }
{
    match slot {
        FieldSlot::Standard(Standard::EgressSpec) => term_drops(term),
        _ => false,
    }
}

/// The packet is dropped.
pub fn dropped(
    alloc: Global,
    nodes: &mut Nodes,
    table: &WordsTable<'_>,
) -> Result<usize, OutOfMemory>
    ensures { IfOk result (λ place. MakesStmt nodes.old nodes.new place (drop_stmt (words_in table.now))) }
{
    let standard = named(alloc, nodes, table.standard_root(ReadAt::Now))?;
    let given = one_argument(nodes, standard)?;
    let place = function_call(alloc, nodes, b"mark_to_drop", given)?;
    Ok(place)
}
