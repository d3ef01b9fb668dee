// The parts of a control, one after another (P4_16 1.2, "Control blocks").
ghost use Rattle.std.specs.Prelude.{◌≡◌, All, List, map, option_map, IfOk, IfSome, OnOk, ℕ};
ghost use Rattle.p416_scopes.specs.Seen.{seen_scope};
ghost use Rattle.v1_core.specs.Signatures.{key_scope};
ghost use Rattle.v1_core.specs.Layouts.{Layout};
ghost use Rattle.v1_ready_program.specs.Seen.{seen_seats};
ghost use Rattle.v1_ready_nodes.specs.Held.{Held, IsHeld, Grows};
ghost use Rattle.v1_ready_statements.specs.Blocks.{all_of, body_ready, parameter_slots, with_all};
ghost use Rattle.v1_ready_statements.specs.Statements.{ready_of_statement};
ghost use Rattle.v1_block_run.specs.Blocks.{seen_parameters};
ghost use Rattle.v1_ready_operands.specs.Callees.{seen_action};
ghost use Rattle.v1_ready_tables.specs.Seen.{seen_tables, IsTableIn};
ghost use Rattle.v1_ready_tables.specs.Tables.{table_by};
ghost use Rattle.v1_ready_bodies.specs.Seen.{seen_statement, IsNodeIn, IsStanding};
ghost use Rattle.v1_ready_bodies.specs.Variables.{variables_ready};
ghost use Rattle.v1_ready_locals.specs.Seen.{seen_bodies, IsActionIn};
ghost use Rattle.v1_ready_controls.specs.internal.Declared.{seen_parts, ArePartsIn};

use crate::declared::Declared;
use p4x_bits::{OutOfMemory, Rows};
use p416_scopes::Scope;
use p416_syntax::{Control16, Table16};
use std::alloc::Global;
use v1_block_run::{ReadyAction, ReadyTable};
use v1_core::FrameLayout;
use v1_ready_bodies::{Singles, Standing, ready_body, ready_variables};
use v1_ready_locals::ready_actions;
use v1_ready_nodes::ReadyNodes;
use v1_ready_program::Around;
use v1_ready_tables::{TableNames, ready_tables};

/// The parts of a ready control, over what is held.
#[derive(Drop)]
pub(crate) struct Parts {
    /// The actions.
    pub(crate) actions: Rows<ReadyAction>,
    /// The tables.
    pub(crate) tables: Rows<ReadyTable>,
    /// The place of the body.
    pub(crate) body: usize,
}

/// These parts, if all of them are some.
fn joined(
    actions: Option<Rows<ReadyAction>>,
    tables: Option<Rows<ReadyTable>>,
    body: Option<usize>,
) -> Option<Parts>
    ensures parts { (h : Held) (ps : List (List ℕ)) → IfSome actions (λ rows. map seen_parameters rows ≡ ps) → option_map (seen_parts h) result ≡ with_all (option_map (seen_bodies h) actions) ps (option_map (seen_tables h) tables) (seen_statement h body) }
    ensures within { (h : Held) (l : Layout) → IfSome actions (All (IsActionIn l h)) → IfSome tables (All (IsTableIn h)) → IsNodeIn h body → IfSome result (ArePartsIn l h) }
{
    match (actions, tables, body) {
        (Some(actions), Some(tables), Some(body)) => Some(Parts {
            actions,
            tables,
            body,
        }),
        _ => None,
    }
}

/// Makes the statements of a control ready, in front of which its variables start; the first variable in them has this number.
fn whole_body<'a, S: Singles<'a>>(
    alloc: Global,
    singles: &S,
    nodes: &mut ReadyNodes<'_>,
    standing: &mut Standing<'_, 'a>,
    own: &Declared<'a>,
    number: usize,
    control: &'a Control16,
) -> Result<Option<usize>, OutOfMemory>
    requires held { IsHeld nodes.old }
    requires standing { IsStanding standing.old }
    ensures body { IfOk result (λ found. seen_statement nodes.new found ≡ variables_ready (S.block singles.now) (seen_scope standing.old.scope) (seen_seats standing.old.seats) own.now.variables.items (ready_of_statement (S.block singles.now) (seen_scope standing.old.scope) (seen_seats standing.old.seats) number control.now.body)) }
    ensures within { IfOk result (IsNodeIn nodes.new) }
    ensures grows { OnOk result (Grows nodes.old nodes.new) }
{
    standing.number = number;
    let statements = ready_body(alloc, singles, nodes, standing, &control.body.statements())?;
    let body = ready_variables(alloc, singles, nodes, standing, &own.variables, statements)?;
    Ok(body)
}

/// Makes the tables of a control ready, whose keys stand in this scope.
#[tactic(auto, using(v1_ready_locals::proofs::Joining::types_there))]
fn within_keys<'a>(
    alloc: Global,
    nodes: &mut ReadyNodes<'_>,
    standing: &Standing<'_, 'a>,
    keys: &Scope<'_, 'a>,
    names: TableNames<'_, 'a>,
    tables: &[&'a Table16],
) -> Result<Option<Rows<ReadyTable>>, OutOfMemory>
    requires held { IsHeld nodes.old }
    requires standing { IsStanding standing.now }
    requires keys { seen_scope keys.now ≡ key_scope (seen_scope standing.now.scope) }
    requires top { keys.now.top ≡ standing.now.scope.top }
    ensures tables { IfOk result (λ found. option_map (seen_tables nodes.new) found ≡ all_of (λ table. table_by names.entry (seen_scope standing.now.scope) (seen_seats standing.now.seats) table.now) tables.now) }
    ensures within { IfOk result (λ found. IfSome found (All (IsTableIn nodes.new))) }
    ensures grows { OnOk result (Grows nodes.old nodes.new) }
{
    let around = Around {
        scope: keys,
        seats: &standing.seats,
        types: standing.types,
    };
    let found = ready_tables(alloc, nodes, around, &standing.scope, names, tables)?;
    Ok(found)
}

/// Makes the parts of a control ready that declares this; none exactly where one of them is none.
pub(crate) fn ready_parts<'a, S: Singles<'a>>(
    alloc: Global,
    singles: &S,
    nodes: &mut ReadyNodes<'_>,
    standing: &mut Standing<'_, 'a>,
    keys: &Scope<'_, 'a>,
    names: TableNames<'_, 'a>,
    layout: &FrameLayout,
    own: &Declared<'a>,
    number: usize,
    control: &'a Control16,
) -> Result<Option<Parts>, OutOfMemory>
    requires held { IsHeld nodes.old }
    requires standing { IsStanding standing.old }
    requires keys { seen_scope keys.now ≡ key_scope (seen_scope standing.old.scope) }
    requires top { keys.now.top ≡ standing.old.scope.top }
    ensures parts { IfOk result (λ found. option_map (seen_parts nodes.new) found ≡ with_all (all_of (λ a. body_ready (S.block singles.now) (seen_scope standing.old.scope) (seen_seats standing.old.seats) (seen_action a)) own.now.actions.items) (map (λ a. parameter_slots (S.block singles.now) (seen_action a)) own.now.actions.items) (all_of (λ table. table_by names.entry (seen_scope standing.old.scope) (seen_seats standing.old.seats) table.now) own.now.tables.items) (variables_ready (S.block singles.now) (seen_scope standing.old.scope) (seen_seats standing.old.seats) own.now.variables.items (ready_of_statement (S.block singles.now) (seen_scope standing.old.scope) (seen_seats standing.old.seats) number control.now.body))) }
    ensures within { IfOk result (λ found. IfSome found (ArePartsIn layout.now nodes.new)) }
    ensures grows { OnOk result (Grows nodes.old nodes.new) }
{
    let actions = ready_actions(alloc, singles, nodes, standing, layout, &own.actions)?;
    let tables = within_keys(alloc, nodes, standing, keys, names, &own.tables)?;
    let body = whole_body(alloc, singles, nodes, standing, own, number, control)?;
    Ok(joined(actions, tables, body))
}
