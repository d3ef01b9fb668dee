// What a control declares, and what its calls and its tables name.
ghost use Rattle.std.specs.Prelude.{◌≡◌, IfOk};
ghost use Rattle.v1_ready_controls.specs.internal.Declared.{AreDeclared};

use name_numbers::Numbering;
use p4x_bits::OutOfMemory;
use p416_signature::{ByName, Objects};
use p416_syntax::{Local, Syntax16, Table16};
use std::alloc::Global;
use v1_block_seats::ControlNumbers;
use v1_ready_bodies::OwnVariable;
use v1_ready_locals::{action_names, own_actions, own_tables, own_variables, table_names};
use v1_ready_operands::{Callees, OwnAction};
use v1_ready_tables::TableNames;
use v1_seats::Seat;

/// What a control declares, in the order of the text.
pub(crate) struct Declared<'a> {
    /// Its variables.
    pub(crate) variables: Vec<OwnVariable<'a>>,
    /// Its actions.
    pub(crate) actions: Vec<OwnAction<'a>>,
    /// Their names.
    pub(crate) action_names: Numbering<'a>,
    /// Its tables.
    pub(crate) tables: Vec<&'a Table16>,
    /// Their names.
    pub(crate) table_names: Numbering<'a>,
    /// Its objects.
    pub(crate) objects: ByName<'a>,
}

impl Drop for Declared<'_> {
    fn drop(self) {
        let Declared {
            variables: _variables,
            actions: _actions,
            action_names: _action_names,
            tables: _tables,
            table_names: _table_names,
            objects: _objects,
        } = self;
    }
}

/// What a control declares, where variables and actions have these numbers. The one error is want of memory.
pub(crate) fn declarations_of<'a>(
    alloc: Global,
    numbers: &ControlNumbers<'a>,
    locals: &'a [Local],
) -> Result<Declared<'a>, OutOfMemory>
    ensures { IfOk result (AreDeclared numbers.now.variables.items numbers.now.actions.items locals.now) }
{
    let variables = own_variables(alloc, &numbers.variables, locals)?;
    let actions = own_actions(alloc, &numbers.actions, locals)?;
    let action_names = action_names(alloc, &actions)?;
    let tables = own_tables(alloc, locals)?;
    let table_names = table_names(alloc, &tables)?;
    let objects = ByName::of_control(alloc, locals)?;
    Ok(Declared {
        variables,
        actions,
        action_names,
        tables,
        table_names,
        objects,
    })
}

/// What the calls of a control name that declares this, in the program with these objects, seats and slots.
pub(crate) fn callees_of<'b, 'a>(
    syntax: &'b Syntax16,
    objects: &'b Objects<'a>,
    seats: &'b [Seat<'a>],
    checksum_error: Option<u32>,
    packet_length: Option<u32>,
    locals: &'b [Local],
    own: &'b Declared<'a>,
) -> Callees<'b, 'a>
    ensures syntax { result.syntax.now ≡ syntax.now }
    ensures locals { result.locals.now ≡ locals.now }
    ensures actions { result.actions.now ≡ own.now.actions.items }
    ensures action_names { result.action_names.now ≡ own.now.action_names }
    ensures tables { result.tables.now ≡ own.now.table_names }
    ensures own { result.own_objects.now ≡ own.now.objects }
    ensures objects { result.objects.now ≡ objects.now }
    ensures seats { result.seats.now ≡ seats.now }
    ensures checksum_error { result.checksum_error ≡ checksum_error }
    ensures packet_length { result.packet_length ≡ packet_length }
{
    Callees {
        syntax,
        locals,
        actions: &own.actions,
        action_names: &own.action_names,
        tables: &own.table_names,
        own_objects: &own.objects,
        objects,
        seats,
        checksum_error,
        packet_length,
    }
}

/// What the tables of a control find their parts by, of which these are the names and the objects.
pub(crate) fn names_of<'b, 'a>(
    tables: &'b Numbering<'a>,
    own: &'b ByName<'a>,
    objects: &'b Objects<'a>,
    actions: &'b Numbering<'a>,
) -> TableNames<'b, 'a>
    ensures tables { result.tables.now ≡ tables.now }
    ensures own { result.own.now ≡ own.now }
    ensures objects { result.objects.now ≡ objects.now }
    ensures actions { result.actions.now ≡ actions.now }
{
    TableNames {
        tables,
        own,
        objects,
        actions,
    }
}
