// The program that six declarations are.
ghost use Rattle.std.specs.Prelude.{◌≡◌, IfOk};
ghost use Rattle.p414_one_table.specs.Form as form;

use crate::fields::is_one_table;
use crate::parts::{
    are_attributes_of, is_header_of, is_ingress_of, is_plain_type, is_start_of, plain_fields,
    port_of,
};
use crate::program::OneTable14;
use p4x_bits::{OutOfMemory, Text};
use p414_syntax::{Action, Control, Decl, Header, HeaderType, Parser, Syntax14, Table};
use std::alloc::Global;

fn with_port(
    alloc: Global,
    header_type: &HeaderType,
    header: &Header,
    action: &Action,
    table: &Table,
    port: Option<u64>,
) -> Result<Option<OneTable14>, OutOfMemory>
    ensures { IfOk result (λ found. found ≡ form.with_port header_type.now header.now action.now table.now port) }
{
    let Some(port) = port else {
        return Ok(None);
    };
    Ok(Some(OneTable14 {
        fields: plain_fields(alloc, header_type.fields())?,
        instance: Text::from_slice(alloc, header.name.as_slice())?,
        action: Text::from_slice(alloc, action.name.as_slice())?,
        port,
        table: Text::from_slice(alloc, table.name.as_slice())?,
    }))
}

fn are_parts(
    header_type: &HeaderType,
    header: &Header,
    state: &Parser,
    action: &Action,
    table: &Table,
    control: &Control,
) -> bool
    ensures { result ≡ form.are_parts header_type.now header.now state.now action.now table.now control.now }
{
    is_plain_type(header_type)
        && is_header_of(header_type.name().as_slice(), header)
        && is_start_of(header.name.as_slice(), state)
        && are_attributes_of(action.name.as_slice(), table.attributes.as_slice())
        && is_ingress_of(table.name.as_slice(), control)
}

/// What the declarations name, where they are the parts of a program.
fn candidate(alloc: Global, decls: &[Decl]) -> Result<Option<OneTable14>, OutOfMemory>
    ensures { IfOk result (λ found. found ≡ form.of_decls decls.now) }
{
    match decls {
        [
            Decl::HeaderType(header_type),
            Decl::Header(header),
            Decl::Parser(state),
            Decl::Action(action),
            Decl::Table(table),
            Decl::Control(control),
        ] => {
            if are_parts(header_type, header, state, action, table, control) {
                with_port(alloc, header_type, header, action, table, port_of(action))
            } else {
                Ok(None)
            }
        }
        _ => Ok(None),
    }
}

/// The program with these names and numbers, where it may have them.
fn judged(found: Option<OneTable14>) -> Option<OneTable14>
    ensures { result ≡ form.judged found }
{
    match found {
        Some(program) => {
            if is_one_table(&program) {
                Some(program)
            } else {
                None
            }
        }
        None => None,
    }
}

/// The program of the one-table form that a syntax is, if it is one: in any layout, and with its numbers written in any way. The one
/// error is want of memory. (P4_14 1.0.5, "Headers and Fields", "Parser Specification", "Actions", "Table Declarations", "Packet
/// Processing and Control Flow".)
pub fn one_table_of(alloc: Global, syntax: &Syntax14) -> Result<Option<OneTable14>, OutOfMemory>
    ensures { IfOk result (λ found. found ≡ form.one_table_of syntax.now) }
{
    let found = candidate(alloc, syntax.decls.as_slice())?;
    Ok(judged(found))
}
