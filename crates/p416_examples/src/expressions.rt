// What expressions are, and which of them can be written.
use crate::kind_words::kind_of;
use p4x_bits::OutOfMemory;
use p416_names::{Kind, Top};
use p416_scopes::Scope;
use p416_syntax::{Control16, Decl16, Exp, Local};
use p416_typing::{Row, typed_expression};
use std::alloc::Global;

/// Whether an expression is of the kind of a word and can be written (`+`) or can't (`-`); or is of no kind that is known.
fn is_known(row: &Row<'_>, wanted: &[u8]) -> bool {
    match wanted {
        [b'+', word @ ..] => row.kind.is_same(kind_of(word)) && row.can_write,
        [b'-', word @ ..] => row.kind.is_same(kind_of(word)) && !row.can_write,
        _ => matches!(row.kind, Kind::Unknown),
    }
}

/// The initial value of what a control declares last, where this is a variable that has one.
fn last_value(control: &Control16) -> Option<&Exp> {
    match control.locals.last() {
        Some(Local::Var(var)) => var.initial.as_ref(),
        _ => None,
    }
}

/// Whether this is known of an expression in a control that stands as ingress.
fn is_known_in<'a>(
    alloc: Global,
    decls: &'a [Decl16],
    control: &'a Control16,
    value: &'a Exp,
    wanted: &[u8],
) -> Result<bool, OutOfMemory> {
    let top = Top::of(alloc, decls)?;
    let scope = Scope::of_control(alloc, &top, &[2], control)?;
    let mut typed = typed_expression(alloc, &scope, &value.view())?;
    match typed.rows.pop() {
        Some(row) => Ok(is_known(&row, wanted)),
        None => Ok(false),
    }
}

/// Whether this is known of the initial value of what the last control declares last.
pub fn has_kind(alloc: Global, decls: &[Decl16], wanted: &[u8]) -> Result<bool, OutOfMemory> {
    let Some(Decl16::Control(control)) = decls.last() else {
        return Ok(false);
    };
    match last_value(control) {
        Some(value) => is_known_in(alloc, decls, control, value, wanted),
        None => Ok(false),
    }
}
