// What a walk over a control finds, a letter for each statement or expression, from the outside in; and the declarations of each sort.
use crate::lines::cut;
use p414_syntax::{
    Control, Decl, ExprHead, ExprView, Sorted, StmtHead, StmtView, Syntax14, Table, all_conditions,
    all_expressions, all_statements, sort_declarations,
};
use std::alloc::Global;

fn statement_letter(head: StmtHead<'_>) -> u8 {
    match head {
        StmtHead::NoStatements => b'0',
        StmtHead::Then(_, _) => b't',
        StmtHead::Apply(_) => b'a',
        StmtHead::ApplyBranches(_, _) => b'b',
        StmtHead::If(_, _, _) => b'i',
        StmtHead::Call(_) => b'c',
        StmtHead::NoElse => b'n',
        StmtHead::ElseBlock(_) => b'e',
        StmtHead::ElseIf(_) => b'f',
        StmtHead::NoBranches => b'1',
        StmtHead::Branch(_, _, _) => b'h',
    }
}

fn expression_letter(head: ExprHead<'_>) -> u8 {
    match head {
        ExprHead::Valid(_) => b'v',
        ExprHead::Truth(_) => b'r',
        ExprHead::Field(_) => b'f',
        ExprHead::Number(_) => b'n',
        ExprHead::Parenthesized(_) => b'(',
        ExprHead::Unary(_, _) => b'u',
        ExprHead::Binary(_, _, _) => b'b',
    }
}

/// Whether these letters stand for these statements.
fn are_statements(found: &[StmtView<'_>], letters: &[u8]) -> bool {
    for (place, statement) in found.iter().enumerate() {
        if place >= letters.len() || statement_letter(statement.head()) != letters[place] {
            return false;
        }
    }
    found.len() == letters.len()
}

/// Whether these letters stand for these expressions.
fn are_expressions(found: &[ExprView<'_>], letters: &[u8]) -> bool {
    for (place, expression) in found.iter().enumerate() {
        if place >= letters.len() || expression_letter(expression.head()) != letters[place] {
            return false;
        }
    }
    found.len() == letters.len()
}

/// Whether these letters stand for the expressions of a condition.
fn has_expressions(alloc: Global, condition: &ExprView<'_>, letters: &[u8]) -> bool {
    match &all_expressions(alloc, condition) {
        Ok(found) => are_expressions(found, letters),
        Err(_) => false,
    }
}

/// The same of the condition of the first statement that has one; no letters where none has.
fn has_condition(alloc: Global, found: &[StmtView<'_>], letters: &[u8]) -> bool {
    for statement in found {
        if let Some(condition) = statement.condition() {
            return has_expressions(alloc, &condition, letters);
        }
    }
    letters.is_empty()
}

/// Whether these letters stand for all statements of a control (`S`), or for the expressions of its first condition (`E`).
fn has_statements(alloc: Global, asked: u8, control: &Control, letters: &[u8]) -> bool {
    match &all_statements(alloc, control) {
        Ok(found) if asked == b'E' => has_condition(alloc, found, letters),
        Ok(found) => are_statements(found, letters),
        Err(_) => false,
    }
}

/// Whether these letters stand for the conditions of a control.
fn has_conditions(alloc: Global, control: &Control, letters: &[u8]) -> bool {
    match &all_conditions(alloc, control) {
        Ok(found) => are_expressions(found, letters),
        Err(_) => false,
    }
}

/// Whether the one declaration is a control of which that is so, or whose conditions are these (`C`).
pub fn has_walk(alloc: Global, asked: u8, syntax: &Syntax14, letters: &[u8]) -> bool {
    match syntax.decls.as_slice() {
        [Decl::Control(control)] if asked == b'C' => has_conditions(alloc, control, letters),
        [Decl::Control(control)] => has_statements(alloc, asked, control, letters),
        _ => false,
    }
}

fn is_table_named(table: Option<&Table>, name: &[u8]) -> bool {
    match table {
        Some(table) => table.name.as_slice() == name,
        None => false,
    }
}

/// Whether these are two tables of these names, with a comma between them, a meter and a control, each in the list of its sort.
fn are_sorted(found: &Sorted<'_>, tables: &[u8]) -> bool {
    let (first, second) = cut(tables, b',');
    found.tables.len() == 2
        && is_table_named(found.tables.get(0), first)
        && is_table_named(found.tables.get(1), second)
        && found.meters.len() == 1
        && found.controls.len() == 1
        && found.counters.len() == 0
        && found.registers.len() == 0
        && found.header_types.len() == 0
        && found.left_out.len() == 0
}

/// The same of the declarations of a program.
pub fn is_sorted(alloc: Global, syntax: &Syntax14, tables: &[u8]) -> bool {
    match &sort_declarations(alloc, syntax) {
        Ok(found) => are_sorted(found, tables),
        Err(_) => false,
    }
}
