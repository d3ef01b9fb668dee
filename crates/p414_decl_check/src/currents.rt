// C5: how far `current` looks ahead.
ghost use Rattle.std.specs.Prelude.{◌≡◌};
ghost use Rattle.std.specs.List.{list_any};
ghost use Rattle.p414_syntax.specs.Widths.{looks_too_far, statement_looks_too_far, return_looks_too_far, state_looks_too_far};
ghost use Rattle.p414_decl_check.specs.internal.Parts.{is_too_far};

use p414_syntax::{Decl, Literal, PStmt, PValue, Return};

/// Whether `current` with this offset and width takes no bits, or goes past the 128th.
fn is_too_far(offset: Literal, bits: Literal) -> bool
    ensures { result ≡ is_too_far offset bits }
{
    bits.value == 0 || bits.value > 128 || offset.value > 128 - bits.value
}

/// Whether a value is such a `current`.
fn looks_too_far(value: &PValue) -> bool
    ensures { result ≡ looks_too_far value.now }
{
    match value {
        PValue::Current(offset, bits) => is_too_far(*offset, *bits),
        _ => false,
    }
}

/// Whether one of these values is such a `current`.
fn some_value_looks_too_far(values: &[PValue]) -> bool
    ensures { result ≡ list_any looks_too_far values.now }
{
    for value in values {
        if looks_too_far(value) {
            return true;
        }
    }
    false
}

/// Whether a statement has such a `current`.
fn statement_looks_too_far(statement: &PStmt) -> bool
    ensures { result ≡ statement_looks_too_far statement.now }
{
    match statement {
        PStmt::SetMetadata(_, value) => looks_too_far(value),
        PStmt::Extract(_) => false,
    }
}

/// Whether one of these statements has such a `current`.
fn some_statement_looks_too_far(statements: &[PStmt]) -> bool
    ensures { result ≡ list_any statement_looks_too_far statements.now }
{
    for statement in statements {
        if statement_looks_too_far(statement) {
            return true;
        }
    }
    false
}

/// Whether a return has such a `current`.
fn return_looks_too_far(end: &Return) -> bool
    ensures { result ≡ return_looks_too_far end.now }
{
    match end {
        Return::Select(values, _) => some_value_looks_too_far(values.as_slice()),
        _ => false,
    }
}

/// Whether a state has such a `current`.
fn state_looks_too_far(decl: &Decl) -> bool
    ensures { result ≡ state_looks_too_far decl.now }
{
    match decl {
        Decl::Parser(state) => {
            some_statement_looks_too_far(state.statements.as_slice())
                || return_looks_too_far(&state.end)
        }
        _ => false,
    }
}

/// Whether some state has such a `current`.
pub fn some_state_looks_too_far(decls: &[Decl]) -> bool
    ensures { result ≡ list_any state_looks_too_far decls.now }
{
    for decl in decls {
        if state_looks_too_far(decl) {
            return true;
        }
    }
    false
}
