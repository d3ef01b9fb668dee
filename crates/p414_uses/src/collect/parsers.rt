// The uses in parser states.
ghost use Rattle.std.specs.Prelude.{◌≡◌, [], ◌∷◌, ◌++◌, map, option_copied, option_to_list, OnOk, None, Some};
ghost use Rattle.std.specs.List.{flat_map};
ghost use Rattle.p414_syntax.specs.Subtrees.{subexpressions, subtrees};
ghost use Rattle.p414_uses.specs.internal.Collected.{Adds};
ghost use Rattle.p414_syntax.specs.Uses.{uses_of_value, last_behind, last_of, uses_of_statement, uses_of_statements, uses_of_target, uses_of_case, uses_of_return, uses_of_state};

use crate::uses::{Use, add};
use p4x_bits::OutOfMemory;
use p414_syntax::{Case, CaseTarget, Inst, PStmt, PValue, Parser, Return};

/// Adds the use in a value, where `last` was extracted last.
fn add_value<'a>(
    found: &mut Vec<Use<'a>>,
    last: Option<&'a Inst>,
    value: &'a PValue,
) -> Result<(), OutOfMemory>
    ensures { OnOk result (Adds found.old.items found.new.items (uses_of_value (option_copied last.entry) value.now)) }
{
    match value {
        PValue::Latest(field) => add(found, Use::OfLatest(last, field)),
        PValue::Field(field) => add(found, Use::OfField(field)),
        _ => Ok(()),
    }
}

/// What was extracted last behind a statement.
fn last_behind<'a>(last: Option<&'a Inst>, statement: &'a PStmt) -> Option<&'a Inst>
    ensures { option_copied result ≡ last_behind (option_copied last.entry) statement.now }
{
    match statement {
        PStmt::Extract(instance) => Some(instance),
        PStmt::SetMetadata(_, _) => last,
    }
}

/// What was extracted last behind these statements.
pub fn last_extracted(statements: &[PStmt]) -> Option<&Inst>
    ensures { option_copied result ≡ last_of None statements.now }
{
    let mut last = None;
    for statement in statements {
        last = last_behind(last, statement);
    }
    last
}

/// Adds the uses in a statement, where `last` was extracted last.
#[tactic(auto, using(crate::proofs::Adding::added_two))]
fn add_statement<'a>(
    found: &mut Vec<Use<'a>>,
    last: Option<&'a Inst>,
    statement: &'a PStmt,
) -> Result<(), OutOfMemory>
    ensures { OnOk result (Adds found.old.items found.new.items (uses_of_statement (option_copied last.entry) statement.now)) }
{
    match statement {
        PStmt::Extract(instance) => add(found, Use::OfExtracted(instance)),
        PStmt::SetMetadata(field, value) => {
            add(found, Use::OfField(field))?;
            add_value(found, last, value)
        }
    }
}

/// Adds the uses in statements.
fn add_statements<'a>(found: &mut Vec<Use<'a>>, statements: &'a [PStmt]) -> Result<(), OutOfMemory>
    ensures { OnOk result (Adds found.old.items found.new.items (uses_of_statements None statements.now)) }
{
    let mut last = None;
    for statement in statements {
        add_statement(found, last, statement)?;
        last = last_behind(last, statement);
    }
    Ok(())
}

/// Adds the uses in values of a select.
fn add_values<'a>(
    found: &mut Vec<Use<'a>>,
    last: Option<&'a Inst>,
    values: &'a [PValue],
) -> Result<(), OutOfMemory>
    ensures { OnOk result (Adds found.old.items found.new.items (flat_map (uses_of_value (option_copied last.entry)) values.now)) }
{
    for value in values {
        add_value(found, last, value)?;
    }
    Ok(())
}

/// Adds the use in a case.
fn add_case<'a>(found: &mut Vec<Use<'a>>, case: &'a Case) -> Result<(), OutOfMemory>
    ensures { OnOk result (Adds found.old.items found.new.items (uses_of_case case.now)) }
{
    match &case.target {
        CaseTarget::State(name) => add(found, Use::OfNextState(name)),
        CaseTarget::ParseError(_) => Ok(()),
    }
}

/// Adds the uses in cases.
fn add_cases<'a>(found: &mut Vec<Use<'a>>, cases: &'a [Case]) -> Result<(), OutOfMemory>
    ensures { OnOk result (Adds found.old.items found.new.items (flat_map uses_of_case cases.now)) }
{
    for case in cases {
        add_case(found, case)?;
    }
    Ok(())
}

/// Adds the uses in a return, where `last` was extracted last.
#[tactic(auto, using(crate::proofs::Adding::added_two))]
fn add_return<'a>(
    found: &mut Vec<Use<'a>>,
    last: Option<&'a Inst>,
    end: &'a Return,
) -> Result<(), OutOfMemory>
    ensures { OnOk result (Adds found.old.items found.new.items (uses_of_return (option_copied last.entry) end.now)) }
{
    match end {
        Return::Select(values, cases) => {
            add_values(found, last, values.as_slice())?;
            add_cases(found, cases.as_slice())
        }
        Return::State(name) => add(found, Use::OfNextState(name)),
        Return::ParseError(_) => Ok(()),
    }
}

/// Adds the uses in a parser state.
#[tactic(auto, using(crate::proofs::Adding::added_two))]
pub fn add_state<'a>(found: &mut Vec<Use<'a>>, declared: &'a Parser) -> Result<(), OutOfMemory>
    ensures { OnOk result (Adds found.old.items found.new.items (uses_of_state declared.now)) }
{
    let statements = declared.statements.as_slice();
    add_statements(found, statements)?;
    add_return(found, last_extracted(statements), &declared.end)
}
