// The uses in controls.
ghost use Rattle.std.specs.Prelude.{◌≡◌, [], ◌∷◌, ◌++◌, map, option_copied, option_to_list, OnOk, None, Some};
ghost use Rattle.std.specs.List.{flat_map};
ghost use Rattle.p414_syntax.specs.Subtrees.{subexpressions, subtrees};
ghost use Rattle.p414_uses.specs.internal.Collected.{Adds};
ghost use Rattle.p414_syntax.specs.Uses.{uses_of_label, own_uses};

use crate::collect::expressions::add_expression;
use crate::uses::{Use, add};
use p4x_bits::OutOfMemory;
use p414_syntax::{Control, Label, Sort, StmtHead, StmtView, all_statements};
use std::alloc::Global;

/// Adds the use in a label.
fn add_label<'a>(found: &mut Vec<Use<'a>>, label: &'a Label) -> Result<(), OutOfMemory>
    ensures { OnOk result (Adds found.old.items found.new.items (uses_of_label label.now)) }
{
    match label {
        Label::Action(name) => add(found, Use::OfAction(name)),
        _ => Ok(()),
    }
}

/// Adds the uses of a statement by itself.
fn add_statement<'a>(
    alloc: Global,
    found: &mut Vec<Use<'a>>,
    statement: &StmtView<'a>,
) -> Result<(), OutOfMemory>
    ensures { OnOk result (Adds found.old.items found.new.items (own_uses statement.now)) }
{
    match statement.head() {
        StmtHead::Apply(table) => add(found, Use::OfSort(Sort::Table, table)),
        StmtHead::ApplyBranches(table, _) => add(found, Use::OfSort(Sort::Table, table)),
        StmtHead::If(condition, _, _) => add_expression(alloc, found, &condition),
        StmtHead::Call(control) => add(found, Use::OfControl(control)),
        StmtHead::Branch(_, label, _) => add_label(found, label),
        _ => Ok(()),
    }
}

/// Adds the uses of statements.
fn add_statements<'a>(
    alloc: Global,
    found: &mut Vec<Use<'a>>,
    statements: &[StmtView<'a>],
) -> Result<(), OutOfMemory>
    ensures { OnOk result (Adds found.old.items found.new.items (flat_map own_uses statements.now)) }
{
    for statement in statements {
        add_statement(alloc, found, statement)?;
    }
    Ok(())
}

/// Adds the uses in a control.
pub fn add_control<'a>(
    alloc: Global,
    found: &mut Vec<Use<'a>>,
    declared: &'a Control,
) -> Result<(), OutOfMemory>
    ensures { OnOk result (Adds found.old.items found.new.items (flat_map own_uses (subtrees declared.now.body))) }
{
    let all = all_statements(alloc, declared)?;
    add_statements(alloc, found, all.as_slice())
}
