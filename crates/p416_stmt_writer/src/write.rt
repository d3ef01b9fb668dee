// Statements, lists of statements and lists of cases.
ghost use Rattle.std.specs.Prelude.{◌≡◌, ◌++◌, ◌∷◌, ◌<◌, ◌+◌, OnOk, IsTrue};
ghost use Rattle.p416_syntax.specs.Written.{written_stmt};
ghost use Rattle.p416_parentheses.specs.Syntax.{full_stmt};
ghost use Rattle.p416_spelling.specs.Words.{words16};
ghost use Rattle.p416_stmt_writer.specs.Layouts.{step_of, steps, said, all_said, are_spelt, is_spelt_step, are_spelt_steps, weight, all_weight};

use crate::layout::push_statement;
use crate::parts::{write_label, write_run};
use crate::work::Work;
use p4x_bits::OutOfMemory;
use p416_exp_writer::{write_expression, write_type};
use p416_sheet::{Gap, Sheet16, put_token};
use p416_syntax::StmtView;
use std::alloc::Global;
use work_stack::Stack;

/// Writes a statement, a list of statements or a list of cases behind what stands on the sheet, each statement on a line of its
/// own at this level, which is 32 at most where it grows within blocks (P4_16 1.2, "Statements").
///
/// Its time and its memory are proportional to the number of statements and expressions, at any depth.
///
/// # Errors
/// It fails for want of memory alone.
pub fn write_statements(
    alloc: Global,
    sheet: &mut Sheet16,
    level: u8,
    statements: StmtView<'_>,
) -> Result<(), OutOfMemory>
    requires { IsTrue (are_spelt (written_stmt statements)) }
    ensures { OnOk result (sheet.new ≡ sheet.old ++ words16 (written_stmt (full_stmt statements.entry))) }
{
    let mut left = Stack::new(alloc);
    left.push(Work::Stmt(Gap::Line(level), level, statements))?;
    write_left(alloc, sheet, left)
}

/// Writes all that is left.
fn write_left(
    alloc: Global,
    sheet: &mut Sheet16,
    mut left: Stack<Work<'_>>,
) -> Result<(), OutOfMemory>
    requires { IsTrue (are_spelt_steps (steps left)) }
    ensures { OnOk result (sheet.new ≡ sheet.old ++ all_said (steps left.entry)) }
{
    while let Some(work) = left.pop() {
        write_step(alloc, sheet, &mut left, work)?;
    }
    Ok(())
}

/// Writes tokens, or puts the parts of a statement in front of what is left.
#[tactic(auto, using(crate::proofs::Steps::pushed_said, crate::proofs::Steps::pushed_spelt, crate::proofs::Steps::pushed_lighter))]
fn write_step<'a>(
    alloc: Global,
    sheet: &mut Sheet16,
    left: &mut Stack<Work<'a>>,
    work: Work<'a>,
) -> Result<(), OutOfMemory>
    requires { IsTrue (is_spelt_step (step_of work)) }
    ensures said { OnOk result (sheet.new ++ all_said (steps left.new) ≡ sheet.old ++ (said (step_of work.entry) ++ all_said (steps left.old))) }
    ensures spelt { OnOk result (IsTrue (are_spelt_steps (steps left.old)) → IsTrue (are_spelt_steps (steps left.new))) }
    ensures lighter { OnOk result (all_weight (steps left.new) < weight (step_of work.entry) + all_weight (steps left.old)) }
{
    match work {
        Work::Put(gap, token) => put_token(alloc, sheet, gap, &token),
        Work::Type(gap, of) => write_type(alloc, sheet, gap, of),
        Work::Exp(gap, form, e) => write_expression(alloc, sheet, gap, form, e),
        Work::Run(gap, table) => write_run(alloc, sheet, gap, &table),
        Work::Label(gap, label) => write_label(alloc, sheet, gap, label),
        Work::Stmt(gap, level, statement) => push_statement(left, gap, level, statement),
    }
}
