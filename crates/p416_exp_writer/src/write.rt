// Expressions and argument lists.
ghost use Rattle.std.specs.Prelude.{◌≡◌, ◌++◌, ◌<◌, ◌+◌, OnOk, IsTrue};
ghost use Rattle.p416_syntax.specs.Written.{written_exp};
ghost use Rattle.p416_spelling.specs.Words.{words16};
ghost use Rattle.p416_exp_writer.specs.Placed.{written_as};
ghost use Rattle.p416_exp_writer.specs.Spelt.{is_spelt_exp};
ghost use Rattle.p416_exp_writer.specs.Layouts.{said, all_said, is_spelt_work, are_spelt_works, weight, all_weight};

use crate::layout::push_expression;
use crate::parts::write_part;
use crate::work::{Form, Work};
use p4x_bits::OutOfMemory;
use p416_sheet::{Gap, Sheet16};
use p416_syntax::ExpView;
use std::alloc::Global;
use work_stack::Stack;

/// Writes an expression or an argument list behind what stands on the sheet, with parentheses around its parts, and around
/// itself where its place asks for them (P4_16 1.2, "Expressions").
///
/// Its time and its memory are proportional to the size of the expression, at any depth.
///
/// # Errors
/// It fails for want of memory alone.
pub fn write_expression(
    alloc: Global,
    sheet: &mut Sheet16,
    gap: Gap,
    form: Form,
    expression: ExpView<'_>,
) -> Result<(), OutOfMemory>
    requires { IsTrue (is_spelt_exp expression) }
    ensures { OnOk result (sheet.new ≡ sheet.old ++ words16 (written_exp (written_as form expression.entry))) }
{
    let mut left = Stack::new(alloc);
    left.push(Work::Visit(gap, form, expression))?;
    write_left(alloc, sheet, left)
}

/// Writes all that is left.
fn write_left(
    alloc: Global,
    sheet: &mut Sheet16,
    mut left: Stack<Work<'_>>,
) -> Result<(), OutOfMemory>
    requires { IsTrue (are_spelt_works left) }
    ensures { OnOk result (sheet.new ≡ sheet.old ++ all_said left.entry) }
{
    while let Some(work) = left.pop() {
        write_step(alloc, sheet, &mut left, work)?;
    }
    Ok(())
}

/// Writes tokens, or puts the parts of an expression in front of what is left.
#[tactic(auto, using(crate::proofs::Steps::pushed_said, crate::proofs::Steps::pushed_spelt, crate::proofs::Steps::pushed_lighter))]
fn write_step<'a>(
    alloc: Global,
    sheet: &mut Sheet16,
    left: &mut Stack<Work<'a>>,
    work: Work<'a>,
) -> Result<(), OutOfMemory>
    requires { IsTrue (is_spelt_work work) }
    ensures said { OnOk result (sheet.new ++ all_said left.new ≡ sheet.old ++ (said work.entry ++ all_said left.old)) }
    ensures spelt { OnOk result (IsTrue (are_spelt_works left.old) → IsTrue (are_spelt_works left.new)) }
    ensures lighter { OnOk result (all_weight left.new < weight work.entry + all_weight left.old) }
{
    match work {
        Work::Say(part) => write_part(alloc, sheet, &part),
        Work::Visit(gap, form, expression) => push_expression(left, gap, form, expression),
    }
}
