// The parts that a statement is written with, in order.
ghost use Rattle.std.specs.Prelude.{◌≡◌, ◌++◌, OnOk};
ghost use Rattle.p416_syntax.specs.declared.views.StmtHead.TheVariants.{Block, VarIs, Assign, If, IfElse, Switch, Case};
ghost use Rattle.p416_stmt_writer.specs.Layouts.{layout, part, step_of, steps, IsPushed};

use crate::work::Work;
use p4x_bits::{OutOfMemory, Text};
use p416_exp_writer::{Form, push_five, push_four};
use p416_sheet::{Gap, TextView, Token16};
use p416_syntax::{CaseLabel, ExpView, Keyword16, Mark16, StmtHead, StmtView, Type16};
use work_stack::Stack;

/// The deepest level of lines. What stands deeper isn't indented further, so that a text stays proportional to its tokens.
const DEEPEST: u8 = 32;

macro_rules! mark {
    ($gap:expr, $mark:expr) => {
        Work::Put($gap, Token16::Mark($mark))
    };
}

macro_rules! word {
    ($gap:expr, $word:expr) => {
        Work::Put($gap, Token16::Word($word))
    };
}

macro_rules! name {
    ($text:expr) => {
        Work::Put(Gap::Space, Token16::Name(TextView::new($text.as_slice())))
    };
}

/// The level of the lines in a block.
fn deeper(level: u8) -> u8 {
    if level < DEEPEST { level + 1 } else { level }
}

/// Puts the parts of a statement in front of what is left.
pub fn push_statement<'a>(
    left: &mut Stack<Work<'a>>,
    gap: Gap,
    level: u8,
    statement: StmtView<'a>,
) -> Result<(), OutOfMemory>
    ensures { OnOk result (IsPushed statement.entry left.old left.new) }
{
    let head = statement.head();
    push_parts(left, gap, level, head)
}

/// The same by the outermost constructor.
fn push_parts<'a>(
    left: &mut Stack<Work<'a>>,
    gap: Gap,
    level: u8,
    head: StmtHead<'a>,
) -> Result<(), OutOfMemory>
    ensures { OnOk result (steps left.new ≡ layout head.entry ++ steps left.old) }
{
    match head {
        StmtHead::NoStatements => Ok(()),
        StmtHead::Then(before, last) => left.push_two(
            Work::Stmt(Gap::Line(level), level, before),
            Work::Stmt(Gap::Line(level), level, last),
        ),
        StmtHead::Block(statements) => push_block(left, gap, level, statements),
        StmtHead::Empty => left.push(mark!(gap, Mark16::Semicolon)),
        StmtHead::Var(of, called) => left.push_three(
            Work::Type(gap, of),
            name!(called),
            mark!(Gap::Nothing, Mark16::Semicolon),
        ),
        StmtHead::VarIs(of, called, e) => push_variable(left, gap, of, called, e),
        StmtHead::Assign(e, f) => push_assignment(left, gap, e, f),
        StmtHead::Expression(e) => left.push_two(
            Work::Exp(gap, Form::Full, e),
            mark!(Gap::Nothing, Mark16::Semicolon),
        ),
        StmtHead::If(e, a) => push_if(left, gap, level, e, a),
        StmtHead::IfElse(e, a, b) => push_if_else(left, gap, level, e, a, b),
        StmtHead::Switch(table, cases) => push_switch(left, gap, level, table, cases),
        StmtHead::NoCases => Ok(()),
        StmtHead::Case(before, label, inner) => push_case(left, level, before, label, inner),
    }
}

/// What stands in front of the brace behind statements or cases: where there are none, a space.
fn closing_gap(level: u8, list: &StmtView<'_>) -> Gap {
    match list.head() {
        StmtHead::NoStatements => Gap::Space,
        StmtHead::NoCases => Gap::Space,
        _ => Gap::Line(level),
    }
}

/// Puts statements in braces in front of what is left.
fn push_block<'a>(
    left: &mut Stack<Work<'a>>,
    gap: Gap,
    level: u8,
    statements: StmtView<'a>,
) -> Result<(), OutOfMemory>
    ensures { OnOk result (steps left.new ≡ layout (Block statements.entry) ++ steps left.old) }
{
    let closing = closing_gap(level, &statements);
    left.push_three(
        mark!(gap, Mark16::BraceOpen),
        Work::Stmt(Gap::Nothing, deeper(level), statements),
        mark!(closing, Mark16::BraceClose),
    )
}

/// Puts a variable with its initial value in front of what is left.
fn push_variable<'a>(
    left: &mut Stack<Work<'a>>,
    gap: Gap,
    of: &'a Type16,
    called: &'a Text,
    e: ExpView<'a>,
) -> Result<(), OutOfMemory>
    ensures { OnOk result (steps left.new ≡ layout (VarIs of.entry called.entry e.entry) ++ steps left.old) }
{
    push_five(
        left,
        Work::Type(gap, of),
        name!(called),
        mark!(Gap::Space, Mark16::Assign),
        Work::Exp(Gap::Space, Form::Full, e),
        mark!(Gap::Nothing, Mark16::Semicolon),
    )
}

/// Puts an assignment in front of what is left.
fn push_assignment<'a>(
    left: &mut Stack<Work<'a>>,
    gap: Gap,
    e: ExpView<'a>,
    f: ExpView<'a>,
) -> Result<(), OutOfMemory>
    ensures { OnOk result (steps left.new ≡ layout (Assign e.entry f.entry) ++ steps left.old) }
{
    push_four(
        left,
        Work::Exp(gap, Form::Full, e),
        mark!(Gap::Space, Mark16::Assign),
        Work::Exp(Gap::Space, Form::Full, f),
        mark!(Gap::Nothing, Mark16::Semicolon),
    )
}

/// Puts an `if` without `else` in front of what is left.
fn push_if<'a>(
    left: &mut Stack<Work<'a>>,
    gap: Gap,
    level: u8,
    e: ExpView<'a>,
    a: StmtView<'a>,
) -> Result<(), OutOfMemory>
    ensures { OnOk result (steps left.new ≡ layout (If e.entry a.entry) ++ steps left.old) }
{
    push_five(
        left,
        word!(gap, Keyword16::If),
        mark!(Gap::Space, Mark16::ParenOpen),
        Work::Exp(Gap::Nothing, Form::Within, e),
        mark!(Gap::Nothing, Mark16::ParenClose),
        body_of(level, a),
    )
}

/// Puts an `if` with `else` in front of what is left.
fn push_if_else<'a>(
    left: &mut Stack<Work<'a>>,
    gap: Gap,
    level: u8,
    e: ExpView<'a>,
    a: StmtView<'a>,
    b: StmtView<'a>,
) -> Result<(), OutOfMemory>
    ensures { OnOk result (steps left.new ≡ layout (IfElse e.entry a.entry b.entry) ++ steps left.old) }
{
    let before = else_gap(level, &a);
    left.push_two(word!(before, Keyword16::Else), else_body_of(level, b))?;
    push_if(left, gap, level, e, a)
}

/// Puts a `switch` with its cases in front of what is left.
fn push_switch<'a>(
    left: &mut Stack<Work<'a>>,
    gap: Gap,
    level: u8,
    table: &'a Text,
    cases: StmtView<'a>,
) -> Result<(), OutOfMemory>
    ensures { OnOk result (steps left.new ≡ layout (Switch table.entry cases.entry) ++ steps left.old) }
{
    let closing = closing_gap(level, &cases);
    left.push_three(
        Work::Run(gap, TextView::new(table.as_slice())),
        Work::Stmt(Gap::Nothing, deeper(level), cases),
        mark!(closing, Mark16::BraceClose),
    )
}

/// Puts a list of cases with its last case in front of what is left.
fn push_case<'a>(
    left: &mut Stack<Work<'a>>,
    level: u8,
    before: StmtView<'a>,
    label: &'a CaseLabel,
    statements: StmtView<'a>,
) -> Result<(), OutOfMemory>
    ensures { OnOk result (steps left.new ≡ layout (Case before.entry label.entry statements.entry) ++ steps left.old) }
{
    let closing = closing_gap(level, &statements);
    push_four(
        left,
        Work::Stmt(Gap::Nothing, level, before),
        Work::Label(Gap::Line(level), label),
        Work::Stmt(Gap::Nothing, deeper(level), statements),
        mark!(closing, Mark16::BraceClose),
    )
}

/// The statement behind a condition: a block on the line of the condition, any other on a line of its own.
fn body_of(level: u8, statement: StmtView<'_>) -> Work<'_>
    ensures { step_of result ≡ part statement.entry }
{
    match statement.head() {
        StmtHead::Block(_) => Work::Stmt(Gap::Space, level, statement),
        _ => Work::Stmt(Gap::Line(deeper(level)), deeper(level), statement),
    }
}

/// The statement behind `else`: a block and a further `if` on the line of the `else`, any other on a line of its own.
fn else_body_of(level: u8, statement: StmtView<'_>) -> Work<'_>
    ensures { step_of result ≡ part statement.entry }
{
    match statement.head() {
        StmtHead::If(_, _) => Work::Stmt(Gap::Space, level, statement),
        StmtHead::IfElse(_, _, _) => Work::Stmt(Gap::Space, level, statement),
        _ => body_of(level, statement),
    }
}

/// What stands in front of `else`.
fn else_gap(level: u8, statement: &StmtView<'_>) -> Gap {
    match statement.head() {
        StmtHead::Block(_) => Gap::Space,
        _ => Gap::Line(level),
    }
}
