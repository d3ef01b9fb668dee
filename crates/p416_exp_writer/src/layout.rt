// The parts that an expression is written with, in order.
ghost use Rattle.std.specs.Prelude.{◌≡◌, ◌++◌, ◌∷◌, OnOk};
ghost use Rattle.p416_syntax.specs.declared.views.ExpHead.TheVariants.{Binary, Choice, Listed};
ghost use Rattle.p416_syntax.specs.Heads.{of_exp_head};
ghost use Rattle.p416_parentheses.specs.Expressions as parentheses;
ghost use Rattle.p416_exp_writer.specs.Placed.{is_wrapped_as};
ghost use Rattle.p416_exp_writer.specs.declared.work.Form.TheVariants.{Base};
ghost use Rattle.p416_exp_writer.specs.declared.work.Work.TheVariants.{Say, Visit};
ghost use Rattle.p416_exp_writer.specs.Layouts.{layout, call_opening, call_layout, is_no_arguments, argument_layout, IsPushed};

use crate::operators::{operator_token, prefix_mark, truth_word};
use crate::pushes::{push_five, push_four};
use crate::work::{Form, Part, Work};
use p4x_bits::OutOfMemory;
use p416_sheet::{Gap, TextView, Token16};
use p416_syntax::{BinaryOperator, ExpHead, ExpView, Keyword16, Mark16};
use work_stack::Stack;

/// The one member that the grammar reads in another way.
const LOOKAHEAD: &[u8] = b"lookahead";

macro_rules! put {
    ($gap:expr, $token:expr) => {
        Work::Say(Part::Put($gap, $token))
    };
}

macro_rules! mark {
    ($gap:expr, $mark:expr) => {
        Work::Say(Part::Put($gap, Token16::Mark($mark)))
    };
}

/// Puts the parts of an expression in front of what is left, in parentheses where its place asks for them.
pub fn push_expression<'a>(
    left: &mut Stack<Work<'a>>,
    gap: Gap,
    form: Form,
    expression: ExpView<'a>,
) -> Result<(), OutOfMemory>
    ensures { OnOk result (IsPushed gap form expression.entry left.old left.new) }
{
    let head = expression.head();
    if is_wrapped_as(form, &head) {
        left.push_three(
            mark!(gap, Mark16::ParenOpen),
            Work::Visit(Gap::Nothing, Form::Within, expression),
            mark!(Gap::Nothing, Mark16::ParenClose),
        )
    } else {
        push_parts(left, gap, head)
    }
}

/// Whether parentheses are written around an expression with this outermost constructor.
fn is_wrapped_as(form: Form, head: &ExpHead<'_>) -> bool
    ensures { result ≡ is_wrapped_as form (of_exp_head head.now) }
{
    match form {
        Form::Within => false,
        Form::Full => is_wrapped(head),
        Form::Base => is_wrapped_base(head),
    }
}

fn is_wrapped(head: &ExpHead<'_>) -> bool
    ensures { result ≡ parentheses.is_wrapped (of_exp_head head.now) }
{
    match head {
        ExpHead::Member(_, word) => LOOKAHEAD == word.as_slice(),
        ExpHead::Binary(_, _, _) => true,
        ExpHead::Choice(_, _, _) => true,
        _ => false,
    }
}

fn is_wrapped_base(head: &ExpHead<'_>) -> bool
    ensures { result ≡ parentheses.is_wrapped_base (of_exp_head head.now) }
{
    match head {
        ExpHead::Member(_, word) => LOOKAHEAD == word.as_slice(),
        ExpHead::Cast(_, _) => true,
        ExpHead::Unary(_, _) => true,
        ExpHead::Binary(_, _, _) => true,
        ExpHead::Choice(_, _, _) => true,
        _ => false,
    }
}

/// Puts the parts of an expression in front of what is left, without parentheses around them.
fn push_parts<'a>(
    left: &mut Stack<Work<'a>>,
    gap: Gap,
    head: ExpHead<'a>,
) -> Result<(), OutOfMemory>
    ensures { OnOk result (left.new ≡ layout gap head.entry ++ left.old) }
{
    match head {
        ExpHead::Literal(number) => left.push(put!(gap, Token16::Number(number))),
        ExpHead::Truth(value) => left.push(put!(gap, Token16::Word(truth_word(value)))),
        ExpHead::Error => left.push(put!(gap, Token16::Word(Keyword16::Error))),
        ExpHead::Name(text) => {
            left.push(put!(gap, Token16::Name(TextView::new(text.as_slice()))))
        }
        ExpHead::Member(e, word) => {
            push_suffix(left, gap, e, Part::Member(TextView::new(word.as_slice())))
        }
        ExpHead::Index(e, at) => push_suffix(left, gap, e, Part::Index(at)),
        ExpHead::Slice(e, high, low) => push_suffix(left, gap, e, Part::Slice(high, low)),
        ExpHead::Call(e, arguments) => push_call(left, gap, e, paren_open(), arguments),
        ExpHead::Lookahead(e, of, arguments) => {
            push_call(left, gap, e, Part::Lookahead(of), arguments)
        }
        ExpHead::Cast(to, e) => left.push_two(
            Work::Say(Part::Cast(gap, to)),
            Work::Visit(Gap::Space, Form::Full, e),
        ),
        ExpHead::Unary(operator, e) => left.push_two(
            mark!(gap, prefix_mark(operator)),
            Work::Visit(Gap::Nothing, Form::Full, e),
        ),
        ExpHead::Binary(operator, a, b) => push_binary(left, gap, operator, a, b),
        ExpHead::Choice(c, a, b) => push_choice(left, gap, c, a, b),
        ExpHead::NoArguments => Ok(()),
        ExpHead::Argument(before, last) => push_argument(left, gap, before, last),
        ExpHead::Listed(items) => push_listed(left, gap, items),
    }
}

/// What opens the parentheses of a call.
fn paren_open() -> Part<'static>
    ensures { result ≡ call_opening }
{
    Part::Put(Gap::Nothing, Token16::Mark(Mark16::ParenOpen))
}

/// Puts an expression and what stands right behind it in front of what is left.
fn push_suffix<'a>(
    left: &mut Stack<Work<'a>>,
    gap: Gap,
    e: ExpView<'a>,
    suffix: Part<'a>,
) -> Result<(), OutOfMemory>
    ensures { OnOk result (left.new ≡ Visit gap Base e.entry ∷ Say suffix.entry ∷ left.old) }
{
    left.push_two(Work::Visit(gap, Form::Base, e), Work::Say(suffix))
}

/// Puts what is called and the arguments in front of what is left, with what opens their parentheses.
fn push_call<'a>(
    left: &mut Stack<Work<'a>>,
    gap: Gap,
    e: ExpView<'a>,
    opening: Part<'a>,
    arguments: ExpView<'a>,
) -> Result<(), OutOfMemory>
    ensures { OnOk result (left.new ≡ call_layout gap e.entry opening.entry arguments.entry ++ left.old) }
{
    push_four(
        left,
        Work::Visit(gap, Form::Base, e),
        Work::Say(opening),
        Work::Visit(Gap::Nothing, Form::Within, arguments),
        mark!(Gap::Nothing, Mark16::ParenClose),
    )
}

/// Puts an operator between its operands in front of what is left.
fn push_binary<'a>(
    left: &mut Stack<Work<'a>>,
    gap: Gap,
    operator: BinaryOperator,
    a: ExpView<'a>,
    b: ExpView<'a>,
) -> Result<(), OutOfMemory>
    ensures { OnOk result (left.new ≡ layout gap (Binary operator a.entry b.entry) ++ left.old) }
{
    left.push_three(
        Work::Visit(gap, Form::Full, a),
        put!(Gap::Space, operator_token(operator)),
        Work::Visit(Gap::Space, Form::Full, b),
    )
}

/// Puts a condition and the values that it chooses from in front of what is left.
fn push_choice<'a>(
    left: &mut Stack<Work<'a>>,
    gap: Gap,
    c: ExpView<'a>,
    a: ExpView<'a>,
    b: ExpView<'a>,
) -> Result<(), OutOfMemory>
    ensures { OnOk result (left.new ≡ layout gap (Choice c.entry a.entry b.entry) ++ left.old) }
{
    push_five(
        left,
        Work::Visit(gap, Form::Full, c),
        mark!(Gap::Space, Mark16::Question),
        Work::Visit(Gap::Space, Form::Full, a),
        mark!(Gap::Space, Mark16::Colon),
        Work::Visit(Gap::Space, Form::Full, b),
    )
}

/// Puts a list that is an argument in front of what is left.
fn push_listed<'a>(
    left: &mut Stack<Work<'a>>,
    gap: Gap,
    items: ExpView<'a>,
) -> Result<(), OutOfMemory>
    ensures { OnOk result (left.new ≡ layout gap (Listed items.entry) ++ left.old) }
{
    left.push_three(
        mark!(gap, Mark16::BraceOpen),
        Work::Visit(Gap::Space, Form::Within, items),
        mark!(Gap::Space, Mark16::BraceClose),
    )
}

/// Puts an argument list with its last argument in front of what is left.
fn push_argument<'a>(
    left: &mut Stack<Work<'a>>,
    gap: Gap,
    before: ExpView<'a>,
    last: ExpView<'a>,
) -> Result<(), OutOfMemory>
    ensures { OnOk result (left.new ≡ argument_layout (is_no_arguments before.entry) gap before.entry last.entry ++ left.old) }
{
    if is_no_arguments(&before) {
        left.push(Work::Visit(gap, Form::Full, last))
    } else {
        left.push_three(
            Work::Visit(gap, Form::Within, before),
            mark!(Gap::Nothing, Mark16::Comma),
            Work::Visit(Gap::Space, Form::Full, last),
        )
    }
}

/// Whether an argument list has no arguments.
fn is_no_arguments(arguments: &ExpView<'_>) -> bool
    ensures { result ≡ is_no_arguments arguments.now }
{
    matches!(arguments.head(), ExpHead::NoArguments)
}
