// Which row of a word is taken.
ghost use Rattle.std.specs.Prelude.{◌≡◌, ◌<◌, [], ◌∷◌, map, length, None, Some, IfOk, slice_get};
ghost use Rattle.predictive_parser.specs.Grammar.{first_fit, lines_of, plain_lines, with_more};
ghost use Rattle.predictive_parser.specs.Choices.{Chooses};
ghost use Rattle.predictive_parser.specs.Told.{line, told};

use crate::{Builder, Row, Stack, Symbol};
use p4x_bits::OutOfMemory;

/// The class of the first row of the word that fits the token at this place, if one does. The symbols of the row that
/// follow the token are put onto the stack.
pub fn choose<B: Builder>(
    builder: &B,
    word: B::Word,
    place: usize,
    stack: &mut Stack<B::Class, B::Action, B::Word>,
) -> Result<Option<B::Class>, OutOfMemory>
    requires { place < length (B.tokens builder.now) }
    ensures chooses { IfOk result (λ class. (token : B.Token) → slice_get (B.tokens builder.now) place ≡ Some token
        → Chooses class (first_fit B.grammar token (B.held builder.now) (lines_of B.grammar (B.grammar.rows word))) stack.old stack.new) }
    ensures none { IfOk result (λ class. class ≡ None → stack.new ≡ stack.old) }
{
    for row in builder.rows(word).rows {
        let found = choose_row(builder, word, row, place, stack)?;
        if found.is_some() {
            return Ok(found);
        }
    }
    Ok(None)
}

/// The same of one row of the word.
fn choose_row<B: Builder>(
    builder: &B,
    word: B::Word,
    row: &Row<'_, B::Class, B::Action, B::Word>,
    place: usize,
    stack: &mut Stack<B::Class, B::Action, B::Word>,
) -> Result<Option<B::Class>, OutOfMemory>
    requires { place < length (B.tokens builder.now) }
    ensures chooses { IfOk result (λ class. (token : B.Token) → slice_get (B.tokens builder.now) place ≡ Some token
        → Chooses class (first_fit B.grammar token (B.held builder.now) (lines_of B.grammar (told (B.coded word) (row.now ∷ []))))
        stack.old stack.new) }
    ensures none { IfOk result (λ class. class ≡ None → stack.new ≡ stack.old) }
{
    let nothing: [Symbol<B::Class, B::Action, B::Word>; 0] = [];
    match row {
        Row::Plain(first, rest) => take(builder, *first, rest, &nothing, place, stack),
        Row::Like(other, more) => choose_like(builder, *other, more, place, stack),
        Row::Coded => builder.choose_coded(word, &nothing, place, stack),
    }
}

/// The same of the rows of the word that name no other word, with `more` behind the symbols of each.
fn choose_like<B: Builder>(
    builder: &B,
    word: B::Word,
    more: &[Symbol<B::Class, B::Action, B::Word>],
    place: usize,
    stack: &mut Stack<B::Class, B::Action, B::Word>,
) -> Result<Option<B::Class>, OutOfMemory>
    requires { place < length (B.tokens builder.now) }
    ensures chooses { IfOk result (λ class. (token : B.Token) → slice_get (B.tokens builder.now) place ≡ Some token
        → Chooses class (first_fit B.grammar token (B.held builder.now) (map (with_more more.now) (plain_lines (B.grammar.rows word))))
        stack.old stack.new) }
    ensures none { IfOk result (λ class. class ≡ None → stack.new ≡ stack.old) }
{
    for row in builder.rows(word).rows {
        let found = choose_line(builder, word, row, more, place, stack)?;
        if found.is_some() {
            return Ok(found);
        }
    }
    Ok(None)
}

/// The same of one row.
fn choose_line<B: Builder>(
    builder: &B,
    word: B::Word,
    row: &Row<'_, B::Class, B::Action, B::Word>,
    more: &[Symbol<B::Class, B::Action, B::Word>],
    place: usize,
    stack: &mut Stack<B::Class, B::Action, B::Word>,
) -> Result<Option<B::Class>, OutOfMemory>
    requires { place < length (B.tokens builder.now) }
    ensures chooses { IfOk result (λ class. (token : B.Token) → slice_get (B.tokens builder.now) place ≡ Some token
        → Chooses class
        (first_fit B.grammar token (B.held builder.now) (map (with_more more.now) (plain_lines (told (B.coded word) (row.now ∷ [])))))
        stack.old stack.new) }
    ensures none { IfOk result (λ class. class ≡ None → stack.new ≡ stack.old) }
{
    match row {
        Row::Plain(first, rest) => take(builder, *first, rest, more, place, stack),
        Row::Like(_, _) => Ok(None),
        Row::Coded => builder.choose_coded(word, more, place, stack),
    }
}

/// The class, if it is that of the token at this place. The symbols are then put onto the stack, with `more` behind.
fn take<B: Builder>(
    builder: &B,
    first: B::Class,
    rest: &[Symbol<B::Class, B::Action, B::Word>],
    more: &[Symbol<B::Class, B::Action, B::Word>],
    place: usize,
    stack: &mut Stack<B::Class, B::Action, B::Word>,
) -> Result<Option<B::Class>, OutOfMemory>
    requires { place < length (B.tokens builder.now) }
    ensures chooses { IfOk result (λ class. (token : B.Token) → slice_get (B.tokens builder.now) place ≡ Some token
        → Chooses class (first_fit B.grammar token (B.held builder.now) (map (with_more more.now) (line first rest.now ∷ [])))
        stack.old stack.new) }
    ensures none { IfOk result (λ class. class ≡ None → stack.new ≡ stack.old) }
{
    if !builder.accepts(first, place) {
        return Ok(None);
    }
    stack.push_all(more)?;
    stack.push_all(rest)?;
    Ok(Some(first))
}
