// Tokens that are put on a sheet, one after another.
ghost use Rattle.std.specs.Prelude.{IsTrue};
ghost use Rattle.p416_sheet.specs.Tokens.{are_put};

use p4x_bits::{Octets, OutOfMemory};
use p416_sheet::{Gap, Put16, Sheet16, TextView, Token16, put_tokens};
use p416_syntax::{Annotation16, Include16, Keyword16, Literal16, Mark16};
use std::alloc::Global;

macro_rules! put {
    ($gap:expr, $token:expr) => {
        Put16 {
            gap: $gap,
            token: $token,
        }
    };
}

macro_rules! mark {
    ($mark:expr) => {
        put!(Gap::Nothing, Token16::Mark($mark))
    };
}

/// The text of these tokens.
fn written(alloc: Global, tokens: &[Put16<'_>]) -> Result<Octets, OutOfMemory>
    requires { IsTrue (are_put tokens.now) }
{
    let mut sheet = Sheet16::new(alloc);
    put_tokens(alloc, &mut sheet, tokens)?;
    sheet.finish()
}

/// Whether this is their text.
fn is_written(alloc: Global, tokens: &[Put16<'_>], wanted: &[u8]) -> bool
    requires { IsTrue (are_put tokens.now) }
{
    match &written(alloc, tokens) {
        Ok(text) => text.as_slice() == wanted,
        Err(_) => false,
    }
}

#[test]
fn marks_that_would_be_one_are_kept_apart(rt: HostRuntime) {
    let is_so = is_written(
        rt.alloc(),
        &[
            mark!(Mark16::Less),
            mark!(Mark16::Less),
            mark!(Mark16::Ampersand),
            mark!(Mark16::AndAnd),
            mark!(Mark16::Bar),
            mark!(Mark16::Plus),
            mark!(Mark16::Minus),
            mark!(Mark16::Minus),
        ],
        b"< <& &&| +--\n",
    );
    assert!(rt; is_so);
}

#[test]
fn two_greater_marks_touch_in_a_shift_alone(rt: HostRuntime) {
    let is_so = is_written(
        rt.alloc(),
        &[
            mark!(Mark16::Greater),
            mark!(Mark16::Greater),
            mark!(Mark16::Semicolon),
            put!(Gap::Nothing, Token16::ShiftRight),
            mark!(Mark16::Greater),
        ],
        b"> >;>> >\n",
    );
    assert!(rt; is_so);
}

#[test]
fn names_and_numbers_are_kept_apart_and_lines_have_levels(rt: HostRuntime) {
    let is_so = is_written(
        rt.alloc(),
        &[
            put!(Gap::Nothing, Token16::Include(Include16::Core)),
            put!(Gap::Nothing, Token16::Word(Keyword16::Bit)),
            put!(Gap::Nothing, Token16::Word(Keyword16::Bool)),
            put!(
                Gap::Line(1),
                Token16::Number(Literal16 {
                    width: Some(8),
                    value: 255,
                })
            ),
            put!(
                Gap::Nothing,
                Token16::Number(Literal16 {
                    width: None,
                    value: 10,
                })
            ),
            put!(Gap::Line(2), Token16::At(Annotation16::Name)),
            mark!(Mark16::ParenOpen),
            put!(Gap::Nothing, Token16::Quoted(TextView::new(b"a"))),
            mark!(Mark16::ParenClose),
        ],
        b"#include <core.p4>\nbit bool\n    8w255 10\n        @name(\"a\")\n",
    );
    assert!(rt; is_so);
}
