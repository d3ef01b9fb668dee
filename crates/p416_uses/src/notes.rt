// Numbers in annotations.
ghost use Rattle.std.specs.Prelude.{◌≡◌, map};
ghost use Rattle.p416_syntax.specs.Declarations.{list_numbers, note_uses};
ghost use Rattle.p416_syntax.specs.Uses.{a_number};
ghost use Rattle.p416_expression_uses.specs.Found.{after, after_all};

use p416_expression_uses::{Findings, see_number};
use p416_syntax::{Literal16, Note};

/// Judges one of these numbers.
fn see_one(number: &Literal16, found: &mut Findings<'_>)
    ensures { found.new ≡ after found.old (a_number number.now) }
{
    see_number(*number, found);
}

/// Judges these numbers.
fn see_numbers(numbers: &[Literal16], found: &mut Findings<'_>)
    ensures { found.new ≡ after_all found.old (map a_number numbers.now) }
{
    for number in numbers {
        see_one(number, found);
    }
}

/// Judges the numbers in an annotation.
fn see_note(note: &Note, found: &mut Findings<'_>)
    ensures { found.new ≡ after_all found.old (map a_number (list_numbers note.now)) }
{
    match note {
        Note::Name(_) => {}
        Note::FieldList(numbers) => see_numbers(numbers.as_slice(), found),
    }
}

/// Judges annotations.
#[tactic(auto, using(crate::proofs::Turns::numbers_turn))]
pub(crate) fn see_notes(notes: &[Note], found: &mut Findings<'_>)
    ensures { found.new ≡ after_all found.old (note_uses notes.now) }
{
    for note in notes {
        see_note(note, found);
    }
}
