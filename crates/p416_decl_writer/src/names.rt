// Names, and the headings of declarations.
ghost use Rattle.std.specs.Prelude.{◌≡◌, ◌++◌, ◌∷◌, [], OnOk, IsTrue};
ghost use Rattle.p416_syntax.specs.Tokens.{id, quoted, is_spelt_seen};
ghost use Rattle.p416_spelling.specs.Words.{words16};

use p4x_bits::{OutOfMemory, Text};
use p416_sheet::{Gap, Put16, Sheet16, TextView, Token16, put_token, put_tokens};
use p416_syntax::Keyword16;
use std::alloc::Global;

/// Writes a name that is no reserved word.
#[tactic(auto, using(crate::proofs::Spelt::name_put))]
pub fn write_name(
    alloc: Global,
    sheet: &mut Sheet16,
    gap: Gap,
    name: &Text,
) -> Result<(), OutOfMemory>
    requires { IsTrue (is_spelt_seen (id name.now)) }
    ensures { OnOk result (sheet.new ≡ sheet.old ++ words16 (id name.now ∷ [])) }
{
    put_token(
        alloc,
        sheet,
        gap,
        &Token16::Name(TextView::new(name.as_slice())),
    )
}

/// Writes `WORD NAME`, with which a declaration begins.
#[tactic(auto, using(crate::proofs::Spelt::name_put))]
pub fn write_heading(
    alloc: Global,
    sheet: &mut Sheet16,
    gap: Gap,
    word: Keyword16,
    name: &Text,
) -> Result<(), OutOfMemory>
    requires { IsTrue (is_spelt_seen (id name.now)) }
    ensures { OnOk result (sheet.new ≡ sheet.old ++ words16 (quoted word ∷ id name.now ∷ [])) }
{
    put_tokens(
        alloc,
        sheet,
        &[
            Put16 {
                gap,
                token: Token16::Word(word),
            },
            name!(Gap::Space, name.as_slice()),
        ],
    )
}
