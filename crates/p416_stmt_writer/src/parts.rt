// Parts of statements.
ghost use Rattle.std.specs.Prelude.{◌≡◌, ◌++◌, ◌∷◌, [], OnOk, IsTrue};
ghost use Rattle.p416_syntax.specs.declared.keyword.Keyword16.TheVariants.{Switch};
ghost use Rattle.p416_syntax.specs.Tokens.{id, quoted, brace_open, colon, in_parens, is_spelt_seen};
ghost use Rattle.p416_syntax.specs.Written.{written_label, written_run};
ghost use Rattle.p416_spelling.specs.Words.{words16};
ghost use Rattle.p416_stmt_writer.specs.Layouts.{are_spelt};

use p4x_bits::OutOfMemory;
use p416_sheet::{Gap, Put16, Sheet16, TextView, Token16, put_tokens};
use p416_syntax::{CaseLabel, Keyword16, Mark16};
use std::alloc::Global;

macro_rules! mark {
    ($gap:expr, $mark:expr) => {
        Put16 {
            gap: $gap,
            token: Token16::Mark($mark),
        }
    };
}

macro_rules! word {
    ($gap:expr, $word:expr) => {
        Put16 {
            gap: $gap,
            token: Token16::Word($word),
        }
    };
}

macro_rules! name {
    ($gap:expr, $text:expr) => {
        Put16 {
            gap: $gap,
            token: Token16::Name(TextView::new($text)),
        }
    };
}

/// Writes `switch (TABLE.apply().action_run) {` (P4_16 1.2, "Switch statement").
pub fn write_run(
    alloc: Global,
    sheet: &mut Sheet16,
    gap: Gap,
    table: &TextView<'_>,
) -> Result<(), OutOfMemory>
    requires { IsTrue (is_spelt_seen (id table.now)) }
    ensures { OnOk result (sheet.new ≡ sheet.old ++ words16 (quoted Switch ∷ (in_parens (written_run table.now) ++ brace_open ∷ []))) }
{
    put_tokens(
        alloc,
        sheet,
        &[
            word!(gap, Keyword16::Switch),
            mark!(Gap::Space, Mark16::ParenOpen),
            name!(Gap::Nothing, table.as_slice()),
            mark!(Gap::Nothing, Mark16::Dot),
            word!(Gap::Nothing, Keyword16::Apply),
            mark!(Gap::Nothing, Mark16::ParenOpen),
            mark!(Gap::Nothing, Mark16::ParenClose),
            mark!(Gap::Nothing, Mark16::Dot),
            word!(Gap::Nothing, Keyword16::ActionRun),
            mark!(Gap::Nothing, Mark16::ParenClose),
            mark!(Gap::Space, Mark16::BraceOpen),
        ],
    )
}

/// Writes `LABEL: {`.
pub fn write_label(
    alloc: Global,
    sheet: &mut Sheet16,
    gap: Gap,
    label: &CaseLabel,
) -> Result<(), OutOfMemory>
    requires { IsTrue (are_spelt (written_label label.now)) }
    ensures { OnOk result (sheet.new ≡ sheet.old ++ words16 (written_label label.now ++ colon ∷ brace_open ∷ [])) }
{
    match label {
        CaseLabel::Default => put_tokens(
            alloc,
            sheet,
            &[
                word!(gap, Keyword16::Default),
                mark!(Gap::Nothing, Mark16::Colon),
                mark!(Gap::Space, Mark16::BraceOpen),
            ],
        ),
        CaseLabel::Action(text) => put_tokens(
            alloc,
            sheet,
            &[
                name!(gap, text.as_slice()),
                mark!(Gap::Nothing, Mark16::Colon),
                mark!(Gap::Space, Mark16::BraceOpen),
            ],
        ),
    }
}
