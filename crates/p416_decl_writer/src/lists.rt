// Lists of parts.
ghost use Rattle.std.specs.Prelude.{◌≡◌, ◌++◌, OnOk, IsTrue};
ghost use Rattle.std.specs.List.{flat_map};
ghost use Rattle.p416_syntax.specs.Written.{after_commas, by_commas};
ghost use Rattle.p416_spelling.specs.Words.{words16};
ghost use Rattle.p416_decl_writer.specs.Tokens.{are_spelt};

use crate::written::Written;
use p4x_bits::OutOfMemory;
use p416_sheet::{Gap, Sheet16, Token16, put_token};
use p416_syntax::Mark16;
use std::alloc::Global;

/// Writes parts one after another, with the one gap in front of the first and the other in front of each further one.
pub fn write_all<T: Written>(
    alloc: Global,
    sheet: &mut Sheet16,
    first: Gap,
    further: Gap,
    items: &[T],
) -> Result<(), OutOfMemory>
    requires { IsTrue (are_spelt (flat_map T.plain items.now)) }
    ensures { OnOk result (sheet.new ≡ sheet.old ++ words16 (flat_map T.full items.now)) }
{
    let mut gap = first;
    for item in items {
        item.write(alloc, sheet, gap)?;
        gap = further;
    }
    Ok(())
}

/// Writes parts with commas between them.
pub fn write_by_commas<T: Written>(
    alloc: Global,
    sheet: &mut Sheet16,
    items: &[T],
) -> Result<(), OutOfMemory>
    requires { IsTrue (are_spelt (by_commas T.plain items.now)) }
    ensures { OnOk result (sheet.new ≡ sheet.old ++ words16 (by_commas T.full items.now)) }
{
    match items {
        [] => Ok(()),
        [first, rest @ ..] => {
            first.write(alloc, sheet, Gap::Nothing)?;
            write_after_commas(alloc, sheet, rest)
        }
    }
}

/// Writes parts, each behind a comma.
fn write_after_commas<T: Written>(
    alloc: Global,
    sheet: &mut Sheet16,
    items: &[T],
) -> Result<(), OutOfMemory>
    requires { IsTrue (are_spelt (after_commas T.plain items.now)) }
    ensures { OnOk result (sheet.new ≡ sheet.old ++ words16 (after_commas T.full items.now)) }
{
    for item in items {
        put_token(alloc, sheet, Gap::Nothing, &Token16::Mark(Mark16::Comma))?;
        item.write(alloc, sheet, Gap::Space)?;
    }
    Ok(())
}
