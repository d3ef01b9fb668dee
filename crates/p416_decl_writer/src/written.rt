// Parts of a syntax that are written, and their tokens.
ghost use Rattle.std.specs.Prelude.{◌≡◌, ◌++◌, OnOk, IsTrue};
ghost use Rattle.p416_spelling.specs.Words.{words16};
ghost use Rattle.p416_decl_writer.specs.Tokens.{are_spelt};

use p4x_bits::OutOfMemory;
use p416_sheet::{Gap, Sheet16};
use std::alloc::Global;

/// What is written in one piece.
pub trait Written {
    ghost use Rattle.std.specs.Prelude.{List};
    ghost use Rattle.p416_syntax.specs.Tokens.{Seen16};

    // Its tokens, without parentheses around expressions.
    ghost plain: { Self → List Seen16 };

    // Its tokens as they are written.
    ghost full: { Self → List Seen16 };

    /// Writes it behind what stands on the sheet. The only error is want of memory.
    fn write(&self, alloc: Global, sheet: &mut Sheet16, gap: Gap) -> Result<(), OutOfMemory>
        requires { IsTrue (are_spelt (plain self.now)) }
        ensures { OnOk result (sheet.new ≡ sheet.old ++ words16 (full self.now)) };
}
