// Controls and what is declared in them.
use crate::gaps::{on_next_line, set_apart};
use crate::lists::write_all;
use crate::names::write_heading;
use crate::objects::write_object;
use crate::params::{write_block, write_params};
use crate::written::Written;
use p4x_bits::OutOfMemory;
use p416_sheet::{Gap, Put16, Sheet16, Token16, put_tokens};
use p416_syntax::{Control16, Keyword16, Local, Mark16};
use std::alloc::Global;

impl Written for Local {
    ghost use Rattle.p416_syntax.specs.Written.{written_local};
    ghost use Rattle.p416_parentheses.specs.Syntax.{full_local};

    ghost plain = { written_local };

    ghost full = { λ l. written_local (full_local l) };

    fn write(&self, alloc: Global, sheet: &mut Sheet16, gap: Gap) -> Result<(), OutOfMemory> {
        match self {
            Local::Instance(notes, object) => {
                write_object(alloc, sheet, on_next_line(gap), notes.as_slice(), object)
            }
            Local::Var(var) => var.write(alloc, sheet, on_next_line(gap)),
            Local::Action(action) => action.write(alloc, sheet, gap),
            Local::Table(table) => table.write(alloc, sheet, gap),
        }
    }
}

impl Written for Control16 {
    ghost use Rattle.p416_syntax.specs.Written.{written_control};
    ghost use Rattle.p416_parentheses.specs.Syntax.{full_control};

    ghost plain = { written_control };

    ghost full = { λ c. written_control (full_control c) };

    #[tactic(auto, using(crate::proofs::Spelt::control_params, crate::proofs::Spelt::control_locals, crate::proofs::Spelt::control_body))]
    fn write(&self, alloc: Global, sheet: &mut Sheet16, gap: Gap) -> Result<(), OutOfMemory> {
        write_heading(alloc, sheet, gap, Keyword16::Control, &self.name)?;
        write_params(alloc, sheet, self.parameters.as_slice())?;
        put_tokens(alloc, sheet, &[mark!(Gap::Space, BraceOpen)])?;
        let locals = self.locals.as_slice();
        write_all(alloc, sheet, Gap::Line(1), Gap::Paragraph(1), locals)?;
        put_tokens(
            alloc,
            sheet,
            &[word!(set_apart(1, locals.is_empty()), Apply)],
        )?;
        write_block(alloc, sheet, &self.body)?;
        put_tokens(alloc, sheet, &[mark!(Gap::Line(0), BraceClose)])
    }
}
