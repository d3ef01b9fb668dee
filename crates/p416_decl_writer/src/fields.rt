// Header and struct types.
use crate::gaps::closing;
use crate::lists::write_all;
use crate::names::{write_heading, write_name};
use crate::notes::write_notes;
use crate::written::Written;
use p4x_bits::OutOfMemory;
use p416_exp_writer::write_type;
use p416_sheet::{Gap, Put16, Sheet16, TextView, Token16, put_tokens};
use p416_syntax::{BitField, Header16, Keyword16, Mark16, Struct16, StructField};
use std::alloc::Global;

impl Written for BitField {
    ghost use Rattle.p416_syntax.specs.Written.{written_bit_field};

    ghost plain = { written_bit_field };

    ghost full = { written_bit_field };

    fn write(&self, alloc: Global, sheet: &mut Sheet16, gap: Gap) -> Result<(), OutOfMemory> {
        put_tokens(
            alloc,
            sheet,
            &[
                word!(gap, Bit),
                mark!(Gap::Nothing, Less),
                number!(Gap::Nothing, self.width),
                mark!(Gap::Nothing, Greater),
                name!(Gap::Space, self.name.as_slice()),
                mark!(Gap::Nothing, Semicolon),
            ],
        )
    }
}

impl Written for Header16 {
    ghost use Rattle.p416_syntax.specs.Written.{written_header};

    ghost plain = { written_header };

    ghost full = { written_header };

    #[tactic(auto, using(crate::proofs::Spelt::header_fields))]
    fn write(&self, alloc: Global, sheet: &mut Sheet16, gap: Gap) -> Result<(), OutOfMemory> {
        write_heading(alloc, sheet, gap, Keyword16::Header, &self.name)?;
        put_tokens(alloc, sheet, &[mark!(Gap::Space, BraceOpen)])?;
        let fields = self.fields.as_slice();
        write_all(alloc, sheet, Gap::Line(1), Gap::Line(1), fields)?;
        put_tokens(
            alloc,
            sheet,
            &[mark!(closing(0, fields.is_empty()), BraceClose)],
        )
    }
}

impl Written for StructField {
    ghost use Rattle.p416_syntax.specs.Written.{written_struct_field};

    ghost plain = { written_struct_field };

    ghost full = { written_struct_field };

    #[tactic(auto, using(crate::proofs::Spelt::field_type, crate::proofs::Spelt::field_name))]
    fn write(&self, alloc: Global, sheet: &mut Sheet16, gap: Gap) -> Result<(), OutOfMemory> {
        let line = write_notes(alloc, sheet, gap, self.notes.as_slice())?;
        write_type(alloc, sheet, line, &self.of)?;
        write_name(alloc, sheet, Gap::Space, &self.name)?;
        put_tokens(alloc, sheet, &[mark!(Gap::Nothing, Semicolon)])
    }
}

impl Written for Struct16 {
    ghost use Rattle.p416_syntax.specs.Written.{written_struct};

    ghost plain = { written_struct };

    ghost full = { written_struct };

    #[tactic(auto, using(crate::proofs::Spelt::struct_fields))]
    fn write(&self, alloc: Global, sheet: &mut Sheet16, gap: Gap) -> Result<(), OutOfMemory> {
        write_heading(alloc, sheet, gap, Keyword16::Struct, &self.name)?;
        put_tokens(alloc, sheet, &[mark!(Gap::Space, BraceOpen)])?;
        let fields = self.fields.as_slice();
        write_all(alloc, sheet, Gap::Line(1), Gap::Line(1), fields)?;
        put_tokens(
            alloc,
            sheet,
            &[mark!(closing(0, fields.is_empty()), BraceClose)],
        )
    }
}
