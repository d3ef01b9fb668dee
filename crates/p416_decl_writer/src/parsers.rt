// Parsers.
use crate::gaps::{closing, set_apart};
use crate::lists::write_all;
use crate::names::write_heading;
use crate::params::write_params;
use crate::written::Written;
use p4x_bits::OutOfMemory;
use p416_sheet::{Gap, Put16, Sheet16, Token16, put_tokens};
use p416_syntax::{Keyword16, Mark16, Parser16};
use std::alloc::Global;

/// Whether a parser has neither variables nor states.
fn is_without_parts(parser: &Parser16) -> bool {
    parser.vars.as_slice().is_empty() && parser.states.as_slice().is_empty()
}

impl Written for Parser16 {
    ghost use Rattle.p416_syntax.specs.Written.{written_parser};
    ghost use Rattle.p416_parentheses.specs.Syntax.{full_parser};

    ghost plain = { written_parser };

    ghost full = { λ p. written_parser (full_parser p) };

    #[tactic(auto, using(crate::proofs::Spelt::parser_params, crate::proofs::Spelt::parser_vars, crate::proofs::Spelt::parser_states))]
    fn write(&self, alloc: Global, sheet: &mut Sheet16, gap: Gap) -> Result<(), OutOfMemory> {
        write_heading(alloc, sheet, gap, Keyword16::Parser, &self.name)?;
        write_params(alloc, sheet, self.parameters.as_slice())?;
        put_tokens(alloc, sheet, &[mark!(Gap::Space, BraceOpen)])?;
        let vars = self.vars.as_slice();
        write_all(alloc, sheet, Gap::Line(1), Gap::Line(1), vars)?;
        let first = set_apart(1, vars.is_empty());
        write_all(
            alloc,
            sheet,
            first,
            Gap::Paragraph(1),
            self.states.as_slice(),
        )?;
        put_tokens(
            alloc,
            sheet,
            &[mark!(closing(0, is_without_parts(self)), BraceClose)],
        )
    }
}
