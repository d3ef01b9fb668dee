// Actions, and the names by which tables list them.
ghost use Rattle.std.specs.Prelude.{◌≡◌, ◌++◌, OnOk, IsTrue};
ghost use Rattle.p416_syntax.specs.Written.{written_action_name};
ghost use Rattle.p416_spelling.specs.Words.{words16};
ghost use Rattle.p416_decl_writer.specs.Tokens.{are_spelt};

use crate::names::{write_heading, write_name};
use crate::notes::write_notes;
use crate::params::{write_block, write_params};
use crate::written::Written;
use p4x_bits::OutOfMemory;
use p416_sheet::{Gap, Put16, Sheet16, Token16, put_tokens};
use p416_syntax::{Action16, ActionName, Keyword16, Mark16};
use std::alloc::Global;

impl Written for Action16 {
    ghost use Rattle.p416_syntax.specs.Written.{written_action};
    ghost use Rattle.p416_parentheses.specs.Syntax.{full_action};

    ghost plain = { written_action };

    ghost full = { λ a. written_action (full_action a) };

    #[tactic(auto, using(crate::proofs::Spelt::action_called, crate::proofs::Spelt::action_params, crate::proofs::Spelt::action_body))]
    fn write(&self, alloc: Global, sheet: &mut Sheet16, gap: Gap) -> Result<(), OutOfMemory> {
        let line = write_notes(alloc, sheet, gap, self.notes.as_slice())?;
        write_heading(alloc, sheet, line, Keyword16::Action, &self.name)?;
        write_params(alloc, sheet, self.parameters.as_slice())?;
        write_block(alloc, sheet, &self.body)
    }
}

/// Writes the name of an action.
pub fn write_action_name(
    alloc: Global,
    sheet: &mut Sheet16,
    gap: Gap,
    action: &ActionName,
) -> Result<(), OutOfMemory>
    requires { IsTrue (are_spelt (written_action_name action.now)) }
    ensures { OnOk result (sheet.new ≡ sheet.old ++ words16 (written_action_name action.now)) }
{
    match action {
        ActionName::Declared(name) => write_name(alloc, sheet, gap, name),
        ActionName::NoAction => put_tokens(alloc, sheet, &[word!(gap, NoAction)]),
    }
}

impl Written for ActionName {
    ghost use Rattle.p416_syntax.specs.Written.{written_listed_action};

    ghost plain = { written_listed_action };

    ghost full = { written_listed_action };

    fn write(&self, alloc: Global, sheet: &mut Sheet16, gap: Gap) -> Result<(), OutOfMemory> {
        write_action_name(alloc, sheet, gap, self)?;
        put_tokens(alloc, sheet, &[mark!(Gap::Nothing, Semicolon)])
    }
}
