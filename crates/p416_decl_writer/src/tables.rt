// Tables and their properties.
ghost use Rattle.std.specs.Prelude.{◌≡◌, ◌++◌, OnOk, IsTrue};
ghost use Rattle.p416_syntax.specs.declared.controls.Property.TheVariants.{DefaultAction as DefaultProperty, Key as KeyProperty, Actions as ActionsProperty};
ghost use Rattle.p416_syntax.specs.Written.{written_property};
ghost use Rattle.p416_parentheses.specs.Syntax.{full_property};
ghost use Rattle.p416_spelling.specs.Words.{words16};
ghost use Rattle.p416_decl_writer.specs.Tokens.{are_spelt};

use crate::actions::write_action_name;
use crate::gaps::closing;
use crate::lists::write_all;
use crate::names::{write_heading, write_name};
use crate::notes::write_notes;
use crate::written::Written;
use p4x_bits::OutOfMemory;
use p416_exp_writer::{Form, write_expression};
use p416_sheet::{Gap, Put16, Sheet16, TextView, Token16, put_tokens};
use p416_syntax::{ActionName, Exp, Keyword16, Mark16, Property, Table16, TableKey};
use std::alloc::Global;

impl Written for TableKey {
    ghost use Rattle.p416_syntax.specs.Written.{written_key};
    ghost use Rattle.p416_parentheses.specs.Syntax.{full_key};

    ghost plain = { written_key };

    ghost full = { λ k. written_key (full_key k) };

    #[tactic(auto, using(crate::proofs::Spelt::key_kind, crate::proofs::Spelt::key_notes))]
    fn write(&self, alloc: Global, sheet: &mut Sheet16, gap: Gap) -> Result<(), OutOfMemory> {
        write_expression(alloc, sheet, gap, Form::Full, self.exp.view())?;
        put_tokens(alloc, sheet, &[mark!(Gap::Nothing, Colon)])?;
        write_name(alloc, sheet, Gap::Space, &self.kind)?;
        write_all(alloc, sheet, Gap::Space, Gap::Space, self.notes.as_slice())?;
        put_tokens(alloc, sheet, &[mark!(Gap::Nothing, Semicolon)])
    }
}

impl Written for Property {
    ghost use Rattle.p416_syntax.specs.Written.{written_property};
    ghost use Rattle.p416_parentheses.specs.Syntax.{full_property};

    ghost plain = { written_property };

    ghost full = { λ p. written_property (full_property p) };

    fn write(&self, alloc: Global, sheet: &mut Sheet16, gap: Gap) -> Result<(), OutOfMemory> {
        match self {
            Property::Key(keys) => write_keys(alloc, sheet, gap, keys.as_slice()),
            Property::Actions(names) => write_actions(alloc, sheet, gap, names.as_slice()),
            Property::Size(size) => put_tokens(
                alloc,
                sheet,
                &[
                    word!(gap, Size),
                    mark!(Gap::Space, Assign),
                    number!(Gap::Space, *size),
                    mark!(Gap::Nothing, Semicolon),
                ],
            ),
            Property::Counters(name) => put_tokens(
                alloc,
                sheet,
                &[
                    word!(gap, Counters),
                    mark!(Gap::Space, Assign),
                    name!(Gap::Space, name.as_slice()),
                    mark!(Gap::Nothing, Semicolon),
                ],
            ),
            Property::DefaultAction(action, arguments) => {
                write_default_action(alloc, sheet, gap, action, arguments)
            }
        }
    }
}

/// Writes `key = { KEY .. }`, each key on a line of its own.
fn write_keys(
    alloc: Global,
    sheet: &mut Sheet16,
    gap: Gap,
    keys: &[TableKey],
) -> Result<(), OutOfMemory>
    requires { IsTrue (are_spelt (written_property (KeyProperty keys.now))) }
    ensures { OnOk result (sheet.new ≡ sheet.old ++ words16 (written_property (full_property (KeyProperty keys.now)))) }
{
    put_tokens(
        alloc,
        sheet,
        &[
            word!(gap, Key),
            mark!(Gap::Space, Assign),
            mark!(Gap::Space, BraceOpen),
        ],
    )?;
    write_all(alloc, sheet, Gap::Line(3), Gap::Line(3), keys)?;
    put_tokens(
        alloc,
        sheet,
        &[mark!(closing(2, keys.is_empty()), BraceClose)],
    )
}

/// Writes `actions = { NAME; .. }`, each name on a line of its own.
fn write_actions(
    alloc: Global,
    sheet: &mut Sheet16,
    gap: Gap,
    names: &[ActionName],
) -> Result<(), OutOfMemory>
    requires { IsTrue (are_spelt (written_property (ActionsProperty names.now))) }
    ensures { OnOk result (sheet.new ≡ sheet.old ++ words16 (written_property (ActionsProperty names.now))) }
{
    put_tokens(
        alloc,
        sheet,
        &[
            word!(gap, Actions),
            mark!(Gap::Space, Assign),
            mark!(Gap::Space, BraceOpen),
        ],
    )?;
    write_all(alloc, sheet, Gap::Line(3), Gap::Line(3), names)?;
    put_tokens(alloc, sheet, &[mark!(Gap::Line(2), BraceClose)])
}

/// Writes `default_action = NAME(ARGUMENT, ..);`.
#[tactic(auto, using(crate::proofs::Spelt::default_arguments))]
fn write_default_action(
    alloc: Global,
    sheet: &mut Sheet16,
    gap: Gap,
    action: &ActionName,
    arguments: &Exp,
) -> Result<(), OutOfMemory>
    requires { IsTrue (are_spelt (written_property (DefaultProperty action.now arguments.now))) }
    ensures { OnOk result (sheet.new ≡ sheet.old ++ words16 (written_property (full_property (DefaultProperty action.now arguments.now)))) }
{
    put_tokens(
        alloc,
        sheet,
        &[word!(gap, DefaultAction), mark!(Gap::Space, Assign)],
    )?;
    write_action_name(alloc, sheet, Gap::Space, action)?;
    put_tokens(alloc, sheet, &[mark!(Gap::Nothing, ParenOpen)])?;
    write_expression(alloc, sheet, Gap::Nothing, Form::Within, arguments.view())?;
    put_tokens(
        alloc,
        sheet,
        &[
            mark!(Gap::Nothing, ParenClose),
            mark!(Gap::Nothing, Semicolon),
        ],
    )
}

impl Written for Table16 {
    ghost use Rattle.p416_syntax.specs.Written.{written_table};
    ghost use Rattle.p416_parentheses.specs.Syntax.{full_table};

    ghost plain = { written_table };

    ghost full = { λ t. written_table (full_table t) };

    #[tactic(auto, using(crate::proofs::Spelt::table_called, crate::proofs::Spelt::table_properties))]
    fn write(&self, alloc: Global, sheet: &mut Sheet16, gap: Gap) -> Result<(), OutOfMemory> {
        let line = write_notes(alloc, sheet, gap, self.notes.as_slice())?;
        write_heading(alloc, sheet, line, Keyword16::Table, &self.name)?;
        put_tokens(alloc, sheet, &[mark!(Gap::Space, BraceOpen)])?;
        write_all(
            alloc,
            sheet,
            Gap::Line(2),
            Gap::Line(2),
            self.properties.as_slice(),
        )?;
        put_tokens(alloc, sheet, &[mark!(Gap::Line(1), BraceClose)])
    }
}
