// Stateful objects.
ghost use Rattle.std.specs.Prelude.{◌≡◌, ◌++◌, ◌∷◌, [], OnOk, IsTrue};
ghost use Rattle.p416_syntax.specs.declared.keyword.Keyword16.TheVariants.{DirectCounter, Register};
ghost use Rattle.p416_syntax.specs.Tokens.{id, quoted, comma, less, greater, in_parens};
ghost use Rattle.p416_syntax.specs.Written.{written_exp, written_bit, written_member, written_object};
ghost use Rattle.p416_parentheses.specs.Expressions.{full};
ghost use Rattle.p416_parentheses.specs.Syntax.{full_instance};
ghost use Rattle.p416_spelling.specs.Words.{words16};
ghost use Rattle.p416_decl_writer.specs.Tokens.{are_spelt};

use crate::names::write_name;
use crate::notes::write_notes;
use crate::params::write_member;
use crate::written::Written;
use p4x_bits::{OutOfMemory, Text};
use p416_exp_writer::{Form, write_expression};
use p416_sheet::{Gap, Put16, Sheet16, Token16, put_tokens};
use p416_syntax::{Exp, Instance, Keyword16, Literal16, Mark16, Member, Note};
use std::alloc::Global;

impl Written for Instance {
    ghost use Rattle.p416_syntax.specs.Written.{written_instance};
    ghost use Rattle.p416_parentheses.specs.Syntax.{full_instance};

    ghost plain = { written_instance };

    ghost full = { λ i. written_instance (full_instance i) };

    fn write(&self, alloc: Global, sheet: &mut Sheet16, gap: Gap) -> Result<(), OutOfMemory> {
        match self {
            Instance::Counter(size, member, name) => {
                put_tokens(alloc, sheet, &[word!(gap, Counter)])?;
                write_sized(alloc, sheet, size, *member, name)
            }
            Instance::DirectCounter(member, name) => {
                write_direct_counter(alloc, sheet, gap, *member, name)
            }
            Instance::Register(width, size, name) => {
                write_register(alloc, sheet, gap, *width, size, name)
            }
            Instance::Meter(size, member, name) => {
                put_tokens(alloc, sheet, &[word!(gap, Meter)])?;
                write_sized(alloc, sheet, size, *member, name)
            }
        }
    }
}

/// Writes `(SIZE, MEMBER) NAME`.
#[tactic(auto, using(crate::proofs::Spelt::sized_name))]
fn write_sized(
    alloc: Global,
    sheet: &mut Sheet16,
    size: &Exp,
    member: Member,
    name: &Text,
) -> Result<(), OutOfMemory>
    requires { IsTrue (are_spelt (in_parens (written_exp size.now ++ comma ∷ written_member member) ++ id name.now ∷ [])) }
    ensures { OnOk result (sheet.new ≡ sheet.old ++ words16 (in_parens (written_exp (full size.now) ++ comma ∷ written_member member) ++ id name.now ∷ [])) }
{
    put_tokens(alloc, sheet, &[mark!(Gap::Nothing, ParenOpen)])?;
    write_expression(alloc, sheet, Gap::Nothing, Form::Full, size.view())?;
    put_tokens(alloc, sheet, &[mark!(Gap::Nothing, Comma)])?;
    write_member(alloc, sheet, Gap::Space, member)?;
    put_tokens(alloc, sheet, &[mark!(Gap::Nothing, ParenClose)])?;
    write_name(alloc, sheet, Gap::Space, name)
}

/// Writes `direct_counter(MEMBER) NAME`.
#[tactic(auto, using(crate::proofs::Spelt::direct_name))]
fn write_direct_counter(
    alloc: Global,
    sheet: &mut Sheet16,
    gap: Gap,
    member: Member,
    name: &Text,
) -> Result<(), OutOfMemory>
    requires { IsTrue (are_spelt (quoted DirectCounter ∷ (in_parens (written_member member) ++ id name.now ∷ []))) }
    ensures { OnOk result (sheet.new ≡ sheet.old ++ words16 (quoted DirectCounter ∷ (in_parens (written_member member) ++ id name.now ∷ []))) }
{
    put_tokens(
        alloc,
        sheet,
        &[word!(gap, DirectCounter), mark!(Gap::Nothing, ParenOpen)],
    )?;
    write_member(alloc, sheet, Gap::Nothing, member)?;
    put_tokens(alloc, sheet, &[mark!(Gap::Nothing, ParenClose)])?;
    write_name(alloc, sheet, Gap::Space, name)
}

/// Writes `register<bit<WIDTH>>(SIZE) NAME`.
#[tactic(auto, using(crate::proofs::Spelt::register_name))]
fn write_register(
    alloc: Global,
    sheet: &mut Sheet16,
    gap: Gap,
    width: Literal16,
    size: &Exp,
    name: &Text,
) -> Result<(), OutOfMemory>
    requires { IsTrue (are_spelt (quoted Register ∷ less ∷ (written_bit width ++ greater ∷ (in_parens (written_exp size.now) ++ id name.now ∷ [])))) }
    ensures { OnOk result (sheet.new ≡ sheet.old ++ words16 (quoted Register ∷ less ∷ (written_bit width ++ greater ∷ (in_parens (written_exp (full size.now)) ++ id name.now ∷ [])))) }
{
    put_tokens(
        alloc,
        sheet,
        &[
            word!(gap, Register),
            mark!(Gap::Nothing, Less),
            word!(Gap::Nothing, Bit),
            mark!(Gap::Nothing, Less),
            number!(Gap::Nothing, width),
            mark!(Gap::Nothing, Greater),
            mark!(Gap::Nothing, Greater),
            mark!(Gap::Nothing, ParenOpen),
        ],
    )?;
    write_expression(alloc, sheet, Gap::Nothing, Form::Full, size.view())?;
    put_tokens(alloc, sheet, &[mark!(Gap::Nothing, ParenClose)])?;
    write_name(alloc, sheet, Gap::Space, name)
}

/// Writes an object with its annotations.
#[tactic(auto, using(crate::proofs::Spelt::object_instance))]
pub fn write_object(
    alloc: Global,
    sheet: &mut Sheet16,
    gap: Gap,
    notes: &[Note],
    object: &Instance,
) -> Result<(), OutOfMemory>
    requires { IsTrue (are_spelt (written_object notes.now object.now)) }
    ensures { OnOk result (sheet.new ≡ sheet.old ++ words16 (written_object notes.now (full_instance object.now))) }
{
    let line = write_notes(alloc, sheet, gap, notes)?;
    object.write(alloc, sheet, line)?;
    put_tokens(alloc, sheet, &[mark!(Gap::Nothing, Semicolon)])
}
