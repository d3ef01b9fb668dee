// Parameters, variables and what else several declarations have.
ghost use Rattle.std.specs.Prelude.{◌≡◌, ◌++◌, ◌∷◌, [], OnOk, IsTrue, option_copied};
ghost use Rattle.p416_syntax.specs.Tokens.{quoted};
ghost use Rattle.p416_syntax.specs.Written.{written_option, written_direction, written_type, written_params, written_initial, written_block, written_member};
ghost use Rattle.std.specs.Option.{option_map};
ghost use Rattle.p416_parentheses.specs.Expressions.{full};
ghost use Rattle.p416_parentheses.specs.Syntax.{full_stmt};
ghost use Rattle.p416_spelling.specs.Words.{words16};
ghost use Rattle.p416_decl_writer.specs.Tokens.{are_spelt};

use crate::gaps::closing;
use crate::lists::write_by_commas;
use crate::names::write_name;
use crate::written::Written;
use p4x_bits::OutOfMemory;
use p416_exp_writer::{Form, write_expression, write_type};
use p416_sheet::{Gap, Put16, Sheet16, TextView, Token16, put_token, put_tokens};
use p416_stmt_writer::write_statements;
use p416_syntax::{
    Block16, Direction, Exp, Keyword16, Mark16, Member, Param, StmtHead, Type16, Var,
};
use std::alloc::Global;

impl Written for Param {
    ghost use Rattle.p416_syntax.specs.Written.{written_param};

    ghost plain = { written_param };

    ghost full = { written_param };

    #[tactic(auto, using(crate::proofs::Spelt::param_name))]
    fn write(&self, alloc: Global, sheet: &mut Sheet16, gap: Gap) -> Result<(), OutOfMemory> {
        write_directed(alloc, sheet, gap, self.direction, &self.of)?;
        write_name(alloc, sheet, Gap::Space, &self.name)
    }
}

/// Writes a type, with a direction in front where there is one.
fn write_directed(
    alloc: Global,
    sheet: &mut Sheet16,
    gap: Gap,
    direction: Option<Direction>,
    of: &Type16,
) -> Result<(), OutOfMemory>
    requires { IsTrue (are_spelt (written_type of.now)) }
    ensures { OnOk result (sheet.new ≡ sheet.old ++ words16 (written_option written_direction direction ++ written_type of.now)) }
{
    match direction {
        None => write_type(alloc, sheet, gap, of),
        Some(direction) => {
            put_token(alloc, sheet, gap, &Token16::Word(direction_word(direction)))?;
            write_type(alloc, sheet, Gap::Space, of)
        }
    }
}

/// The word of a direction.
fn direction_word(direction: Direction) -> Keyword16
    ensures { written_direction direction ≡ quoted result ∷ [] }
{
    match direction {
        Direction::In => Keyword16::In,
        Direction::Out => Keyword16::Out,
        Direction::InOut => Keyword16::InOut,
    }
}

/// Writes the parameters of a parser, a control or an action, in parentheses.
#[tactic(auto, using(crate::proofs::Spelt::params_inside))]
pub fn write_params(
    alloc: Global,
    sheet: &mut Sheet16,
    parameters: &[Param],
) -> Result<(), OutOfMemory>
    requires { IsTrue (are_spelt (written_params parameters.now)) }
    ensures { OnOk result (sheet.new ≡ sheet.old ++ words16 (written_params parameters.now)) }
{
    put_tokens(alloc, sheet, &[mark!(Gap::Nothing, ParenOpen)])?;
    write_by_commas(alloc, sheet, parameters)?;
    put_tokens(alloc, sheet, &[mark!(Gap::Nothing, ParenClose)])
}

impl Written for Var {
    ghost use Rattle.p416_syntax.specs.Written.{written_var};
    ghost use Rattle.p416_parentheses.specs.Syntax.{full_var};

    ghost plain = { written_var };

    ghost full = { λ v. written_var (full_var v) };

    #[tactic(auto, using(crate::proofs::Spelt::var_name, crate::proofs::Spelt::var_initial))]
    fn write(&self, alloc: Global, sheet: &mut Sheet16, gap: Gap) -> Result<(), OutOfMemory> {
        write_type(alloc, sheet, gap, &self.of)?;
        write_name(alloc, sheet, Gap::Space, &self.name)?;
        write_initial(alloc, sheet, self.initial.as_ref())?;
        put_tokens(alloc, sheet, &[mark!(Gap::Nothing, Semicolon)])
    }
}

/// Writes ` = VALUE` where there is an initial value.
fn write_initial(
    alloc: Global,
    sheet: &mut Sheet16,
    initial: Option<&Exp>,
) -> Result<(), OutOfMemory>
    requires { IsTrue (are_spelt (written_option written_initial (option_copied initial))) }
    ensures { OnOk result (sheet.new ≡ sheet.old ++ words16 (written_option written_initial (option_map full (option_copied initial.entry)))) }
{
    match initial {
        None => Ok(()),
        Some(value) => {
            put_tokens(alloc, sheet, &[mark!(Gap::Space, Assign)])?;
            write_expression(alloc, sheet, Gap::Space, Form::Full, value.view())
        }
    }
}

/// Whether a block has no statements.
fn is_without_statements(body: &Block16) -> bool {
    matches!(body.statements().head(), StmtHead::NoStatements)
}

/// Writes ` { STATEMENT .. }` in a control, its statements two levels deep.
pub fn write_block(alloc: Global, sheet: &mut Sheet16, body: &Block16) -> Result<(), OutOfMemory>
    requires { IsTrue (are_spelt (written_block body.now)) }
    ensures { OnOk result (sheet.new ≡ sheet.old ++ words16 (written_block (full_stmt body.now))) }
{
    put_tokens(alloc, sheet, &[mark!(Gap::Space, BraceOpen)])?;
    write_statements(alloc, sheet, 2, body.statements())?;
    let gap = closing(1, is_without_statements(body));
    put_tokens(alloc, sheet, &[mark!(gap, BraceClose)])
}

/// Writes a member of an enumeration.
pub fn write_member(
    alloc: Global,
    sheet: &mut Sheet16,
    gap: Gap,
    member: Member,
) -> Result<(), OutOfMemory>
    ensures { OnOk result (sheet.new ≡ sheet.old ++ words16 (written_member member)) }
{
    put_tokens(
        alloc,
        sheet,
        &[
            name!(gap, member.enumeration()),
            mark!(Gap::Nothing, Dot),
            name!(Gap::Nothing, member.text()),
        ],
    )
}
