// States of parsers.
ghost use Rattle.std.specs.Prelude.{◌≡◌, ◌++◌, ◌∷◌, OnOk, IsTrue, map};
ghost use Rattle.std.specs.List.{flat_map};
ghost use Rattle.p416_syntax.specs.Tokens.{mark, in_parens, in_braces, quoted};
ghost use Rattle.p416_syntax.specs.declared.keyword.Keyword16.TheVariants.{Select};
ghost use Rattle.p416_syntax.specs.Written.{written_exp, written_simple, written_case, by_commas};
ghost use Rattle.p416_parentheses.specs.Expressions.{full};
ghost use Rattle.p416_parentheses.specs.Syntax.{full_one, full_case};
ghost use Rattle.p416_spelling.specs.Words.{words16};
ghost use Rattle.p416_decl_writer.specs.Tokens.{are_spelt};

use crate::gaps::closing;
use crate::lists::{write_all, write_by_commas};
use crate::names::{write_heading, write_name};
use crate::written::Written;
use p4x_bits::OutOfMemory;
use p416_exp_writer::{Form, write_expression};
use p416_sheet::{Gap, Put16, Sheet16, Token16, put_tokens};
use p416_stmt_writer::write_statements;
use p416_syntax::{Exp, Keyset, Keyword16, Mark16, SelectCase, Simple, State, Target, Transition};
use std::alloc::Global;

impl Written for Exp {
    ghost use Rattle.p416_syntax.specs.Written.{written_exp};
    ghost use Rattle.p416_parentheses.specs.Expressions.{full as with_parentheses};

    ghost plain = { written_exp };

    ghost full = { λ e. written_exp (with_parentheses e) };

    fn write(&self, alloc: Global, sheet: &mut Sheet16, gap: Gap) -> Result<(), OutOfMemory> {
        write_expression(alloc, sheet, gap, Form::Full, self.view())
    }
}

impl Written for Target {
    ghost use Rattle.p416_syntax.specs.Written.{written_target};

    ghost plain = { written_target };

    ghost full = { written_target };

    fn write(&self, alloc: Global, sheet: &mut Sheet16, gap: Gap) -> Result<(), OutOfMemory> {
        match self {
            Target::State(name) => write_name(alloc, sheet, gap, name),
            Target::Accept => put_tokens(alloc, sheet, &[word!(gap, Accept)]),
            Target::Reject => put_tokens(alloc, sheet, &[word!(gap, Reject)]),
        }
    }
}

impl Written for Simple {
    ghost use Rattle.p416_syntax.specs.Written.{written_simple};
    ghost use Rattle.p416_parentheses.specs.Syntax.{full_simple};

    ghost plain = { written_simple };

    ghost full = { λ s. written_simple (full_simple s) };

    fn write(&self, alloc: Global, sheet: &mut Sheet16, gap: Gap) -> Result<(), OutOfMemory> {
        match self {
            Simple::Default => put_tokens(alloc, sheet, &[word!(gap, Default)]),
            Simple::Any => put_tokens(alloc, sheet, &[word!(gap, Underscore)]),
            Simple::Mask(value, mask) => {
                write_pair(alloc, sheet, gap, value, Mark16::Mask, mask)
            }
            Simple::Range(low, high) => write_pair(alloc, sheet, gap, low, Mark16::DotDot, high),
            Simple::Value(value) => value.write(alloc, sheet, gap),
        }
    }
}

/// Writes two expressions with a mark between them.
#[tactic(auto, using(crate::proofs::Spelt::pair_second))]
fn write_pair(
    alloc: Global,
    sheet: &mut Sheet16,
    gap: Gap,
    first: &Exp,
    between: Mark16,
    second: &Exp,
) -> Result<(), OutOfMemory>
    requires { IsTrue (are_spelt (written_exp first.now ++ mark between ∷ written_exp second.now)) }
    ensures { OnOk result (sheet.new ≡ sheet.old ++ words16 (written_exp (full first.now) ++ mark between ∷ written_exp (full second.now))) }
{
    first.write(alloc, sheet, gap)?;
    put_tokens(
        alloc,
        sheet,
        &[Put16 {
            gap: Gap::Space,
            token: Token16::Mark(between),
        }],
    )?;
    second.write(alloc, sheet, Gap::Space)
}

/// Writes what is a keyset by itself: a value has no parentheses around it, which would make it a tuple.
fn write_one(
    alloc: Global,
    sheet: &mut Sheet16,
    gap: Gap,
    simple: &Simple,
) -> Result<(), OutOfMemory>
    requires { IsTrue (are_spelt (written_simple simple.now)) }
    ensures { OnOk result (sheet.new ≡ sheet.old ++ words16 (written_simple (full_one simple.now))) }
{
    match simple {
        Simple::Value(value) => write_expression(alloc, sheet, gap, Form::Within, value.view()),
        other => other.write(alloc, sheet, gap),
    }
}

impl Written for Keyset {
    ghost use Rattle.p416_syntax.specs.Written.{written_keyset};
    ghost use Rattle.p416_parentheses.specs.Syntax.{full_keyset};

    ghost plain = { written_keyset };

    ghost full = { λ k. written_keyset (full_keyset k) };

    fn write(&self, alloc: Global, sheet: &mut Sheet16, gap: Gap) -> Result<(), OutOfMemory> {
        match self {
            Keyset::Tuple(simples) => {
                put_tokens(alloc, sheet, &[mark!(gap, ParenOpen)])?;
                write_by_commas(alloc, sheet, simples.as_slice())?;
                put_tokens(alloc, sheet, &[mark!(Gap::Nothing, ParenClose)])
            }
            Keyset::One(simple) => write_one(alloc, sheet, gap, simple),
        }
    }
}

impl Written for SelectCase {
    ghost use Rattle.p416_syntax.specs.Written.{written_case};
    ghost use Rattle.p416_parentheses.specs.Syntax.{full_case};

    ghost plain = { written_case };

    ghost full = { λ c. written_case (full_case c) };

    #[tactic(auto, using(crate::proofs::Spelt::case_target))]
    fn write(&self, alloc: Global, sheet: &mut Sheet16, gap: Gap) -> Result<(), OutOfMemory> {
        self.keyset.write(alloc, sheet, gap)?;
        put_tokens(alloc, sheet, &[mark!(Gap::Nothing, Colon)])?;
        self.target.write(alloc, sheet, Gap::Space)?;
        put_tokens(alloc, sheet, &[mark!(Gap::Nothing, Semicolon)])
    }
}

impl Written for Transition {
    ghost use Rattle.p416_syntax.specs.Written.{written_transition};
    ghost use Rattle.p416_parentheses.specs.Syntax.{full_transition};

    ghost plain = { written_transition };

    ghost full = { λ t. written_transition (full_transition t) };

    fn write(&self, alloc: Global, sheet: &mut Sheet16, gap: Gap) -> Result<(), OutOfMemory> {
        put_tokens(alloc, sheet, &[word!(gap, Transition)])?;
        match self {
            Transition::Go(target) => {
                target.write(alloc, sheet, Gap::Space)?;
                put_tokens(alloc, sheet, &[mark!(Gap::Nothing, Semicolon)])
            }
            Transition::Select(keys, cases) => {
                write_select(alloc, sheet, keys.as_slice(), cases.as_slice())
            }
        }
    }
}

/// Writes ` select(KEY, ..) { CASE .. }`, each case on a line of its own.
#[tactic(auto, using(crate::proofs::Spelt::select_keys, crate::proofs::Spelt::select_cases))]
fn write_select(
    alloc: Global,
    sheet: &mut Sheet16,
    keys: &[Exp],
    cases: &[SelectCase],
) -> Result<(), OutOfMemory>
    requires { IsTrue (are_spelt (quoted Select ∷ (in_parens (by_commas written_exp keys.now) ++ in_braces (flat_map written_case cases.now)))) }
    ensures { OnOk result (sheet.new ≡ sheet.old ++ words16 (quoted Select ∷ (in_parens (by_commas written_exp (map full keys.now)) ++ in_braces (flat_map written_case (map full_case cases.now))))) }
{
    put_tokens(
        alloc,
        sheet,
        &[word!(Gap::Space, Select), mark!(Gap::Nothing, ParenOpen)],
    )?;
    write_by_commas(alloc, sheet, keys)?;
    put_tokens(
        alloc,
        sheet,
        &[
            mark!(Gap::Nothing, ParenClose),
            mark!(Gap::Space, BraceOpen),
        ],
    )?;
    write_all(alloc, sheet, Gap::Line(3), Gap::Line(3), cases)?;
    put_tokens(
        alloc,
        sheet,
        &[mark!(closing(2, cases.is_empty()), BraceClose)],
    )
}

impl Written for State {
    ghost use Rattle.p416_syntax.specs.Written.{written_state};
    ghost use Rattle.p416_parentheses.specs.Syntax.{full_state};

    ghost plain = { written_state };

    ghost full = { λ s. written_state (full_state s) };

    #[tactic(auto, using(crate::proofs::Spelt::state_body, crate::proofs::Spelt::state_transition))]
    fn write(&self, alloc: Global, sheet: &mut Sheet16, gap: Gap) -> Result<(), OutOfMemory> {
        write_heading(alloc, sheet, gap, Keyword16::State, &self.name)?;
        put_tokens(alloc, sheet, &[mark!(Gap::Space, BraceOpen)])?;
        write_statements(alloc, sheet, 2, self.body.statements())?;
        self.transition.write(alloc, sheet, Gap::Line(2))?;
        put_tokens(alloc, sheet, &[mark!(Gap::Line(1), BraceClose)])
    }
}
