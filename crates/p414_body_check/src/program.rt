// Programs that break no rule.
ghost use Rattle.std.specs.Prelude.{◌≡◌, IfOk};
ghost use Rattle.p414_syntax.specs.Names.{number_of};
ghost use Rattle.p414_body_check.specs.Answers.{IsAccepted, IsJudged};

use crate::fault::Check14;
use crate::judge::judge;
use p4x_bits::OutOfMemory;
use p414_numbers::{DeclNumbers, numbers_of};
use p414_syntax::{Sort, Syntax14};
use std::alloc::Global;
use std::marker::Model;

/// A P4_14 program that breaks none of the rules C1 to C28, with the numbers of its declarations. Contracts see its syntax.
pub struct Program14 {
    syntax: Syntax14,
    numbers: DeclNumbers,
}

impl Drop for Program14 {
    fn drop(self) {
        let Program14 {
            syntax: _syntax,
            numbers: _numbers,
        } = self;
    }
}

impl Model for Program14 {
    ghost use Rattle.std.specs.Coded.{codes};
    ghost use Rattle.p414_syntax.specs.declared.syntax.Syntax14.{Syntax14 as Syntax};
    ghost use Rattle.p414_syntax.specs.contracts.syntax.Syntax14 as declaration;
    ghost use Rattle.p414_body_check.specs.internal.Programs.{IsProgram};

    ghost Value = { Syntax };

    ghost coded = { declaration.the_row.coded };

    ghost view = { λ p. p.syntax };

    ghost invariant = { λ p. IsProgram p.syntax p.numbers };
}

impl Program14 {
    /// The syntax of the program, which breaks no rule.
    pub fn syntax(&self) -> &Syntax14
        ensures is { result.now ≡ self.now }
        ensures accepted { IsAccepted self.now }
    {
        &self.syntax
    }

    /// The number of the declaration that a name means in a sort, from 0 in the order of declaration; none exactly where no
    /// declaration of the sort has the name. It takes no memory, and its time doesn't grow with the program.
    #[tactic(auto, using(p414_numbers::proofs::Found::number_found))]
    pub fn number_of(&self, sort: Sort, name: &[u8]) -> Option<u32>
        ensures { result ≡ number_of sort self.now.decls name.now }
    {
        self.numbers.find(sort, name)
    }
}

/// The program of a syntax that breaks no rule.
#[tactic(auto, using(crate::proofs::Accepted::once))]
fn program_of(alloc: Global, syntax: Syntax14) -> Result<Program14, OutOfMemory>
    requires { IsAccepted syntax }
    ensures { IfOk result (λ program. program ≡ syntax) }
{
    let numbers = numbers_of(alloc, syntax.decls.as_slice())?;
    Ok(Program14 { syntax, numbers })
}

/// The program of a syntax that breaks none of the rules C1 to C28 (P4_14 1.0.5, "Headers and Fields", "Checksums and
/// Hash-value Generators", "Parser Specification", "Counters", "Meters", "Registers", "Actions", "Table Declarations",
/// "Packet Processing and Control Flow"; what is left out of them, the limits and the numbers of the rules are this
/// project's own).
///
/// A syntax that breaks some of them is refused with the least that it breaks, and without a place. The only other error is
/// want of memory.
pub fn check14(alloc: Global, syntax: Syntax14) -> Result<Program14, Check14>
    ensures { IsJudged syntax result }
{
    match judge(alloc, &syntax) {
        Ok(()) => Ok(program_of(alloc, syntax)?),
        Err(fault) => Err(fault),
    }
}
