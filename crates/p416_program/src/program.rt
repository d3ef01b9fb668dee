// Programs that break no rule.
ghost use Rattle.std.specs.Prelude.{◌≡◌, IsTrue};
ghost use Rattle.p416_syntax.specs.Spelt.{is_spelt16};
ghost use Rattle.p416_syntax.specs.Breaks.{BreaksNone, program_rules};

use p416_syntax::Syntax16;
use std::marker::Model;

/// A P4_16 program that breaks none of the rules T1 to T12. Contracts see its syntax.
#[derive(Drop)]
pub struct Program16 {
    syntax: Syntax16,
}

impl Model for Program16 {
    ghost use Rattle.std.specs.Prelude.{IsTrue};
    ghost use Rattle.std.specs.Coded.{codes};
    ghost use Rattle.p416_syntax.specs.declared.program.Syntax16.{Syntax16 as Syntax};
    ghost use Rattle.p416_syntax.specs.contracts.program.Syntax16 as declaration;
    ghost use Rattle.p416_syntax.specs.Spelt.{is_spelt16};
    ghost use Rattle.p416_syntax.specs.Breaks.{BreaksNone, program_rules};

    ghost Value = { Syntax };

    ghost coded = { declaration.the_row.coded };

    ghost view = { λ p. p.syntax };

    ghost invariant = { λ p. IsTrue (is_spelt16 p.syntax) × BreaksNone p.syntax program_rules };
}

impl Program16 {
    /// The program of a syntax that some text spells and that breaks no rule. It asks nothing: that the syntax does so is shown
    /// by who calls.
    pub fn new(syntax: Syntax16) -> Self
        requires spelt { IsTrue (is_spelt16 syntax) }
        requires accepted { BreaksNone syntax program_rules }
        ensures { result ≡ syntax }
    {
        Program16 { syntax }
    }

    /// The syntax of the program, which some text spells and which breaks no rule.
    pub fn syntax(&self) -> &Syntax16
        ensures is { result.now ≡ self.now }
        ensures spelt { IsTrue (is_spelt16 self.now) }
        ensures accepted { BreaksNone self.now program_rules }
    {
        &self.syntax
    }
}

// A program may be moved to another thread, and shared between threads.
fn is_shared<T: Send + Sync>(_shared: &T) {}

fn is_program_shared(program: &Program16) {
    is_shared(program);
}
