// The rules that a program has to keep beyond its grammar.
ghost use Rattle.std.specs.Prelude.{◌≡◌};
ghost use Rattle.p416_syntax.specs.Breaks.{rule_fault, rule_number};

use p4x_fault::{Fault, Rule};

/// A rule that a program has to keep beyond its grammar, by its number. The numbers are this project's own.
#[derive(Clone, Copy, PartialEq, Eq, Drop)]
pub enum ProgramRule {
    /// Names: each is declared once in its scope, and each that is used is declared.
    T1,
    /// Widths of bits, sizes of stacks, and what lies outside them.
    T2,
    /// Types: each expression is of the type that its place asks for.
    T3,
    /// Literals fit their widths.
    T4,
    /// What is written can be written.
    T5,
    /// Calls have as many arguments as are wanted.
    T6,
    /// A parser begins in the state `start`, and each cycle of its states extracts.
    T7,
    /// Actions don't call themselves, and apply no table.
    T8,
    /// Keys, actions and direct counters of tables, and control-plane names.
    T9,
    /// Extern calls, and the elements that are extracted next and last, stand where they may.
    T10,
    /// The six blocks of `main` have their parameters.
    T11,
    /// How many fields, octets and cells there are, and how deep blocks and expressions nest.
    T12,
}

impl ProgramRule {
    /// The number of the rule, 1 to 12.
    pub fn number(self) -> u8
        ensures { result ≡ rule_number self }
    {
        match self {
            ProgramRule::T1 => 1,
            ProgramRule::T2 => 2,
            ProgramRule::T3 => 3,
            ProgramRule::T4 => 4,
            ProgramRule::T5 => 5,
            ProgramRule::T6 => 6,
            ProgramRule::T7 => 7,
            ProgramRule::T8 => 8,
            ProgramRule::T9 => 9,
            ProgramRule::T10 => 10,
            ProgramRule::T11 => 11,
            ProgramRule::T12 => 12,
        }
    }

    /// The fault that tells of the rule. It has no place.
    pub fn fault(self) -> Fault
        ensures { result ≡ rule_fault self }
    {
        Fault {
            rule: Rule::T(self.number()),
            place: None,
        }
    }
}
