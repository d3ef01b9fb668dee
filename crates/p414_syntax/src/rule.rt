// The rules that a program has to keep beyond its grammar.
ghost use Rattle.std.specs.Prelude.{◌≡◌};
ghost use Rattle.p414_syntax.specs.Breaks.{rule_fault, rule_number};

use p4x_fault::{Fault, Rule};

/// A rule that a program has to keep beyond its grammar, by its number. The numbers are this project's own.
#[derive(Clone, Copy, PartialEq, Eq, Drop)]
pub enum ProgramRule {
    /// A name is declared once in its sort.
    C1,
    /// A name that is used is declared.
    C2,
    /// Widths of fields, registers and calculations.
    C3,
    /// Header stacks and their indices.
    C4,
    /// Header types have whole octets, and `current` looks ahead no further than 128 bits.
    C5,
    /// `latest` stands behind an extract, and a `select` joins 128 bits at most.
    C6,
    /// The number of fields, and of the octets of headers.
    C7,
    /// Field lists and calculated fields.
    C8,
    /// Each cycle of parser states extracts something.
    C9,
    /// Headers have an order.
    C10,
    /// Keys of tables.
    C11,
    /// A table has one lpm key at most.
    C12,
    /// The arguments of calls, and truth values and numbers in expressions.
    C13,
    /// What is extracted, and what is written.
    C14,
    /// Actions don't call themselves, and expand to so many primitives at most.
    C15,
    /// Controls don't call themselves, and expand to so many statements at most.
    C16,
    /// A table is applied in one pipeline at most.
    C17,
    /// Preserved field lists hold metadata.
    C18,
    /// A preserved field has no initial value.
    C19,
    /// `payload` stands last in a field list, and in none that a hash is over.
    C20,
    /// The condition of a calculated field reads no calculated field.
    C21,
    /// Each request is made in its pipeline.
    C22,
    /// The cells of counters, meters and registers, and direct counters.
    C23,
    /// A default action is one of its table's, with its arguments.
    C24,
    /// Nothing stands that this profile leaves out.
    C25,
    /// No minus sign stands before an operand of a condition.
    C26,
    /// A parameter stands where a number is read.
    C27,
    /// How deep blocks and expressions nest.
    C28,
}

impl ProgramRule {
    /// The number of the rule, 1 to 28.
    pub fn number(self) -> u8
        ensures { result ≡ rule_number self }
    {
        match self {
            ProgramRule::C1 => 1,
            ProgramRule::C2 => 2,
            ProgramRule::C3 => 3,
            ProgramRule::C4 => 4,
            ProgramRule::C5 => 5,
            ProgramRule::C6 => 6,
            ProgramRule::C7 => 7,
            ProgramRule::C8 => 8,
            ProgramRule::C9 => 9,
            ProgramRule::C10 => 10,
            ProgramRule::C11 => 11,
            ProgramRule::C12 => 12,
            ProgramRule::C13 => 13,
            ProgramRule::C14 => 14,
            ProgramRule::C15 => 15,
            ProgramRule::C16 => 16,
            ProgramRule::C17 => 17,
            ProgramRule::C18 => 18,
            ProgramRule::C19 => 19,
            ProgramRule::C20 => 20,
            ProgramRule::C21 => 21,
            ProgramRule::C22 => 22,
            ProgramRule::C23 => 23,
            ProgramRule::C24 => 24,
            ProgramRule::C25 => 25,
            ProgramRule::C26 => 26,
            ProgramRule::C27 => 27,
            ProgramRule::C28 => 28,
        }
    }

    /// The fault that tells of the rule. It has no place.
    pub fn fault(self) -> Fault
        ensures { result ≡ rule_fault self }
    {
        Fault {
            rule: Rule::C(self.number()),
            place: None,
        }
    }
}
