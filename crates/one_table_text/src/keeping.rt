// That programs of the form keep the rules of P4_16: a law, as the contract of a function that does nothing.
ghost use Rattle.std.specs.Prelude.{◌≡◌, true};
ghost use Rattle.p416_syntax.specs.Breaks.{BreaksNone, program_rules};
ghost use Rattle.one_table_text.specs.declared.one_table.OneTable16.{OneTable16};
ghost use Rattle.one_table_text.specs.Programs.{program16};
ghost use Rattle.one_table_text.specs.Lawful.{is_lawful};

/// The syntax of a program of the form breaks none of the twelve rules, where its fields are those of a header and 9 bits
/// hold its port.
pub fn written_programs_keep_the_rules()
    ensures { (q : OneTable16) → is_lawful q ≡ true → BreaksNone (program16 q) program_rules }
{}
