//! That a ready expression gives what the expression means. It has definitions and laws; each law is the contract of a function
//! that does nothing.
#![tactic(auto)]

ghost use Rattle.v1_ready_laws.specs.Laws.{ReadyGives, ProgramNamesGive, ProgramReadyGives, OperandsAlwaysFit, JudgedReadyGives, AcceptedNarrow, DeclaredStaySeated};

/// A ready expression gives the value of the expression, or the error that ends its evaluation, where names mean what stands
/// at their seats and operands have the widths that the rules allow.
pub fn ready_expressions_give_their_values()
    ensures { ReadyGives }
{}

/// In a frame of a program, names mean what stands at their seats, where no bits are wider than 128.
pub fn names_mean_what_stands_at_their_seats()
    ensures { ProgramNamesGive }
{}

/// The ready expressions of a program give the values of its expressions.
pub fn ready_expressions_of_a_program_give_their_values()
    ensures { ProgramReadyGives }
{}

/// The operands of an expression that keeps the rules on types and sizes, and applies no table, have the widths that these
/// allow, where names are of their kinds.
pub fn operands_have_widths_that_fit()
    ensures { OperandsAlwaysFit }
{}

/// The ready expressions of a program that keeps these rules give the values of its expressions.
pub fn ready_expressions_that_keep_the_rules_give_their_values()
    ensures { JudgedReadyGives }
{}

/// In a program that keeps the rules no bits are wider than 128, and each field of a type has a width of its own.
pub fn accepted_programs_are_narrow()
    ensures { AcceptedNarrow }
{}

/// Names stay declared as what stands at their seats where variables, or parameters of an action, come in front of them.
pub fn declared_names_stay_seated()
    ensures { DeclaredStaySeated }
{}
