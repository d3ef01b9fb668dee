//! What holds of each state of a P4_14 program that breaks no rule, whatever runs: it keeps its form, numbers fit, what
//! is named is there. Each law is the contract of a function that does nothing.
#![tactic(auto)]

ghost use Rattle.lower_laws_states.specs.Laws.{EffectsKeepStates, PrimitivesKeepStates, ParsingKeepsStates, ActionsKeepStates, ControlsKeepStates, UpdatesKeepStates, PassesKeepStates, NumbersFit, FieldsAreWide, ArrivalIsKept, NoBoundStops, ExpansionsStand, TablesFit};

/// An effect that fits leaves a state of the program.
pub fn effects_keep_states()
    ensures { EffectsKeepStates }
{}

/// A primitive of an expanded action leaves a state of the program, also where its operands were read in another one.
pub fn primitives_keep_states()
    ensures { PrimitivesKeepStates }
{}

/// Parsing leaves a state of the program, however it ends.
pub fn parsing_keeps_states()
    ensures { ParsingKeepsStates }
{}

/// An action leaves a state of the program, under both rules and with whatever arguments.
pub fn actions_keep_states()
    ensures { ActionsKeepStates }
{}

/// A control leaves a state of the program, with entries that fit its tables.
pub fn controls_keep_states()
    ensures { ControlsKeepStates }
{}

/// Calculated fields that are updated leave a state of the program.
pub fn updates_keep_states()
    ensures { UpdatesKeepStates }
{}

/// What a pass hands on are states of the program and preserved sets of it.
pub fn passes_keep_states()
    ensures { PassesKeepStates }
{}

/// What is read of a field fits it.
pub fn numbers_fit()
    ensures { NumbersFit }
{}

/// A field that is there has 1 to 128 bits.
pub fn fields_are_wide()
    ensures { FieldsAreWide }
{}

/// How a packet came here stays as it was: its port of arrival, its length, its kind, its port of egress.
pub fn arrival_is_kept()
    ensures { ArrivalIsKept }
{}

/// No bound stops a walk through the states of the parser.
pub fn no_bound_stops()
    ensures { NoBoundStops }
{}

/// Behind expansion are primitives alone that name what is there, and no calls of controls.
pub fn expansions_stand()
    ensures { ExpansionsStand }
{}

/// What fills a table fits its signature, and what is chosen for a packet fits the action.
pub fn tables_fit()
    ensures { TablesFit }
{}
