// The commands with the files that they name.
ghost use Rattle.std.specs.Prelude.{◌≡◌, true, [], ◌∷◌, map, option_to_list};
ghost use Rattle.fabric.specs.Numbers.{IsBound};
ghost use Rattle.command_words.specs.Apart.{are_apart};

use p414_syntax::Rule14;

/// A command with its names and options.
#[derive(Clone, Copy, Drop)]
pub enum Command<'a> {
    /// `carry PROGRAM ENTRIES CAPTURE --text F --sent F --report F [--ports F] [--passes N]`.
    Carry(CarryNames<'a>),
    /// `check PROGRAM`.
    Check(&'a str),
    /// `order PROGRAM`.
    Order(&'a str),
    /// `run14 PROGRAM ENTRIES CAPTURE --sent F --report F [--ports F] [--rule R] [--passes N]`.
    Run14(Run14Names<'a>),
    /// `run16 TEXT ENTRIES CAPTURE --sent F --report F [--ports F] [--passes N]`.
    Run16(Run16Names<'a>),
}

/// The files that `carry` names, and the bound on passes. No output is another output or an input.
#[derive(Clone, Copy, Drop)]
pub struct CarryNames<'a> {
    /// The P4_14 program.
    pub program: &'a str,
    /// The entries file.
    pub entries: &'a str,
    /// The capture of the packets that arrive.
    pub capture: &'a str,
    /// The ports that they arrive on, where these are named.
    pub ports: Option<&'a str>,
    /// The P4_16 program that is written.
    pub text: &'a str,
    /// The capture of the packets that are sent.
    pub sent: &'a str,
    /// The report.
    pub report: &'a str,
    /// How many passes a packet and all that comes of it may make, from 1 to 65,536.
    pub passes: u32,
    ghost bound: { IsBound passes },
    ghost apart: { are_apart (program.now ∷ entries.now ∷ capture.now ∷ map (λ name. name.now) (option_to_list ports)) (text.now ∷ sent.now ∷ report.now ∷ []) ≡ true },
}

/// The files that `run14` names, the rule of actions and the bound on passes. No output is another output or an input.
#[derive(Clone, Copy, Drop)]
pub struct Run14Names<'a> {
    /// The P4_14 program.
    pub program: &'a str,
    /// The entries file.
    pub entries: &'a str,
    /// The capture of the packets that arrive.
    pub capture: &'a str,
    /// The ports that they arrive on, where these are named.
    pub ports: Option<&'a str>,
    /// The capture of the packets that are sent.
    pub sent: &'a str,
    /// The report.
    pub report: &'a str,
    /// How the primitives of an action act on each other.
    pub rule: Rule14,
    /// How many passes a packet and all that comes of it may make, from 1 to 65,536.
    pub passes: u32,
    ghost bound: { IsBound passes },
    ghost apart: { are_apart (program.now ∷ entries.now ∷ capture.now ∷ map (λ name. name.now) (option_to_list ports)) (sent.now ∷ report.now ∷ []) ≡ true },
}

/// The files that `run16` names, and the bound on passes. No output is another output or an input.
#[derive(Clone, Copy, Drop)]
pub struct Run16Names<'a> {
    /// The P4_16 program.
    pub text: &'a str,
    /// The entries file.
    pub entries: &'a str,
    /// The capture of the packets that arrive.
    pub capture: &'a str,
    /// The ports that they arrive on, where these are named.
    pub ports: Option<&'a str>,
    /// The capture of the packets that are sent.
    pub sent: &'a str,
    /// The report.
    pub report: &'a str,
    /// How many passes a packet and all that comes of it may make, from 1 to 65,536.
    pub passes: u32,
    ghost bound: { IsBound passes },
    ghost apart: { are_apart (text.now ∷ entries.now ∷ capture.now ∷ map (λ name. name.now) (option_to_list ports)) (sent.now ∷ report.now ∷ []) ≡ true },
}
