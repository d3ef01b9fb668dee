// The forms of the commands.
ghost use Rattle.std.specs.Prelude.{◌≡◌, [], ◌∷◌, map, string_bytes, option_map, option_to_list, Some};
ghost use Rattle.fabric.specs.Numbers.{IsBound};
ghost use Rattle.command_words.specs.Apart.{are_apart, AreApart};
ghost use Rattle.command_words.specs.Words.{Command as Called, inputs_of, outputs_of, is_name, is_value, are_ports, are_inputs, carry_with, carry_found, carry_form, run14_with, run14_found, run14_form, run16_with, run16_found, run16_form, named, program_form, form};
ghost use Rattle.command_words.specs.Views.{files_of, run14_files_of, run16_files_of, command_of};
ghost use Rattle.command_words.specs.internal.Found.{options_of};

use crate::apart::are_apart;
use crate::command::{CarryNames, Command, Run14Names, Run16Names};
use crate::options::{Found, read_options};
use crate::values::{read_passes, read_rule};
use p414_syntax::Rule14;

fn is_name(word: &str) -> bool
    ensures { result ≡ is_name word.now }
{
    match word.as_bytes() {
        [] => false,
        [_] => true,
        [a, b, ..] => !(*a == b'-' && *b == b'-'),
    }
}

fn is_value(word: &str) -> bool
    ensures { result ≡ is_value word.now }
{
    !word.is_empty()
}

// Whether the name of a ports file, if there is one, is one.
fn are_ports(ports: Option<&str>) -> bool
    ensures { result ≡ are_ports (option_map (λ name. name.now) ports.entry) }
{
    match ports {
        Some(name) => is_value(name),
        None => true,
    }
}

// The files that are read.
#[derive(Clone, Copy, Drop)]
struct Inputs<'a> {
    program: &'a str,
    entries: &'a str,
    capture: &'a str,
    ports: Option<&'a str>,
}

// Whether each of them has a name.
fn are_inputs(inputs: Inputs<'_>) -> bool
    ensures { result ≡ are_inputs inputs.entry.program.now inputs.entry.entries.now inputs.entry.capture.now (option_map (λ name. name.now) inputs.entry.ports) }
{
    is_name(inputs.program)
        && is_name(inputs.entries)
        && is_name(inputs.capture)
        && are_ports(inputs.ports)
}

// Whether the outputs are other files than the inputs and than each other.
fn are_apart_from(inputs: Inputs<'_>, outputs: &[&str]) -> bool
    ensures { result ≡ are_apart (inputs.entry.program.now ∷ inputs.entry.entries.now ∷ inputs.entry.capture.now ∷ map (λ name. name.now) (option_to_list inputs.entry.ports)) (map (λ name. name.now) outputs.now) }
{
    let Inputs {
        program,
        entries,
        capture,
        ports,
    } = inputs;
    match ports {
        Some(ports) => are_apart(&[program, entries, capture, ports], outputs),
        None => are_apart(&[program, entries, capture], outputs),
    }
}

// The names of `carry`, where they are names of files that may stand together.
fn carry_with<'a>(
    inputs: Inputs<'a>,
    passes: u32,
    text: &'a str,
    sent: &'a str,
    report: &'a str,
) -> Option<CarryNames<'a>>
    requires { IsBound passes }
    ensures { option_map files_of result ≡ carry_with inputs.entry.program.now inputs.entry.entries.now inputs.entry.capture.now (option_map (λ name. name.now) inputs.entry.ports) passes text.now sent.now report.now }
{
    let named = are_inputs(inputs) && is_value(text) && is_value(sent) && is_value(report);
    if named && are_apart_from(inputs, &[text, sent, report]) {
        Some(CarryNames {
            program: inputs.program,
            entries: inputs.entries,
            capture: inputs.capture,
            ports: inputs.ports,
            text,
            sent,
            report,
            passes,
        })
    } else {
        None
    }
}

// Those by the options that were found, where these are options of `carry` and name all outputs.
fn carry_found<'a>(
    program: &'a str,
    entries: &'a str,
    capture: &'a str,
    found: Found<'a>,
) -> Option<CarryNames<'a>>
    ensures { option_map files_of result ≡ carry_found program.now entries.now capture.now (options_of found.entry) }
{
    let Found {
        text,
        sent,
        report,
        ports,
        rule,
        passes,
    } = found;
    let None = rule else {
        return None;
    };
    let passes = read_passes(passes)?;
    let inputs = Inputs {
        program,
        entries,
        capture,
        ports,
    };
    carry_with(inputs, passes, text?, sent?, report?)
}

/// The files that the words behind `carry` name; `None` exactly where they are no form of it.
fn read_carry(words: &[String]) -> Option<CarryNames<'_>>
    ensures { option_map files_of result ≡ carry_form (map string_bytes words.now) }
{
    let [program, entries, capture, options @ ..] = words else {
        return None;
    };
    let found = read_options(options)?;
    carry_found(program.as_str(), entries.as_str(), capture.as_str(), found)
}

// The names of `run14`, where they are names of files that may stand together.
fn run14_with<'a>(
    inputs: Inputs<'a>,
    rule: Rule14,
    passes: u32,
    sent: &'a str,
    report: &'a str,
) -> Option<Run14Names<'a>>
    requires { IsBound passes }
    ensures { option_map run14_files_of result ≡ run14_with inputs.entry.program.now inputs.entry.entries.now inputs.entry.capture.now (option_map (λ name. name.now) inputs.entry.ports) rule passes sent.now report.now }
{
    let named = are_inputs(inputs) && is_value(sent) && is_value(report);
    if named && are_apart_from(inputs, &[sent, report]) {
        Some(Run14Names {
            program: inputs.program,
            entries: inputs.entries,
            capture: inputs.capture,
            ports: inputs.ports,
            sent,
            report,
            rule,
            passes,
        })
    } else {
        None
    }
}

// Those by the options that were found, where these are options of `run14` and name both outputs.
fn run14_found<'a>(
    program: &'a str,
    entries: &'a str,
    capture: &'a str,
    found: Found<'a>,
) -> Option<Run14Names<'a>>
    ensures { option_map run14_files_of result ≡ run14_found program.now entries.now capture.now (options_of found.entry) }
{
    let Found {
        text,
        sent,
        report,
        ports,
        rule,
        passes,
    } = found;
    let None = text else {
        return None;
    };
    let rule = read_rule(rule)?;
    let passes = read_passes(passes)?;
    let inputs = Inputs {
        program,
        entries,
        capture,
        ports,
    };
    run14_with(inputs, rule, passes, sent?, report?)
}

/// The files that the words behind `run14` name; `None` exactly where they are no form of it.
fn read_run14(words: &[String]) -> Option<Run14Names<'_>>
    ensures { option_map run14_files_of result ≡ run14_form (map string_bytes words.now) }
{
    let [program, entries, capture, options @ ..] = words else {
        return None;
    };
    let found = read_options(options)?;
    run14_found(program.as_str(), entries.as_str(), capture.as_str(), found)
}

// The names of `run16`, where they are names of files that may stand together.
fn run16_with<'a>(
    inputs: Inputs<'a>,
    passes: u32,
    sent: &'a str,
    report: &'a str,
) -> Option<Run16Names<'a>>
    requires { IsBound passes }
    ensures { option_map run16_files_of result ≡ run16_with inputs.entry.program.now inputs.entry.entries.now inputs.entry.capture.now (option_map (λ name. name.now) inputs.entry.ports) passes sent.now report.now }
{
    let named = are_inputs(inputs) && is_value(sent) && is_value(report);
    if named && are_apart_from(inputs, &[sent, report]) {
        Some(Run16Names {
            text: inputs.program,
            entries: inputs.entries,
            capture: inputs.capture,
            ports: inputs.ports,
            sent,
            report,
            passes,
        })
    } else {
        None
    }
}

// Those by the options that were found, where these are options of `run16` and name both outputs.
fn run16_found<'a>(
    text: &'a str,
    entries: &'a str,
    capture: &'a str,
    found: Found<'a>,
) -> Option<Run16Names<'a>>
    ensures { option_map run16_files_of result ≡ run16_found text.now entries.now capture.now (options_of found.entry) }
{
    let (None, None) = (found.text, found.rule) else {
        return None;
    };
    let passes = read_passes(found.passes)?;
    let inputs = Inputs {
        program: text,
        entries,
        capture,
        ports: found.ports,
    };
    run16_with(inputs, passes, found.sent?, found.report?)
}

/// The files that the words behind `run16` name; `None` exactly where they are no form of it.
fn read_run16(words: &[String]) -> Option<Run16Names<'_>>
    ensures { option_map run16_files_of result ≡ run16_form (map string_bytes words.now) }
{
    let [text, entries, capture, options @ ..] = words else {
        return None;
    };
    let found = read_options(options)?;
    run16_found(text.as_str(), entries.as_str(), capture.as_str(), found)
}

/// The file that the words behind `check` or `order` name; `None` exactly where they are no form of these: one name, and no more.
fn read_program(words: &[String]) -> Option<&str>
    ensures { option_map (λ name. name.now) result ≡ program_form (map string_bytes words.now) }
{
    let [program] = words else {
        return None;
    };
    named(program.as_str())
}

// The name, where it is one of a file.
fn named(program: &str) -> Option<&str>
    ensures { option_map (λ name. name.now) result ≡ named program.now }
{
    if is_name(program) {
        Some(program)
    } else {
        None
    }
}

/// The command that the words are a form of; `None` exactly where they are a form of none. Its outputs are other files than its inputs and
/// than each other.
#[tactic(auto, using(crate::proofs::Named::form_apart))]
pub fn read_words(words: &[String]) -> Option<Command<'_>>
    ensures is { option_map command_of result ≡ form (map string_bytes words.now) }
    ensures apart { (c : Called) → form (map string_bytes words.now) ≡ Some c → AreApart (inputs_of c) (outputs_of c) }
{
    let [command, behind @ ..] = words else {
        return None;
    };
    match command.as_str() {
        "carry" => Some(Command::Carry(read_carry(behind)?)),
        "check" => Some(Command::Check(read_program(behind)?)),
        "order" => Some(Command::Order(read_program(behind)?)),
        "run14" => Some(Command::Run14(read_run14(behind)?)),
        "run16" => Some(Command::Run16(read_run16(behind)?)),
        _ => None,
    }
}
