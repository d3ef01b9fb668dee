// What the person at the terminal is told beside the printed line. It is outside of every contract; its words are those of
// docs/MESSAGES.md.

use crate::rules::program_words;
use std::{fmt, str};

/// The forms of the commands.
const FORMS: &str = "these words are no form of a command. The forms are:
  carry PROGRAM ENTRIES CAPTURE --text F --sent F --report F [--ports F] [--passes N]
  run14 PROGRAM ENTRIES CAPTURE --sent F --report F [--ports F] [--rule R] [--passes N]
  run16 TEXT ENTRIES CAPTURE --sent F --report F [--ports F] [--passes N]
  check PROGRAM
  order PROGRAM
The names come first, then the options, in any order and each at most once. A name isn't empty, and PROGRAM, TEXT, ENTRIES
and CAPTURE don't begin with --. The outputs --text, --sent and --report are other files than each other and than the inputs. N is
a decimal number from 1 to 65,536, and R is parallel or sequential.";

/// What a rule of a file that `carry` reads asks, and what was found in its place.
fn carry_words(rule: &str) -> &'static str {
    match rule {
        "C25" =>
            "the program has something that is left out of P4_14 here, or isn't of the one form that is carried yet",
        "E1" => "only an empty entries file is taken yet",
        _ => input_words(rule),
    }
}

/// What a rule of a file that `run14` or `run16` reads asks, and what was found in its place.
fn run_words(rule: &str) -> &'static str {
    match rule {
        "E1" => "the line is none of the four forms of an entries file",
        "E2" => "the program has no such table",
        "E3" => "the table doesn't list that action",
        "E4" => "the number of keys isn't that of the table, or the table has no keys",
        "E5" => "a key isn't of the form of its kind, or its low end is over its high end",
        "E6" => "a number doesn't fit its width, or a prefix is longer than its key",
        "E7" => "the number of arguments isn't that of the action, or one of them is no number",
        "E8" => "the table has an entry with these keys and this priority already",
        "E9" => "the priority is missing, or isn't a number up to 2,147,483,647",
        "E10" =>
            "the session isn't a number up to 32,767 or was given before, or its port isn't one up to 510",
        "E11" => "the program has no such meter, or a colour isn't 0, 1 or 2",
        "E12" => "the table has as many entries as its size already",
        _ => input_words(rule),
    }
}

/// What a rule of ports, captures or programs asks, and what was found in its place.
fn input_words(rule: &str) -> &'static str {
    match rule {
        "P1" => "the line isn't one decimal number",
        "P2" => "the port is over 510",
        "K1" => "the file has fewer than 24 octets, so it is no capture",
        "K2" =>
            "the file doesn't begin with the magic number of a capture; pcapng and compressed files aren't taken",
        "K3" => "the version of the capture isn't 2.4",
        "K4" => "the capture ends inside a record; the packets in front of it were run",
        "K5" => "a record has a captured length over 65,535; the packets in front of it were run",
        _ => program_words(rule).unwrap_or("the file breaks this rule"),
    }
}

/// What a rule asks, by the command.
fn rule_words(words: &[String], rule: &str) -> &'static str {
    if is_command(words, "carry") {
        carry_words(rule)
    } else {
        run_words(rule)
    }
}

/// Whether this is the command.
fn is_command(words: &[String], name: &str) -> bool {
    match words.first() {
        Some(command) => command.as_str() == name,
        None => false,
    }
}

/// What is told of a call of the program that didn't end with status 0.
#[derive(Clone, Copy, Drop)]
pub enum Advice<'a> {
    /// A file or the output stream failed; the words name the files.
    Fault(&'a [String]),
    /// The words are no form of a command.
    Forms,
    /// A file breaks a rule, at a place where the printed line has one.
    Refused {
        file: &'a str,
        rule: &'a str,
        place: Option<&'a str>,
        asked: &'static str,
    },
    /// A file is over its limit, in octets.
    Over {
        file: &'a str,
        limit: &'static str,
    },
    /// There was no memory left.
    Memory,
    /// The system doesn't give the words.
    NoWords,
}

/// What is told of a call with these words that printed this line and ended with this status. Nothing is told of one that ended with status 0.
pub fn advice_on<'a>(words: &'a [String], status: u8, line: &'a [u8]) -> Option<Advice<'a>> {
    match status {
        0 => None,
        1 => Some(Advice::Fault(words)),
        2 => Some(Advice::Forms),
        7 => Some(Advice::Memory),
        _ => of_file(words, str::from_utf8(line).ok()?.trim_end()),
    }
}

/// What is told of a line that speaks of a file.
fn of_file<'a>(words: &'a [String], line: &'a str) -> Option<Advice<'a>> {
    if let Some(told) = line.strip_prefix("refused ") {
        let (rule, place) = match told.split_once(" at ") {
            Some((rule, place)) => (rule, Some(place)),
            None => (told, None),
        };
        let file = file_of(words, rule)?;
        let asked = rule_words(words, rule);
        return Some(Advice::Refused {
            file,
            rule,
            place,
            asked,
        });
    }
    match line {
        "limit program" => over(file_of(words, "C"), "1,048,576"),
        "limit text" => over(file_of(words, "T"), "16,777,216"),
        "limit entries" => over(file_of(words, "E"), "16,777,216"),
        "limit ports" => over(file_of(words, "P"), "4,194,304"),
        "limit capture" => over(file_of(words, "K"), "1,073,741,824"),
        _ => None,
    }
}

fn over<'a>(file: Option<&'a str>, limit: &'static str) -> Option<Advice<'a>> {
    let file = file?;
    Some(Advice::Over { file, limit })
}

/// The file that the rules of a family are about, by the rule's first letter.
fn file_of<'a>(words: &'a [String], rule: &str) -> Option<&'a str> {
    if rule.starts_with('P') {
        return option_of(words, "--ports");
    }
    let place = if rule.starts_with('E') {
        2
    } else if rule.starts_with('K') {
        3
    } else {
        1
    };
    Some(words.get(place)?.as_str())
}

/// The value of an option: the options stand behind the command and its three names, each with its value behind it.
fn option_of<'a>(words: &'a [String], option: &str) -> Option<&'a str> {
    for (place, word) in words.iter().enumerate() {
        if place >= 4 && place % 2 == 0 && word.as_str() == option {
            return Some(words.get(place.saturating_add(1))?.as_str());
        }
    }
    None
}

/// Tells of a fault, with the files that were in use.
fn tell_fault<W: fmt::Write>(words: &[String], f: &mut fmt::Formatter<W>) -> fmt::Result {
    f.write_str("a file couldn't be read, made or written, or the line couldn't be printed")?;
    match words {
        [_, program] => write!(f, "; it reads {program}")?,
        [_, program, entries, capture, ..] => write!(
            f,
            "; it reads {program}, {entries}, {capture}"
        )?,
        _ => {}
    }
    if let Some(ports) = option_of(words, "--ports") {
        write!(f, ", {ports}")?;
    }
    if let (Some(sent), Some(report)) = (option_of(words, "--sent"), option_of(words, "--report")) {
        f.write_str(", and writes ")?;
        if let Some(text) = option_of(words, "--text") {
            write!(f, "{text}, ")?;
        }
        write!(f, "{sent}, {report}")?;
    }
    Ok(())
}

impl fmt::Display for Advice<'_> {
    fn fmt<W: fmt::Write>(&self, f: &mut fmt::Formatter<W>) -> fmt::Result {
        f.write_str("p4x: ")?;
        match *self {
            Advice::Fault(words) => tell_fault(words, f),
            Advice::Forms => f.write_str(FORMS),
            Advice::Refused {
                file,
                rule,
                place,
                asked,
            } => {
                f.write_str(file)?;
                if let Some(place) = place {
                    write!(f, ":{place}")?;
                }
                write!(f, ": {asked} ({rule})")
            }
            Advice::Over { file, limit } => write!(
                f,
                "{file}: the file has more than {limit} octets"
            ),
            Advice::Memory => f.write_str("there was no memory left"),
            Advice::NoWords => f.write_str("the system doesn't give the words of the command line"),
        }
    }
}
