// Lists of ports.
ghost use Rattle.std.specs.Prelude.{◌≡◌, ◌++◌, All, IfOk, OnOk, IfSome, option_to_list};
ghost use Rattle.state_store.specs.Ports.{IsPort};
ghost use Rattle.text_lines.specs.Words.{words_of};
ghost use Rattle.pcap_io.specs.Ports.{port_in, port_on, ports_of, GivesPorts};

use crate::faults::PortFault;
use p4x_bits::{Numbers, OutOfMemory};
use p4x_fault::Rule;
use state_store::GREATEST_PORT;
use std::alloc::Global;
use text_lines::{Base, are_digits, at_line, decimal_up_to, is_comment, next_line, next_word};

/// The ports that packets come in on.
#[derive(Drop)]
pub struct Ports {
    /// The ports in order, each from 0 to `state_store::GREATEST_PORT`.
    pub list: Numbers,
}

/// Reads a list of ports: one decimal number a line, from 0 to `state_store::GREATEST_PORT`.
///
/// A line feed ends a line, and a carriage return in front of it is dropped. Blanks around the number are
/// spaces and tabs. A line without a word is skipped, and so is one whose first word begins with `#`.
///
/// It is refused exactly where a line is bad, at the first such line: with P1 where that is no number, with
/// P2 where the number is over `state_store::GREATEST_PORT`.
pub fn read_ports(alloc: Global, text: &[u8]) -> Result<Ports, PortFault>
    ensures is { GivesPorts (ports_of text.now) result }
    ensures fits { IfOk result (λ ports. All IsPort ports.list) }
{
    let mut list = Numbers::new(alloc);
    let mut number = 1u64;
    let mut rest = text;
    'lines: while let Some((line, behind)) = next_line(rest) {
        match port_on(line) {
            Ok(port) => add_port(&mut list, port)?,
            Err(rule) => return Err(PortFault::Refused(at_line(rule, number))),
        }
        number += 1;
        rest = behind;
    }
    Ok(Ports { list })
}

/// Puts a port behind those that are there, if there is one.
fn add_port(list: &mut Numbers, port: Option<u16>) -> Result<(), OutOfMemory>
    ensures { OnOk result (list.new ≡ list.old ++ option_to_list port) }
{
    match port {
        Some(port) => list.push(u128::from(port)),
        None => Ok(()),
    }
}

/// The port on a line, None where the line is skipped, or the rule that it breaks.
fn port_on(line: &[u8]) -> Result<Option<u16>, Rule>
    ensures is { result ≡ port_on (words_of line.now) }
    ensures fits { IfOk result (λ found. IfSome found IsPort) }
{
    let Some((word, behind)) = next_word(line) else {
        return Ok(None);
    };
    if is_comment(word) {
        return Ok(None);
    }
    if next_word(behind).is_some() {
        return Err(Rule::P(1));
    }
    port_in(word)
}

/// The port that a word is, or the rule that it breaks.
fn port_in(word: &[u8]) -> Result<Option<u16>, Rule>
    ensures is { result ≡ port_in word.now }
    ensures fits { IfOk result (λ found. IfSome found IsPort) }
{
    if !are_digits(Base::Decimal, word) {
        return Err(Rule::P(1));
    }
    match decimal_up_to(word, u128::from(GREATEST_PORT)) {
        Some(port) => Ok(Some(port as u16)),
        None => Err(Rule::P(2)),
    }
}
