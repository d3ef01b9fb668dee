//! Why an input is refused: the rule that it breaks and the place where it breaks it, and the line
//! that tells a user of both.
#![tactic(auto)]

ghost use Rattle.std.specs.Prelude.{◌≡◌, ◌≤◌, ◌+◌, ◌++◌, ◌∷◌, length, drop, decimal};
ghost use Rattle.p4x_fault.specs.Fault.{refusal_line, rule_name, told_place, line_start_of, place_text};
ghost use Rattle.p4x_fault.specs.internal.Buffers.{Adds};

use itoa::Buffer;

/// A rule that an input has to keep, by its family and its number in the family. The families are
/// this project's own.
#[derive(Clone, Copy, Debug, PartialEq, Eq)]
pub enum Rule {
    /// Tokens of a program's text.
    L(u8),
    /// The grammar of a program's text.
    S(u8),
    /// What a P4_14 program has to keep beyond its grammar.
    C(u8),
    /// What a P4_16 program has to keep beyond its grammar.
    T(u8),
    /// The file of table entries.
    E(u8),
    /// The capture file.
    K(u8),
    /// The file of ports.
    P(u8),
    /// The file of multicast groups.
    G(u8),
    /// The directives of the preprocessor.
    X(u8),
}

/// An octet of a text by its line and its column, both counted from 1, the column in octets.
#[derive(Clone, Copy, Debug, PartialEq, Eq)]
pub struct Place {
    /// One more than the line feeds before the octet.
    pub line: u64,
    /// One more than the octets between the octet and the last line feed before it.
    pub column: u64,
}

/// A broken rule, and the place where it is broken, if it is known.
#[derive(Clone, Copy, Debug, PartialEq, Eq)]
pub struct Fault {
    pub rule: Rule,
    pub place: Option<Place>,
}

/// Writes the line that tells of a fault to the front of `into`, and gives its length, which is at
/// most 64 octets.
///
/// The line is `refused RULE`, with ` at LINE:COLUMN` behind it for an L or an S rule and ` at LINE:1`
/// for an E, a P, a G or an X rule where the place is known, ended by a line feed. Nothing else of
/// `into` changes, and no memory is taken.
pub fn print(fault: &Fault, into: &mut [u8; 64]) -> usize
    ensures line { into.new
        ≡ refusal_line fault.now ++ drop (length (refusal_line fault.now)) into.old }
    ensures size { result ≡ length (refusal_line fault.now) }
    ensures fits { result ≤ 64 }
{
    let at = put(into, 0, b"refused ");
    let at = put_rule_name(into, at, fault.rule);
    let at = put_place(into, at, told_place(fault));
    put(into, at, b"\n")
}

/// The letter of the rule's family, and the rule's number.
fn letter_and_number(rule: Rule) -> (u8, u8)
    ensures { rule_name rule ≡ result.0 ∷ decimal result.1 }
{
    match rule {
        Rule::L(number) => (b'L', number),
        Rule::S(number) => (b'S', number),
        Rule::C(number) => (b'C', number),
        Rule::T(number) => (b'T', number),
        Rule::E(number) => (b'E', number),
        Rule::K(number) => (b'K', number),
        Rule::P(number) => (b'P', number),
        Rule::G(number) => (b'G', number),
        Rule::X(number) => (b'X', number),
    }
}

/// The place that the line tells.
fn told_place(fault: &Fault) -> Option<Place>
    ensures { result ≡ told_place fault.now.rule fault.now.place }
{
    match fault.rule {
        Rule::L(_) | Rule::S(_) => fault.place,
        Rule::C(_) | Rule::T(_) | Rule::K(_) => None,
        Rule::E(_) | Rule::P(_) | Rule::G(_) | Rule::X(_) => line_start_of(fault.place),
    }
}

/// The beginning of the line that the place is on.
fn line_start_of(place: Option<Place>) -> Option<Place>
    ensures { result ≡ line_start_of place }
{
    let line = place?.line;
    Some(Place { line, column: 1 })
}

/// Writes the rule's name at `at`, and gives the place behind it.
fn put_rule_name(into: &mut [u8; 64], at: usize, rule: Rule) -> usize
    requires { at ≤ 60 }
    ensures line { Adds (rule_name rule) at into.old into.new }
    ensures end { result ≡ at + length (rule_name rule) }
    ensures short { result ≤ at + 4 }
{
    let (letter, number) = letter_and_number(rule);
    let at = put(into, at, &[letter]);
    put(into, at, Buffer::new().format(number).as_bytes())
}

/// Writes ` at LINE:COLUMN` at `at` where there is a place, and gives the place behind it.
fn put_place(into: &mut [u8; 64], at: usize, place: Option<Place>) -> usize
    requires { at ≤ 19 }
    ensures line { Adds (place_text place) at into.old into.new }
    ensures end { result ≡ at + length (place_text place) }
    ensures short { result ≤ at + 45 }
{
    let Some(place) = place else {
        return at;
    };
    let at = put(into, at, b" at ");
    let at = put(into, at, Buffer::new().format(place.line).as_bytes());
    let at = put(into, at, b":");
    put(into, at, Buffer::new().format(place.column).as_bytes())
}

/// Writes the octets at `at`, and gives the place behind them.
fn put(into: &mut [u8; 64], at: usize, octets: &[u8]) -> usize
    requires { at + length octets.now ≤ 64 }
    ensures line { Adds octets.now at into.old into.new }
    ensures end { result ≡ at + length octets.now }
{
    let end = at + octets.len();
    into[at..end].copy_from_slice(octets);
    end
}
