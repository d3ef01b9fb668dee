ghost use Rattle.std.specs.Prelude.{◌≡◌, ◌↔◌, ◌<◌, ◌≤◌, ℕ, List, [], ◌∷◌, length, take, drop, Some, None, Option, Err, IsTrue, IfOk, OnOk, OnErr};
ghost use Rattle.p4x_io.specs.Desk.{Rose, Moves, grown, said};
ghost use Rattle.p4x_io.specs.Files.{GrownInPart, SaidInPart, ReadGives, Says};

use crate::desk::{Desk, Sink};
use crate::faults::Failed;
use crate::files::{PIECE, ReadFault};
use std::alloc::Global;

/// Reads a whole file that may have so many octets, at most 1,073,741,824.
///
/// # Errors
/// `Limit` exactly where the file has more octets than the limit, as far as the desk tells it;
/// `Failed` only where the read count of the name rose; `Memory` where memory is wanted.
pub fn read_file<D: Desk>(
    alloc: Global,
    desk: &mut D,
    name: &str,
    limit: usize,
) -> Result<Vec<u8>, ReadFault>
    requires { limit ≤ 1073741824 }
    ensures moves { Moves [] (D.view desk.old) (D.view desk.new) }
    ensures gives { (file : Option (List ℕ)) → (D.view desk.old).told name.now ≡ Some file → ReadGives limit file result }
    ensures cause { result ≡ Err ReadFault.Failed → Rose ((D.view desk.old).reads name.now) ((D.view desk.new).reads name.now) }
{
    let mut text: Vec<u8> = Vec::new(alloc);
    let mut piece = [0u8; PIECE];
    while text.len() <= limit {
        match desk.read(name, text.len() as u64, &mut piece) {
            Ok(0) => return Ok(text),
            Ok(count) => text.extend_from_slice(&piece[..count])?,
            Err(Failed) => return Err(ReadFault::Failed),
        }
    }
    Err(ReadFault::Limit)
}

/// Whether a file has an octet at a place, which is at most 1,073,741,824.
///
/// # Errors
/// `Failed` only where the read count of the name rose; so it is where the desk tells that no such
/// file is there.
pub fn has_octet<D: Desk>(desk: &mut D, name: &str, place: u64) -> Result<bool, Failed>
    requires { place ≤ 1073741824 }
    ensures moves { Moves [] (D.view desk.old) (D.view desk.new) }
    ensures there { OnOk result ((D.view desk.old).told name.now ≡ Some None → ⊥) }
    ensures exact { (text : List ℕ) → (D.view desk.old).told name.now ≡ Some (Some text) → IfOk result (λ b. IsTrue b ↔ (place < length text)) }
    ensures cause { OnErr result (Rose ((D.view desk.old).reads name.now) ((D.view desk.new).reads name.now)) }
{
    let mut octet = [0u8; 1];
    let count = desk.read(name, place, &mut octet)?;
    Ok(count > 0)
}

// The next piece of a text, from a place inside it on.
fn piece_at(text: &[u8], at: usize) -> &[u8]
    requires { at < length text.now }
    ensures some { 0 < length result.now }
    ensures front { result.now ≡ take PIECE (drop at text.now) }
{
    let rest = &text[at..];
    let count = rest.len().min(PIECE);
    &rest[..count]
}

/// Puts all the octets of a text at the end of a file, in pieces of at most 65,536.
///
/// Where the files are told, the file is there. On `Err` the file has grown by a front of the text.
///
/// # Errors
/// `Failed` only where the write count of the name rose.
pub fn append_all<D: Desk>(desk: &mut D, name: &str, text: &[u8]) -> Result<(), Failed>
    requires there { (D.view desk.old).told name.now ≡ Some None → ⊥ }
    ensures moves { Moves (name.now ∷ []) (D.view desk.old) (D.view desk.new) }
    ensures whole { OnOk result ((D.view desk.new).told name.now ≡ grown ((D.view desk.old).told name.now) text.now) }
    ensures part { OnErr result (GrownInPart ((D.view desk.old).told name.now) text.now ((D.view desk.new).told name.now)) }
    ensures cause { OnErr result (Rose ((D.view desk.old).writes name.now) ((D.view desk.new).writes name.now)) }
{
    let mut at = 0;
    while at < text.len() {
        match desk.append(name, piece_at(text, at)) {
            Ok(count) => at += count,
            Err(Failed) => return Err(Failed),
        }
    }
    Ok(())
}

/// Prints all the octets of a text. On `Err` a front of it was printed.
///
/// # Errors
/// `Failed` only where the sink's count rose.
pub fn print_all<K: Sink>(out: &mut K, text: &[u8]) -> Result<(), Failed>
    ensures later { (K.view out.old).writes ≤ (K.view out.new).writes }
    ensures whole { OnOk result ((K.view out.new).printed ≡ said (K.view out.old).printed text.now) }
    ensures part { OnErr result (SaidInPart (K.view out.old).printed text.now (K.view out.new).printed) }
    ensures cause { OnErr result (Rose (K.view out.old).writes (K.view out.new).writes) }
{
    let mut at = 0;
    while at < text.len() {
        match out.write(piece_at(text, at)) {
            Ok(count) => at += count,
            Err(Failed) => return Err(Failed),
        }
    }
    Ok(())
}

/// Prints the line of a status and answers the status, or 1 in its place where the printing fails.
pub fn say<K: Sink>(out: &mut K, line: &[u8], status: u8) -> u8
    ensures { Says line.now status result (K.view out.old) (K.view out.new) }
{
    match print_all(out, line) {
        Ok(()) => status,
        Err(Failed) => 1,
    }
}
