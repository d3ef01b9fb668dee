// Octets at the end of a text.
ghost use Rattle.std.specs.Prelude.{◌≡◌, ◌++◌, ◌∷◌, length, take, drop, replicate, OnOk, OnErr, IfOk};
ghost use Rattle.token_sheet.specs.Blanks.{blank_octets};

use crate::blanks::Blanks;
use p4x_bits::{Octets, OutOfMemory};

/// Puts the blanks and the octets at the end, and tells where the octets begin. For want of memory the text stays as it was.
pub fn add(text: &mut Octets, blanks: Blanks, octets: &[u8]) -> Result<usize, OutOfMemory>
    ensures ok { OnOk result (text.new ≡ (text.old ++ blank_octets blanks) ++ octets.now) }
    ensures start { IfOk result (λ start. start ≡ length (text.old ++ blank_octets blanks)) }
    ensures err { OnErr result (text.new ≡ text.old) }
{
    let len = text.len();
    match add_parts(text, blanks, octets) {
        Ok(start) => Ok(start),
        Err(error) => {
            text.truncate(len);
            Err(error)
        }
    }
}

/// The same, but for want of memory a part may stand there.
#[tactic(auto, using(crate::proofs::Spaces::old_again))]
fn add_parts(text: &mut Octets, blanks: Blanks, octets: &[u8]) -> Result<usize, OutOfMemory>
    ensures ok { OnOk result (text.new ≡ (text.old ++ blank_octets blanks) ++ octets.now) }
    ensures start { IfOk result (λ start. start ≡ length (text.old ++ blank_octets blanks)) }
    ensures err { OnErr result (take (length text.old) text.new ≡ text.old) }
{
    add_blanks(text, blanks)?;
    let start = text.len();
    text.extend_from_slice(octets)?;
    Ok(start)
}

/// Puts the blanks at the end. For want of memory a part of them may stand there.
#[tactic(auto, using(crate::proofs::Spaces::old_again, crate::proofs::Spaces::old_again_behind, crate::proofs::Spaces::put_behind))]
fn add_blanks(text: &mut Octets, blanks: Blanks) -> Result<(), OutOfMemory>
    ensures ok { OnOk result (text.new ≡ text.old ++ blank_octets blanks) }
    ensures err { take (length text.old) text.new ≡ text.old }
{
    if blanks.line {
        add_line_feeds(text, blanks.further)?;
    }
    add_octets(text, b' ', blanks.spaces)
}

/// Puts a line feed and so many further ones at the end. For want of memory a part of them may stand there.
#[tactic(auto, using(crate::proofs::Spaces::old_again, crate::proofs::Spaces::old_again_behind, crate::proofs::Spaces::put_behind))]
fn add_line_feeds(text: &mut Octets, further: usize) -> Result<(), OutOfMemory>
    ensures ok { OnOk result (text.new ≡ text.old ++ 10 ∷ replicate further 10) }
    ensures err { take (length text.old) text.new ≡ text.old }
{
    text.push(b'\n')?;
    add_octets(text, b'\n', further)
}

/// Puts this octet at the end so many times. For want of memory it may stand there fewer times.
fn add_octets(text: &mut Octets, octet: u8, count: usize) -> Result<(), OutOfMemory>
    ensures ok { OnOk result (text.new ≡ text.old ++ replicate count octet) }
    ensures err { take (length text.old) text.new ≡ text.old }
{
    for _ in 0..count {
        text.push(octet)?;
    }
    Ok(())
}

/// Puts the blanks, the octets and further octets at the end, and tells where the further ones begin. For want of memory the
/// text stays as it was.
pub fn add_two(
    text: &mut Octets,
    blanks: Blanks,
    octets: &[u8],
    more: &[u8],
) -> Result<usize, OutOfMemory>
    ensures ok { OnOk result (text.new ≡ ((text.old ++ blank_octets blanks) ++ octets.now) ++ more.now) }
    ensures start { IfOk result (λ start. start ≡ length ((text.old ++ blank_octets blanks) ++ octets.now)) }
    ensures err { OnErr result (text.new ≡ text.old) }
{
    let len = text.len();
    match add_both(text, blanks, octets, more) {
        Ok(start) => Ok(start),
        Err(error) => {
            text.truncate(len);
            Err(error)
        }
    }
}

/// The same, but for want of memory a part may stand there.
#[tactic(auto, using(crate::proofs::Spaces::old_again))]
fn add_both(
    text: &mut Octets,
    blanks: Blanks,
    octets: &[u8],
    more: &[u8],
) -> Result<usize, OutOfMemory>
    ensures ok { OnOk result (text.new ≡ ((text.old ++ blank_octets blanks) ++ octets.now) ++ more.now) }
    ensures start { IfOk result (λ start. start ≡ length ((text.old ++ blank_octets blanks) ++ octets.now)) }
    ensures err { OnErr result (take (length text.old) text.new ≡ text.old) }
{
    add_parts(text, blanks, octets)?;
    let start = text.len();
    text.extend_from_slice(more)?;
    Ok(start)
}
