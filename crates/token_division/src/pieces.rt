// Marks and comments at the front of a text.
ghost use Rattle.std.specs.Prelude.{◌≡◌, ◌<◌, ◌≤◌, ◌+◌, length, IfOk, IfSome, IsTrue, All};
ghost use Rattle.token_division.specs.Pieces.{begins, mark_at, is_longest_first, close_size, comment_size};

use crate::octets::line_size;
use p4x_fault::Rule;

/// The marks of a language. Each is written in one way.
pub trait Mark: Copy {
    ghost use Rattle.std.specs.Prelude.{ℕ, List};

    ghost text_of: { Self → List ℕ };

    /// The octets that it is written with.
    fn octets(self) -> &'static [u8]
        ensures { result.now ≡ text_of self };
}

/// The first of the marks that the text begins with, and none where it begins with none of them. A table whose
/// longer marks stand first gives the longest.
pub fn mark_at<M: Mark>(marks: &[M], text: &[u8]) -> Option<M>
    ensures is { result ≡ mark_at M.text_of marks.now text.now }
    ensures within { IfSome result (λ mark. length (M.text_of mark) ≤ length text.now) }
    ensures longest { IsTrue (is_longest_first M.text_of marks.now)
        → IfSome result (λ mark. All (λ other. IsTrue (begins text.now (M.text_of other)) → length (M.text_of other) ≤ length (M.text_of mark)) marks.now) }
{
    for mark in marks {
        if text.starts_with(mark.octets()) {
            return Some(*mark);
        }
    }
    None
}

/// The length of the comment that the text begins with. A `/` that begins no comment breaks L1, a
/// comment that isn't closed L2.
pub fn comment_size(text: &[u8]) -> Result<usize, Rule>
    ensures is { result ≡ comment_size text.now }
    ensures within { IfOk result (λ size. (0 < size) × (size ≤ length text.now)) }
{
    if text.starts_with(b"//") {
        return Ok(line_size(text));
    }
    if !text.starts_with(b"/*") {
        return Err(Rule::L(1));
    }
    let (_, inside) = text.split_at(2);
    match close_size(inside) {
        Some(size) => Ok(size + 2),
        None => Err(Rule::L(2)),
    }
}

/// How many octets stand up to the end of the first `*/`.
#[tactic(auto, using(crate::proofs::Scans::close_found))]
fn close_size(text: &[u8]) -> Option<usize>
    ensures is { result ≡ close_size text.now }
    ensures within { IfSome result (λ size. size ≤ length text.now) }
{
    for at in 0..text.len() {
        let (_, rest) = text.split_at(at);
        if rest.starts_with(b"*/") {
            return Some(at + 2);
        }
    }
    None
}
