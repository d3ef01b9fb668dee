// The sample programs.
use p4x_texts::{COMMENT, LABELS, NO_DEFAULT, ONE_TABLE, RESUBMIT, ROUTER};

/// A sample program, by the mark that stands for it.
pub fn sample(mark: u8) -> &'static [u8] {
    match mark {
        b'1' => ONE_TABLE,
        b'2' => ROUTER,
        b'3' => COMMENT,
        b'4' => LABELS,
        b'5' => NO_DEFAULT,
        _ => RESUBMIT,
    }
}
