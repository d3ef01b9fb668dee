// Selects.
ghost use Rattle.std.specs.Prelude.{◌≡◌, ◌+◌, ◌*◌, ◌%◌, ◌^◌, ◌≤◌, All};
ghost use Rattle.p414_ready_parser.specs.Rows.{key_bits};
ghost use Rattle.p414_ready_parser.specs.Running.{ready_key, row_for, takes};
ghost use Rattle.p414_parse_run.specs.Fits.{FitsPart};

use crate::fields::number;
use p414_ready_parser::{CaseRow, CaseTest, Next, SelectPart};
use p414_slots::low;
use p414_state::State14;

/// So many bits of a number behind those so far.
fn join(front: u128, width: u8, value: u128) -> u128
    requires width { width ≤ 128 }
    requires fits { (front + 1) * 2 ^ width ≤ 2 ^ 128 }
    ensures { result ≡ front * 2 ^ width + value % 2 ^ width }
{
    if width < 128 {
        front * (1u128 << width) + low(width, value)
    } else {
        low(width, value)
    }
}

/// The key of a select: its values joined, first value first; none where one goes past the end of the packet.
pub fn key(state: &State14, element: u32, parts: &[SelectPart]) -> Option<u128>
    requires parts { All FitsPart parts.now }
    requires bits { key_bits parts.now ≤ 128 }
    ensures { result ≡ ready_key element state.now.state parts.now }
{
    let mut front = 0;
    for part in parts {
        match number(state, element, part.value) {
            Some(value) => front = join(front, part.width, value),
            None => return None,
        }
    }
    Some(front)
}

/// Whether a row takes a key.
fn takes(test: CaseTest, key: u128) -> bool
    ensures { result ≡ takes test key }
{
    match test {
        CaseTest::Any => true,
        CaseTest::Equal(value) => key == value,
        CaseTest::Masked { mask, value } => key & mask == value,
    }
}

/// Where the first row leads that takes a key.
pub fn row_for(rows: &[CaseRow], key: u128) -> Next
    ensures { result ≡ row_for rows.now key }
{
    for row in rows {
        if takes(row.test, key) {
            return row.next;
        }
    }
    Next::Unhandled
}
