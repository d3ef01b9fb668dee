// The file header of a capture.
ghost use Rattle.std.specs.Prelude.{◌≡◌, ◌≤◌, length};
ghost use Rattle.pcap_io.specs.Captures.{is_magic, order_of, head_of, refused, has_version};

use crate::order::Order;
use p4x_fault::{Fault, Rule};

/// How many octets a file header has.
pub(crate) const FILE_HEADER: usize = 24;

/// The magic number of a file whose fractions are microseconds.
pub(crate) const MICRO_MAGIC: u32 = 0xa1b2_c3d4;

/// The magic number of a file whose fractions are nanoseconds.
pub(crate) const NANO_MAGIC: u32 = 0xa1b2_3c4d;

/// What a file header says.
#[derive(Clone, Copy, PartialEq, Eq)]
pub struct Head {
    /// The order of octets in which the file's numbers stand.
    pub order: Order,
    /// Whether its fractions are nanoseconds; else they are microseconds.
    pub nano: bool,
    /// Its link type.
    pub link: u32,
}

/// The refusal by a K rule.
pub(crate) fn refused(rule: u8) -> Fault
    ensures { result ≡ refused rule }
{
    Fault {
        rule: Rule::K(rule),
        place: None,
    }
}

fn is_magic(word: u32) -> bool
    ensures { result ≡ is_magic word }
{
    word == MICRO_MAGIC || word == NANO_MAGIC
}

/// The order of octets in which the magic number reads right.
fn order_of(octets: &[u8]) -> Option<Order>
    requires { 4 ≤ length octets.now }
    ensures { result ≡ order_of octets.now }
{
    if is_magic(Order::Little.word(octets, 0)) {
        Some(Order::Little)
    } else if is_magic(Order::Big.word(octets, 0)) {
        Some(Order::Big)
    } else {
        None
    }
}

fn has_version(order: Order, octets: &[u8]) -> bool
    requires { 8 ≤ length octets.now }
    ensures { result ≡ has_version order octets.now }
{
    order.half(octets, 4) == 2 && order.half(octets, 6) == 4
}

/// What a file header says, or its refusal by K2 or K3.
#[tactic(auto, unfolding(crate::specs::Captures::head_of))]
pub(crate) fn read_head(octets: &[u8]) -> Result<Head, Fault>
    requires { 24 ≤ length octets.now }
    ensures { result ≡ head_of octets.now }
{
    let Some(order) = order_of(octets) else {
        return Err(refused(2));
    };
    if !has_version(order, octets) {
        return Err(refused(3));
    }
    Ok(Head {
        order,
        nano: order.word(octets, 0) == NANO_MAGIC,
        link: order.word(octets, 20),
    })
}
