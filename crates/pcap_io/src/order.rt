// Numbers in either order of octets.
ghost use Rattle.std.specs.Prelude.{◌≡◌, ◌+◌, ◌≤◌, length};
ghost use Rattle.pcap_io.specs.Numbers.{half_at, word_at};

use byteorder::{BigEndian, ByteOrder, LittleEndian};

/// The order of octets in which a file's numbers stand.
#[derive(Clone, Copy, PartialEq, Eq)]
pub enum Order {
    /// The lowest octet first.
    Little,
    /// The highest octet first.
    Big,
}

impl Order {
    /// The number in the two octets from `place` on.
    pub(crate) fn half(self, octets: &[u8], place: usize) -> u16
        requires { place + 2 ≤ length octets.now }
        ensures { result ≡ half_at self place octets.now }
    {
        let (_, number) = octets.split_at(place);
        match self {
            Order::Little => LittleEndian::read_u16(number),
            Order::Big => BigEndian::read_u16(number),
        }
    }

    /// The number in the four octets from `place` on.
    pub(crate) fn word(self, octets: &[u8], place: usize) -> u32
        requires { place + 4 ≤ length octets.now }
        ensures { result ≡ word_at self place octets.now }
    {
        let (_, number) = octets.split_at(place);
        match self {
            Order::Little => LittleEndian::read_u32(number),
            Order::Big => BigEndian::read_u32(number),
        }
    }
}
