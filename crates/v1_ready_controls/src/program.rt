// What the blocks of a program are made ready among.
use name_numbers::Numbering;
use p416_main_check::MainPlaces;
use p416_names::Top;
use p416_signature::Objects;
use p416_syntax::Syntax16;
use v1_seats::{Seat, TypeTable};

/// What the blocks of a program are made ready among.
#[derive(Clone, Copy, Drop)]
pub struct ProgramParts<'p, 'a> {
    /// The program.
    pub syntax: &'a Syntax16,
    /// The names at its top.
    pub top: &'p Top<'a>,
    /// Where the parts of its types stand.
    pub types: &'p TypeTable<'p, 'a>,
    /// The places of its blocks in `main`.
    pub places: &'p MainPlaces<'a>,
    /// The seats of all values of its frames.
    pub seats: &'p [Seat<'a>],
    /// Its objects.
    pub objects: &'p Objects<'a>,
    /// The control-plane names of all its tables, in the order of their octets.
    pub tables: &'p Numbering<'a>,
    /// The slot of `checksum_error` of the standard metadata.
    pub checksum_error: Option<u32>,
    /// The slot of `packet_length` of the standard metadata.
    pub packet_length: Option<u32>,
}
