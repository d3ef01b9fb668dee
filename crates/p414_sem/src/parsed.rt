// How parsing ends.

/// How the parsing of a packet ends (P4_14 1.0.5, "Parser Specification", "Standard Parser Exceptions").
#[derive(Clone, Copy, PartialEq, Eq, Drop)]
pub enum Parsed {
    /// A state returned `ingress`.
    Accepted,
    /// `p4_pe_out_of_packet`: an extraction or `current` goes past the end of the packet.
    OutOfPacket,
    /// `p4_pe_index_out_of_bounds`: the next element of a full header stack was asked for.
    OutOfBounds,
    /// `p4_pe_unhandled_select`: no case of a select matches.
    UnhandledSelect,
}
