// Octets that are looked at where they lie.
ghost use Rattle.std.specs.Prelude.{◌≡◌};

use std::marker::Model;

/// The octets of a name or a string, borrowed. Contracts see the list of them.
#[derive(Drop)]
pub struct TextView<'t> {
    octets: &'t [u8],
}

impl<'t> Model for TextView<'t> {
    ghost use Rattle.std.specs.Prelude.{ℕ, List};

    ghost Value = { List ℕ };

    ghost view = { λ text. text.octets.now };
}

impl<'t> TextView<'t> {
    /// These octets. It takes no memory.
    pub fn new(octets: &'t [u8]) -> Self
        ensures { result ≡ octets.now }
    {
        TextView { octets }
    }

    /// The octets in order.
    pub fn as_slice(&self) -> &[u8]
        ensures { result.now ≡ self.now }
    {
        self.octets
    }
}
