// A sink that keeps the front of what it printed.
use p4x_io::{Failed, Sink};

/// The most octets that are kept: no line of a refusal is longer.
const ROOM: usize = 64;

/// The front of a text.
#[derive(Clone, Copy, Drop)]
struct Front {
    octets: [u8; ROOM],
    length: usize,
}

impl Front {
    /// As many octets of the piece as there is room for come behind those that are kept.
    fn keep(&mut self, piece: &[u8]) {
        for octet in piece {
            if self.length < ROOM {
                self.octets[self.length] = *octet;
                self.length += 1;
            }
        }
    }

    fn octets(&self) -> &[u8] {
        &self.octets[..self.length.min(ROOM)]
    }
}

/// A sink that prints by another one and keeps the first 64 octets that were printed. It is the other sink to every contract.
#[derive(Drop)]
pub struct Heard<K: Drop> {
    sink: K,
    front: Front,
}

impl<K: Sink + Drop> Heard<K> {
    /// The sink, with nothing kept yet.
    pub fn new(sink: K) -> Self {
        let front = Front {
            octets: [0; ROOM],
            length: 0,
        };
        Heard { sink, front }
    }

    /// The front of what was printed.
    pub fn front(&self) -> &[u8] {
        self.front.octets()
    }
}

impl<K: Sink + Drop> Sink for Heard<K> {
    ghost view = { λ h. K.view h.sink };

    fn write(&mut self, piece: &[u8]) -> Result<usize, Failed> {
        let count = self.sink.write(piece)?;
        self.front.keep(&piece[..count]);
        Ok(count)
    }
}
