// The names in scope with their seats (P4_16 1.2, "Name resolution").
ghost use Rattle.std.specs.Prelude.{◌≡◌, length};

use name_stack::NameStack;
use v1_seats::Seat;

/// The names in scope, in the order in which they were declared, each with the seat of what it means; none where that is no
/// value of the frame.
pub struct NamedSeats<'a> {
    /// The names.
    pub(crate) names: NameStack<'a>,
    /// Their seats.
    pub(crate) seats: Vec<Option<Seat<'a>>>,
    ghost same: { length names ≡ length seats.items },
}

impl Drop for NamedSeats<'_> {
    fn drop(self) {
        let NamedSeats {
            names: _names,
            seats: _seats,
        } = self;
    }
}
