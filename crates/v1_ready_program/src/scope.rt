// Names are declared, found and taken off again.
ghost use Rattle.std.specs.Prelude.{◌≡◌, ◌-◌, [], ◌∷◌, length, take, drop, option_map, OnOk};
ghost use Rattle.v1_seats.specs.Seen.{seen_seat};
ghost use Rattle.v1_ready_forms.specs.Named.{named_seat, seat_of_name};
ghost use Rattle.v1_ready_program.specs.Seen.{seen_seats, seat_at};

use crate::names::NamedSeats;
use name_stack::NameStack;
use p4x_bits::OutOfMemory;
use std::alloc::Global;
use v1_seats::Seat;

impl<'a> NamedSeats<'a> {
    /// No names. It takes no memory until one is declared.
    pub fn new(alloc: Global) -> Self
        ensures { seen_seats result ≡ [] }
    {
        NamedSeats {
            names: NameStack::new(alloc),
            seats: Vec::new(alloc),
        }
    }

    /// The seat of what a name means; none where it means no value of the frame.
    #[tactic(auto, using(crate::proofs::Naming::seat_found))]
    pub fn find(&self, name: &[u8]) -> Option<Seat<'a>>
        ensures { option_map seen_seat result ≡ seat_of_name (seen_seats self.now) name.now }
    {
        match self.names.find(name) {
            Some(place) => self.at(place),
            None => None,
        }
    }

    /// The seat of the name at a place.
    fn at(&self, place: usize) -> Option<Seat<'a>>
        ensures { option_map seen_seat result ≡ seat_at self.now.seats.items place }
    {
        match self.seats.get(place) {
            Some(seat) => *seat,
            None => None,
        }
    }

    /// Declares a name inside those that are in scope. For want of memory these stay as they were.
    #[tactic(auto, using(crate::proofs::Naming::seats_push))]
    pub fn declare(&mut self, name: &'a [u8], seat: Option<Seat<'a>>) -> Result<(), OutOfMemory>
        ensures { OnOk result (seen_seats self.new ≡ named_seat name.now (option_map seen_seat seat.entry) ∷ seen_seats self.old) }
    {
        self.seats.push(seat)?;
        match self.names.push(name) {
            Ok(()) => Ok(()),
            Err(error) => {
                self.seats.pop();
                Err(error)
            }
        }
    }

    /// How many names are declared.
    #[tactic(auto, using(crate::proofs::Naming::seats_counted))]
    pub fn len(&self) -> usize
        ensures { result ≡ length (seen_seats self.now) }
    {
        self.names.len()
    }

    /// Takes the name off that was declared last, where one was. For want of memory the names stay as they were.
    fn leave_one(&mut self) -> Result<(), OutOfMemory>
        ensures names { OnOk result (self.new.names ≡ take (length self.old.names - 1) self.old.names) }
        ensures seats { OnOk result (self.new.seats.items ≡ take (length self.old.seats.items - 1) self.old.seats.items) }
    {
        self.names.pop()?;
        self.seats.pop();
        Ok(())
    }

    /// Takes all names off but so many that were declared first. For want of memory some of them stay.
    #[tactic(auto, using(p416_scopes::proofs::Scopes::kept_less, p416_scopes::proofs::Scopes::one_less, p416_scopes::proofs::Scopes::kept_all))]
    fn keep_first(&mut self, len: usize) -> Result<(), OutOfMemory>
        ensures names { OnOk result (self.new.names ≡ take len self.old.names) }
        ensures seats { OnOk result (self.new.seats.items ≡ take len self.old.seats.items) }
    {
        while self.names.len() > len {
            self.leave_one()?;
        }
        Ok(())
    }

    /// Takes all names off but so many that were declared first, as at the end of a block. For want of memory some of the others
    /// stay.
    #[tactic(auto, using(crate::proofs::Naming::seats_shortened))]
    pub fn shorten(&mut self, len: usize) -> Result<(), OutOfMemory>
        ensures { OnOk result (seen_seats self.new ≡ drop (length (seen_seats self.old) - len) (seen_seats self.old)) }
    {
        self.keep_first(len)
    }
}
