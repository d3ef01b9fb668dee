// Seats of parts.
ghost use Rattle.std.specs.Prelude.{◌≡◌, length, IfOk, option_map};
ghost use Rattle.p416_syntax.specs.Scopes.{fields_in};
ghost use Rattle.p416_syntax.specs.Declarations.{layouts_of};
ghost use Rattle.v1_core.specs.Values.{to_member, to_element};
ghost use Rattle.v1_core.specs.Seats.{behind_seat, stepped_seat};
ghost use Rattle.v1_seats.specs.Seen.{seen_start, seen_seat};

use crate::extents::{extent_of, field_count};
use crate::laying::{Laid, lay_all};
use crate::members::{element_of, field_of, member_of};
use crate::rows::Rows;
use crate::seat::Seat;
use crate::start::{Start, further};
use p4x_bits::OutOfMemory;
use p416_names::{Kind, Top};
use std::alloc::Global;
use std::marker::Model;

/// The types of a program, with where each field and each member stands. Contracts see the types with their fields.
pub struct TypeTable<'t, 'a> {
    rows: Rows<'t, 'a>,
    laid: Vec<Option<Laid>>,
}

impl Drop for TypeTable<'_, '_> {
    fn drop(self) {
        let TypeTable {
            rows: _rows,
            laid: _laid,
        } = self;
    }
}

impl<'t, 'a> Model for TypeTable<'t, 'a> {
    ghost use Rattle.std.specs.Prelude.{List};
    ghost use Rattle.p416_syntax.specs.Scopes.{Layout};
    ghost use Rattle.v1_seats.specs.internal.Rows.{AreStructs};

    ghost Value = { List Layout };

    ghost view = { λ t. t.rows.types };

    ghost invariant = { λ t. AreStructs t.rows.types t.rows.names t.laid.items };
}

impl<'t, 'a> TypeTable<'t, 'a> {
    /// The types of a program with these names at the top. The time is linear in the declarations, but for look-ups. The one
    /// error is want of memory, which a struct that holds itself counts as (T1 forbids it).
    pub fn of(alloc: Global, top: &'t Top<'a>) -> Result<Self, OutOfMemory>
        ensures { IfOk result (λ t. t ≡ layouts_of top.now) }
    {
        let rows = Rows::of(alloc, top)?;
        let laid = lay_all(alloc, &rows)?;
        Ok(TypeTable { rows, laid })
    }

    /// How many types there are, which is how deep structs are looked into at most.
    pub fn depth(&self) -> Result<usize, OutOfMemory>
        ensures { IfOk result (λ n. n ≡ length self.now) }
    {
        self.rows.depth()
    }

    /// Where what stands behind a part begins. Numbers of more than 32 bits, a type that isn't declared, and structs that are
    /// looked into less deep than they nest count as want of memory; no seat of a frame of an accepted program has these.
    #[tactic(auto, using(crate::proofs::Reaching::behind_reached))]
    pub fn behind(&self, seat: Seat<'_>) -> Result<Start, OutOfMemory>
        ensures { IfOk result (λ s. seen_start s ≡ behind_seat self.now (seen_seat seat.entry)) }
    {
        let reach = extent_of(&self.rows, &self.laid, seat.kind)?;
        if seat.depth < reach.depth {
            return Err(OutOfMemory);
        }
        further(seat.start, reach.size)
    }

    /// The field or the member of this name of what stands there; None exactly where it has none. Errors as those of `behind`.
    pub fn member(&self, seat: Seat<'a>, word: &[u8]) -> Result<Option<Seat<'a>>, OutOfMemory>
        ensures { IfOk result (λ found. option_map seen_seat found ≡ stepped_seat self.now seat.entry.depth (seen_seat seat.entry).form (seen_start seat.entry.start) (to_member word.now)) }
    {
        match seat.kind {
            Kind::Header(of) => field_of(&self.rows, seat, of, word),
            Kind::Struct(of) => member_of(&self.rows, &self.laid, seat, of, word),
            _ => Ok(None),
        }
    }

    /// The element with this number of what stands there; None exactly where it has none. Errors as those of `behind`.
    pub fn element(&self, seat: Seat<'a>, number: u128) -> Result<Option<Seat<'a>>, OutOfMemory>
        ensures { IfOk result (λ found. option_map seen_seat found ≡ stepped_seat self.now seat.entry.depth (seen_seat seat.entry).form (seen_start seat.entry.start) (to_element number)) }
    {
        match seat.kind {
            Kind::Stack(of, size) => element_of(&self.rows, seat, of, size, number),
            _ => Ok(None),
        }
    }

    /// How many fields a header of the type of this name has. Errors as those of `behind`.
    pub fn fields(&self, of: &[u8]) -> Result<u32, OutOfMemory>
        ensures { IfOk result (λ n. n ≡ length (fields_in self.now of.now)) }
    {
        field_count(&self.rows, of)
    }
}
