// Where statements stand (P4_16 1.2, "Variable declarations").
ghost use Rattle.std.specs.Prelude.{◌≡◌, ◌-◌, suc, length, drop, OnOk};
ghost use Rattle.p416_syntax.specs.Statements.{with_variable};
ghost use Rattle.p416_scopes.specs.Seen.{seen_scope};
ghost use Rattle.p416_visits.specs.Left.{height, shortened};
ghost use Rattle.v1_ready_program.specs.Seen.{seen_seats};
ghost use Rattle.v1_ready_statements.specs.Around.{declared_seat};
ghost use Rattle.v1_ready_bodies.specs.Seen.{Stays};

use crate::singles::Singles;
use p4x_bits::{OutOfMemory, Text};
use p416_scopes::Scope;
use p416_syntax::Type16;
use p416_visits::{declare_variable, shorten};
use v1_ready_program::{Around, NamedSeats};
use v1_seats::TypeTable;

/// Where a statement stands.
pub struct Standing<'t, 'a> {
    /// What names mean.
    pub scope: Scope<'t, 'a>,
    /// Where they stand in the frames.
    pub seats: NamedSeats<'a>,
    /// Where the parts of types stand.
    pub types: &'t TypeTable<'t, 'a>,
    /// The number of the variable that is declared next, among all variables and parameters of actions of the program, from 0.
    pub number: usize,
}

impl Drop for Standing<'_, '_> {
    fn drop(self) {
        let Standing {
            scope: _scope,
            seats: _seats,
            types: _types,
            number: _number,
        } = self;
    }
}

impl<'t, 'a> Standing<'t, 'a> {
    /// What stands around an expression here.
    pub fn around(&self) -> Around<'_, 'a>
        ensures scope { result.scope.now ≡ self.now.scope }
        ensures seats { result.seats.now ≡ self.now.seats }
        ensures types { result.types.now ≡ self.now.types.now }
    {
        Around {
            scope: &self.scope,
            seats: &self.seats,
            types: self.types,
        }
    }

    /// Declares the next variable. After an error it may be declared in part.
    pub(crate) fn declare<S: Singles<'a>>(
        &mut self,
        singles: &S,
        of: &Type16,
        name: &'a Text,
    ) -> Result<(), OutOfMemory>
        ensures scope { OnOk result (seen_scope self.new.scope ≡ with_variable of.now name.now (seen_scope self.old.scope)) }
        ensures seats { OnOk result (seen_seats self.new.seats ≡ declared_seat (S.block singles.now) name.now self.old.number (seen_seats self.old.seats)) }
        ensures number { OnOk result (self.new.number ≡ suc self.old.number) }
        ensures stays { OnOk result (Stays self.old self.new) }
    {
        let seat = singles.variable(self.number)?;
        let next = self.number.checked_add(1).ok_or(OutOfMemory)?;
        declare_variable(&mut self.scope, of, name)?;
        self.seats.declare(name.as_slice(), seat)?;
        self.number = next;
        Ok(())
    }

    /// Takes all names off but those that were declared first: so many of what they mean, and so many of where they stand.
    pub fn shorten(&mut self, names: usize, seats: usize) -> Result<(), OutOfMemory>
        ensures scope { OnOk result (seen_scope self.new.scope ≡ shortened (height self.old.scope.top.now names) (seen_scope self.old.scope)) }
        ensures seats { OnOk result (seen_seats self.new.seats ≡ drop (length (seen_seats self.old.seats) - seats) (seen_seats self.old.seats)) }
        ensures number { self.new.number ≡ self.old.number }
        ensures stays { OnOk result (Stays self.old self.new) }
    {
        shorten(&mut self.scope, names)?;
        self.seats.shorten(seats)
    }
}
