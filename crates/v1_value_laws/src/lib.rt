//! That a kind tells of which form what an l-value means is, and of which class a value is: what the laws of statements ask of
//! the rules on types. It has definitions and laws; each law is the contract of a function that does nothing.
#![tactic(auto)]

ghost use Rattle.v1_value_laws.specs.Laws.{PlacesOfForms, ScopesFine, ScopesStayFine, ValuesOfClasses};

/// In the scopes of a program the headers that names and members are of have bits for fields.
pub fn headers_have_bits_for_fields()
    ensures { ScopesFine }
{}

/// So they have behind statements.
pub fn scopes_stay_fine()
    ensures { ScopesStayFine }
{}

/// What an l-value means, but for a slice, stands at a seat of the form of its kind.
pub fn l_values_stand_at_seats_of_their_kinds()
    ensures { PlacesOfForms }
{}

/// Where a ready expression gives a value, it is a number, a truth value or an error as its kind says.
pub fn values_are_of_their_classes()
    ensures { ValuesOfClasses }
{}
