// Laws of rows.
ghost use Rattle.lower_bodies.specs.Apart.{AlikeAreApart};
ghost use Rattle.lower_bodies.specs.Called.{CalledRowsAreKept};
ghost use Rattle.lower_bodies.specs.Fitting.{FittingRowsHave};

/// Rows are apart where primitives that read and change the same are.
pub fn alike_are_apart()
    ensures { AlikeAreApart }
{}

/// The rows of primitives that fit, in a table of the block's words, have what is asked of them.
pub fn fitting_rows_have()
    ensures { FittingRowsHave }
{}

/// The rows of calls are kept of the primitives of these calls, where the table has the program's calculations.
pub fn called_rows_are_kept()
    ensures { CalledRowsAreKept }
{}
