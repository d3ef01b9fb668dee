// The bound on passes.
ghost use Rattle.std.specs.Prelude.{IsTrue, ◌↔◌};
ghost use Rattle.fabric.specs.Numbers.{IsBound};

/// The greatest bound on the passes that a packet and all that comes of it may make. What is left in the
/// queue after so many passes is cut. (This project's own.)
pub const MOST_PASSES: u32 = 65_536;

/// Whether this is a bound on passes: from 1 to `MOST_PASSES`.
pub fn is_bound(passes: u32) -> bool
    ensures { IsTrue result ↔ IsBound passes }
{
    1 <= passes && passes <= MOST_PASSES
}
