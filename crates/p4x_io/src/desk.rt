// Files by name, and a place to print to. Each counts its own faults.
ghost use Rattle.std.specs.Prelude.{◌≡◌, ◌<◌, ◌≤◌, [], ◌∷◌, List, ℕ, length, take, Some, None, IfOk, OnOk, OnErr};
ghost use Rattle.p4x_io.specs.Desk.{DeskView, SinkView, Rose, Moves, Reads, Takes, put, grown, said};

use crate::faults::Failed;

/// Files by name.
///
/// A desk means (`view`) what it tells of the file of each name, and for each name a count of the
/// reads, and one of the makes and appends, that failed. A count never falls; it stands still at
/// 2^64 - 1, and "rose" means that it rose or stands there. A call changes at most the file that it
/// names, and a failed call changes none.
pub trait Desk {
    ghost view: { Self → DeskView };

    /// Copies octets of a file into the front of `into`, and answers how many.
    ///
    /// They are those from `place` on, counted in octets from 0; `place` is at most 1,073,741,824,
    /// and `into` isn't empty. The answer is at least 1, but 0 at or past the end of the file. An
    /// absent file is a fault.
    ///
    /// # Errors
    /// `Failed` only where the read count of this name rose.
    fn read(&mut self, name: &str, place: u64, into: &mut [u8]) -> Result<usize, Failed>
        requires room { 0 < length into.old }
        requires near { place ≤ 1073741824 }
        ensures moves { Moves [] (view self.old) (view self.new) }
        ensures octets { IfOk result (λ n. Reads ((view self.old).told name.now) place n into.new) }
        ensures cause { OnErr result (Rose ((view self.old).reads name.now) ((view self.new).reads name.now)) };

    /// Makes a file empty, whether it was there or not.
    ///
    /// # Errors
    /// `Failed` only where the write count of this name rose.
    fn make(&mut self, name: &str) -> Result<(), Failed>
        ensures moves { Moves (name.now ∷ []) (view self.old) (view self.new) }
        ensures made { OnOk result ((view self.new).told name.now ≡ put ((view self.old).told name.now) []) }
        ensures kept { OnErr result ((view self.new).told name.now ≡ (view self.old).told name.now) }
        ensures cause { OnErr result (Rose ((view self.old).writes name.now) ((view self.new).writes name.now)) };

    /// Puts a front of the piece at the end of a file, and answers its length in octets, at least 1.
    ///
    /// The piece isn't empty, and where the files are told, the file is there.
    ///
    /// # Errors
    /// `Failed` only where the write count of this name rose.
    fn append(&mut self, name: &str, piece: &[u8]) -> Result<usize, Failed>
        requires piece { 0 < length piece.now }
        requires there { (view self.old).told name.now ≡ Some None → ⊥ }
        ensures moves { Moves (name.now ∷ []) (view self.old) (view self.new) }
        ensures takes { IfOk result (Takes piece.now) }
        ensures grown { IfOk result (λ n. (view self.new).told name.now ≡ grown ((view self.old).told name.now) (take n piece.now)) }
        ensures kept { OnErr result ((view self.new).told name.now ≡ (view self.old).told name.now) }
        ensures cause { OnErr result (Rose ((view self.old).writes name.now) ((view self.new).writes name.now)) };
}

/// A place to print to.
///
/// A sink means (`view`) what was printed, where it tells it, and a count of the writes that
/// failed, which never falls and stands still at 2^64 - 1.
pub trait Sink {
    ghost view: { Self → SinkView };

    /// Prints a front of the piece, which isn't empty, and answers its length in octets, at least 1.
    ///
    /// # Errors
    /// `Failed` only where the sink's count rose; nothing was printed then.
    fn write(&mut self, piece: &[u8]) -> Result<usize, Failed>
        requires { 0 < length piece.now }
        ensures later { (view self.old).writes ≤ (view self.new).writes }
        ensures takes { IfOk result (Takes piece.now) }
        ensures said { IfOk result (λ n. (view self.new).printed ≡ said (view self.old).printed (take n piece.now)) }
        ensures kept { OnErr result ((view self.new).printed ≡ (view self.old).printed) }
        ensures cause { OnErr result (Rose (view self.old).writes (view self.new).writes) };
}
