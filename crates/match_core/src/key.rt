// The values of a table's keys, as a packet has them.
ghost use Rattle.std.specs.Prelude.{◌≡◌, ◌<◌, [], ◌∷◌, ◌++◌, length, IsOk, OnOk, OnErr, Some, nat_eq, refl};
ghost use Rattle.std.specs.Cmp.{partial_equiv_from_equiv};
ghost use Rattle.std.specs.Cmp.Lexicographic.{slice_cmp, pointwise, texts_po, texts_ties, nat_list_eq_equiv, nat_list_cmp_total};
ghost use Rattle.std.specs.Ordering.{nat_cmp};

use p4x_bits::OutOfMemory;
use smallvec::SmallVec;
use std::alloc::Global;
use std::cmp::Ordering;
use std::marker::Model;

/// The values of a table's keys in order. Up to eight stand in the value itself.
pub struct Key {
    values: SmallVec<u128, 8>,
}

impl Drop for Key {
    fn drop(self) {
        let Key { values: _values } = self;
    }
}

impl Model for Key {
    ghost use Rattle.std.specs.Prelude.{List, ℕ, ◌≤◌};

    ghost Value = { List ℕ };

    ghost view = { λ key. key.values.items };

    ghost invariant = { λ key. 8 ≤ key.values.capacity };
}

impl Key {
    /// A key without values.
    pub fn new(alloc: Global) -> Key
        ensures { result ≡ [] }
    {
        Key {
            values: SmallVec::new(alloc),
        }
    }

    /// Puts one more value at the end. The first eight values take no memory; for want of memory the
    /// key stays as it was.
    pub fn push(&mut self, value: u128) -> Result<(), OutOfMemory>
        ensures ok { OnOk result (self.new ≡ self.old ++ value ∷ []) }
        ensures err { OnErr result (self.new ≡ self.old) }
        ensures first_eight { length self.old < 8 → IsOk result }
    {
        match self.values.push(value) {
            Ok(()) => Ok(()),
            Err(_) => Err(OutOfMemory),
        }
    }

    /// The values in order.
    pub fn as_slice(&self) -> &[u128]
        ensures { result.now ≡ self.now }
    {
        self.values.as_slice()
    }
}

impl PartialEq for Key {
    ghost eq = { pointwise nat_eq };

    ghost laws = { partial_equiv_from_equiv nat_list_eq_equiv };

    fn eq(&self, other: &Key) -> bool {
        self.as_slice() == other.as_slice()
    }
}

impl Eq for Key {
    ghost laws = { nat_list_eq_equiv };
}

impl PartialOrd for Key {
    ghost partial_cmp = { λ a b. Some (slice_cmp nat_cmp a b) };

    ghost laws = { texts_po };

    fn partial_cmp(&self, other: &Key) -> Option<Ordering> {
        Some(self.cmp(other))
    }
}

/// Keys in the order of their values, the first value first.
impl Ord for Key {
    ghost cmp = { slice_cmp nat_cmp };

    ghost total = { nat_list_cmp_total };

    ghost matches_partial_cmp = { λ a b. refl };

    ghost matches_eq = { texts_ties };

    fn cmp(&self, other: &Key) -> Ordering {
        self.as_slice().cmp(&other.as_slice())
    }
}
