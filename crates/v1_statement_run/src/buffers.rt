// Bits that are put behind others many at a time.
ghost use Rattle.std.specs.Prelude.{◌≡◌, ◌^◌, ◌++◌, ◌<◌, ◌≤◌, [], OnOk};
ghost use Rattle.p4x_bits.specs.BitLists.{bits};

use p4x_bits::{Bits, OutOfMemory};
use std::marker::Model;
use v1_core::joined;

/// Up to 128 bits that are to be put behind others: numbers of few bits gather here, so that they are put there together.
#[derive(Drop)]
pub struct BitBuffer {
    width: u8,
    number: u128,
}

impl Model for BitBuffer {
    ghost use Rattle.std.specs.Prelude.{Bool, List};
    ghost use Rattle.p4x_bits.specs.BitLists.{bits};
    ghost use Rattle.v1_core.specs.Scalars.{IsWord};

    ghost Value = { List Bool };

    ghost view = { λ b. bits b.width b.number };

    ghost invariant = { λ b. IsWord b.width b.number };
}

impl BitBuffer {
    /// No bits.
    #[tactic(auto, using(crate::proofs::Joining::no_bits))]
    pub fn none() -> Self
        ensures { result ≡ [] }
    {
        BitBuffer {
            width: 0,
            number: 0,
        }
    }

    /// One number more, behind all of these; what has no room goes behind the others. The one error is want of memory.
    #[tactic(auto, using(crate::proofs::Joining::with_room))]
    pub fn push(&mut self, others: &mut Bits, width: u8, number: u128) -> Result<(), OutOfMemory>
        requires narrow { width ≤ 128 }
        requires fits { number < 2 ^ width }
        ensures { OnOk result (others.new ++ self.new ≡ (others.old ++ self.old) ++ bits width number) }
    {
        if width <= 128 - self.width {
            self.number = joined(self.width, self.number, width, number);
            self.width += width;
            return Ok(());
        }
        others.push_number(self.width, self.number)?;
        self.width = width;
        self.number = number;
        Ok(())
    }

    /// Puts these bits behind others. The one error is want of memory.
    #[tactic(auto, using(crate::proofs::Joining::none_behind))]
    pub fn flush(&self, others: &mut Bits) -> Result<(), OutOfMemory>
        ensures { OnOk result (others.new ≡ others.old ++ self.now) }
    {
        if self.width > 0 {
            others.push_number(self.width, self.number)?;
        }
        Ok(())
    }
}
