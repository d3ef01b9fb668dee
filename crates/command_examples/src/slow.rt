// Files that are read octet by octet.
ghost use Rattle.p4x_io.specs.Memory.{memory_view};

use crate::setting::{CAPTURE, CARRY, SENT, TEXT, desk, ends_so, has_carried, holds};
use p4x_io::{Desk, Failed, MemoryDesk};
use std::alloc::Global;
use std::process::Abort;
use std::test::Fail;

/// A desk in memory whose reads give one octet at a time.
#[derive(Drop)]
pub struct SlowDesk {
    pub desk: MemoryDesk,
}

impl Desk for SlowDesk {
    ghost view = { λ d. memory_view d.desk };

    #[tactic(auto, using(crate::proofs::DeskLaws::reads_front))]
    fn read(&mut self, name: &str, place: u64, into: &mut [u8]) -> Result<usize, Failed> {
        let mut octet = [0u8; 1];
        let count = self.desk.read(name, place, &mut octet)?;
        if count > 0 {
            into[0] = octet[0];
        }
        Ok(count)
    }

    fn make(&mut self, name: &str) -> Result<(), Failed> {
        self.desk.make(name)
    }

    fn append(&mut self, name: &str, piece: &[u8]) -> Result<usize, Failed> {
        self.desk.append(name, piece)
    }
}

/// Whether the capture that is read octet by octet gives the same files.
fn carries_slowly(alloc: Global) -> Result<bool, Fail> {
    let mut slow = SlowDesk { desk: desk(alloc)? };
    let ended = ends_so(alloc, CARRY, &mut slow, 100, 0, b"carried 1 1 0\n")?;
    Ok(ended && has_carried(&slow.desk))
}

/// Whether one with octets behind its record does.
fn refuses_slowly(alloc: Global) -> Result<bool, Fail> {
    let mut slow = SlowDesk { desk: desk(alloc)? };
    let mut longer = Vec::from_slice(alloc, CAPTURE)?;
    longer.extend_from_slice(&[0; 7])?;
    slow.desk.put("c", &longer)?;
    let ended = ends_so(alloc, CARRY, &mut slow, 100, 5, b"refused K4\n")?;
    let report = holds(&slow.desk, "r", b"sent 3 14\n");
    Ok(ended && report && holds(&slow.desk, "t", TEXT) && holds(&slow.desk, "s", SENT))
}

#[test]
fn reads_of_one_octet_give_the_same_files(rt: HostRuntime) -> Result<(), Fail> {
    assert!(&rt; carries_slowly(rt.alloc())?, "carried");
    assert!(&rt; refuses_slowly(rt.alloc())?, "refused");
    Ok(())
}
