// A count of faults for each name: only those of the names that a call reads or writes are its own.
use crate::named::{Counts, NO_FAULTS, NamedDesk};
use crate::setting::{CARRY, desk, ends_so, has_carried};
use p4x_io::Desk;
use std::alloc::Global;
use std::process::Abort;
use std::test::Fail;

/// The common files with a count for each name.
fn named(alloc: Global) -> Result<NamedDesk, Fail> {
    Ok(NamedDesk {
        desk: desk(alloc)?,
        reads: NO_FAULTS,
        writes: NO_FAULTS,
    })
}

/// Whether a read of the entries that fails is counted there alone.
fn counts_its_own(alloc: Global) -> Result<bool, Fail> {
    let mut desk = named(alloc)?;
    desk.desk.fail_read("e", 1)?;
    let ended = ends_so(alloc, CARRY, &mut desk, 100, 1, b"fault\n")?;
    let one = Counts {
        entries: 1,
        ..NO_FAULTS
    };
    Ok(ended && desk.reads == one && desk.writes == NO_FAULTS)
}

/// Whether an earlier fault of another name stops nothing.
fn lets_others_be(alloc: Global) -> Result<bool, Fail> {
    let mut desk = named(alloc)?;
    let failed = desk.read("none", 0, &mut [0; 1]).is_err();
    let ended = ends_so(alloc, CARRY, &mut desk, 100, 0, b"carried 1 1 0\n")?;
    Ok(failed && ended && has_carried(&desk.desk) && desk.reads.others == 1)
}

#[test]
fn a_fault_is_counted_at_its_name_alone(rt: HostRuntime) -> Result<(), Fail> {
    assert!(&rt; counts_its_own(rt.alloc())?, "its own");
    assert!(&rt; lets_others_be(rt.alloc())?, "another");
    Ok(())
}
