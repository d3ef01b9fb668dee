//! That the runs of a P4_16 program over parts of a list of packets come to its run over the whole list, where the program has no
//! register and no meter.
#![tactic(auto)]

ghost use Rattle.shard_laws.specs.Laws.{ArrivalsAreNumbered, ShardsJoin, ShardsLeave};

/// The runs over two lists of arrivals, joined, are the run over both. It does nothing.
pub fn shards_join()
    ensures { ShardsJoin }
{}

/// A run leaves a store of the program's objects, and a count of work of 64 bits. It does nothing.
pub fn shards_leave()
    ensures { ShardsLeave }
{}

/// What is sent has the numbers of arrivals. It does nothing.
pub fn arrivals_are_numbered()
    ensures { ArrivalsAreNumbered }
{}
