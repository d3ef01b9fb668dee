// What crosses threads, which bounds there are, and the ways in which a pass can end.
use fabric::{
    Arrival, EgressEnd, EgressNext, Event, Fate, IngressEnd, IngressNext, Item, MOST_PASSES,
    RequestKind, RunResult, is_bound,
};
use match_core::{Entries, Signature, Table, TableFill};
use p4x_bits::{Bits, Numbers, Octets, Rows, Text};
use state_store::Store;
use std::alloc::Global;

fn cross_threads<T: Send + Sync, U: Send + Sync>() {}

fn rows_cross_threads<T: Drop + Send + Sync>() {
    cross_threads::<Rows<T>, T>();
}

#[test]
fn lists_stores_tables_arrivals_and_results_cross_threads(_rt: HostRuntime) {
    cross_threads::<Octets, Numbers>();
    cross_threads::<Text, Bits>();
    cross_threads::<Store, Signature>();
    cross_threads::<Entries, TableFill>();
    cross_threads::<Table<'static>, Arrival>();
    cross_threads::<RunResult, Fate>();
    rows_cross_threads::<Octets>();
    rows_cross_threads::<Arrival>();
}

/// Whether a bound is from 1 to 65,536.
pub fn are_bounds() -> bool {
    MOST_PASSES == 65_536
        && !is_bound(0)
        && is_bound(1)
        && is_bound(256)
        && is_bound(65_536)
        && !is_bound(65_537)
}

/// Whether passes end in each way, at one kind of preserved set and of held value.
pub fn passes_end(alloc: Global) -> bool {
    let item = Item {
        octets: Octets::new(alloc),
        port: 7,
        instance: 6,
        kept: 1u8,
    };
    let ended = IngressEnd {
        clone: Some((7, item.kept)),
        next: IngressNext::Go(item.port, 2u16),
    };
    let left: EgressEnd<u8, u16> = EgressEnd {
        clone: None,
        end: EgressNext::Send(item.octets),
    };
    let miss = Event {
        table: 0,
        entry: None,
        action: Some(1),
    };
    matches!(&ended.next, IngressNext::Go(7, 2))
        && matches!(&left.end, EgressNext::Send(_))
        && miss == miss
        && RequestKind::CloneI2E != RequestKind::CloneE2E
}
