// What becomes of packets over the small runners. The first octet of a packet tells what its passes do (`specs/Steps.antt`), and what is
// sent has its kind at its end.
ghost use Rattle.std.specs.Prelude.{◌≡◌, IfOk};

use crate::bare::Bare;
use crate::counting::Counting;
use crate::law::sent_by_counting;
use crate::lines::{cut, number_of, octets_of};
use fabric::{Arrival, Fate, Total, Watched, is_bound, serve, serve_all, serve_into};
use p4x_bits::{Octets, OutOfMemory};
use state_store::{Session, are_sessions};
use std::alloc::Global;

/// Session 7 leads to port 5 and session 8 to port 6.
const SESSIONS: &[Session] = &[
    Session { number: 7, port: 5 },
    Session { number: 8, port: 6 },
];

/// A packet of these octets, which comes in on port 2.
fn arrival(alloc: Global, octets: &[u8]) -> Result<Arrival, OutOfMemory>
    ensures { IfOk result (λ came. came.port ≡ 2) }
{
    Ok(Arrival {
        octets: Octets::from_slice(alloc, octets)?,
        port: 2,
        seconds: 0,
        fraction: 0,
    })
}

/// What stands behind the port, the length and the octets of a packet that these octets begin with.
fn behind<'a>(port: u16, octets: &[u8], wanted: &'a [u8]) -> Option<&'a [u8]> {
    let [first, size, more @ ..] = wanted else {
        return None;
    };
    if u16::from(*first) != port
        || usize::from(*size) != octets.len()
        || more.len() < octets.len()
    {
        return None;
    }
    let (same, left) = more.split_at(octets.len());
    if same == octets { Some(left) } else { None }
}

/// Whether this was sent, each packet told by its port, its length and its octets.
fn is_fate(fate: &Fate, wanted: &[u8], cut: u64) -> bool {
    let mut left = wanted;
    for out in fate.sent.as_slice() {
        match behind(out.port, out.octets.as_slice(), left) {
            Some(more) => left = more,
            None => return false,
        }
    }
    left.is_empty() && fate.cut == cut
}

/// The same, each packet told behind the number of its arrival.
fn is_total(total: &Total, wanted: &[u8], cut: u64) -> bool {
    let mut left = wanted;
    for out in total.sent.as_slice() {
        let Some((number, more)) = left.split_first() else {
            return false;
        };
        match behind(out.port, out.octets.as_slice(), more) {
            Some(more) if u64::from(*number) == out.arrival => left = more,
            _ => return false,
        }
    }
    left.is_empty() && total.cut == cut
}

/// What a packet gives under a bound, where its fate is put in the place of another one.
fn fate_of(alloc: Global, octets: &[u8], bound: u32) -> Result<Option<Fate>, OutOfMemory> {
    if !is_bound(bound) || !matches!(are_sessions(alloc, SESSIONS), Ok(true)) {
        return Ok(None);
    }
    let mut came = arrival(alloc, octets)?;
    let mut passes = Bare::new(alloc);
    let mut fate = serve(alloc, &mut passes, SESSIONS, &came, bound)?;
    serve_into(alloc, &mut passes, SESSIONS, &mut came, bound, &mut fate)?;
    Ok(Some(fate))
}

/// Whether a packet of these octets sends these packets under a bound, and so many items are cut.
fn is_sent(alloc: Global, octets: &[u8], bound: u32, wanted: &[u8], cut: u64) -> bool {
    match &fate_of(alloc, octets, bound) {
        Ok(Some(fate)) => is_fate(fate, wanted, cut),
        _ => false,
    }
}

/// What packets of one octet each give, one behind the other.
fn total_of(alloc: Global, octets: &[u8], bound: u32) -> Result<Option<Total>, OutOfMemory> {
    if !is_bound(bound) || !matches!(are_sessions(alloc, SESSIONS), Ok(true)) {
        return Ok(None);
    }
    match octets {
        [first, second] => {
            let arrivals = [arrival(alloc, &[*first])?, arrival(alloc, &[*second])?];
            Ok(Some(sent_by_counting(alloc, SESSIONS, &arrivals, bound)?))
        }
        _ => Ok(None),
    }
}

/// Whether two packets of one octet each send these packets under a bound, and so many items are cut.
fn are_sent(alloc: Global, octets: &[u8], bound: u32, wanted: &[u8], cut: u64) -> bool {
    match &total_of(alloc, octets, bound) {
        Ok(Some(total)) => is_total(total, wanted, cut),
        _ => false,
    }
}

/// The same of cells in hexadecimal digits: of one packet (`F`), or of two of one octet each.
pub fn are_fates(alloc: Global, asked: &[u8], octets: &[u8], bound: &[u8], row: &[u8]) -> bool {
    let (wanted, items) = cut(row, b'|');
    let bound = (number_of(bound) % 100_000) as u32;
    let items = number_of(items);
    match (&octets_of(alloc, octets), &octets_of(alloc, wanted)) {
        (Ok(octets), Ok(wanted)) => match asked {
            [b'F'] => is_sent(alloc, octets, bound, wanted, items),
            _ => are_sent(alloc, octets, bound, wanted, items),
        },
        _ => false,
    }
}

/// The packets that the runner that counts cuts of two arrivals, its count behind them, and whether its last event is of this action,
/// or there is none.
fn counts(
    alloc: Global,
    passes: &mut Counting,
    bound: u32,
    last: Option<u32>,
) -> Result<Option<(u64, u64, bool)>, OutOfMemory> {
    if !is_bound(bound) || !matches!(are_sessions(alloc, SESSIONS), Ok(true)) {
        return Ok(None);
    }
    let arrivals = [arrival(alloc, &[2])?, arrival(alloc, &[2])?];
    let total = serve_all(alloc, passes, SESSIONS, &arrivals, bound)?;
    let same = match (passes.events(), last) {
        ([event], Some(action)) => event.action == Some(action),
        ([], None) => true,
        _ => false,
    };
    Ok(Some((total.cut, passes.count, same)))
}

/// Whether the count goes on from one packet to the next, and the events are those of the last call alone.
pub fn keep_their_state(alloc: Global) -> bool {
    let mut passes = Counting::new(alloc);
    counts(alloc, &mut passes, 3, None) == Ok(Some((0, 6, true)))
        && counts(alloc, &mut passes, 1, Some(2)) == Ok(Some((2, 8, true)))
}
