// What both runners do with an item.
ghost use Rattle.std.specs.Prelude.{◌≡◌, IfOk};
ghost use Rattle.base_examples.specs.Steps.{code_of, ingress_session, is_resubmitted, ingress_end, is_cloned, is_recirculated, egress_end, applied};

use fabric::{EgressEnd, EgressNext, Event, IngressEnd, IngressNext, Item};
use p4x_bits::{Octets, OutOfMemory};
use std::alloc::Global;

/// The first octet, 0 where there is none.
fn code_of(octets: &[u8]) -> u8
    ensures { result ≡ code_of octets.now }
{
    match octets {
        [] => 0,
        [octet, ..] => *octet,
    }
}

fn ingress_session(code: u8, kept: u8) -> Option<u32>
    ensures { result ≡ ingress_session code kept }
{
    if code == 1 {
        Some(7)
    } else if code == 5 {
        Some(9)
    } else if (code == 6 || code == 7) && kept == 0 {
        Some(7)
    } else {
        None
    }
}

fn is_resubmitted(code: u8, kept: u8) -> bool
    ensures { result ≡ is_resubmitted code kept }
{
    (code == 2 && kept < 2) || (code == 6 && kept == 0)
}

fn is_cloned(code: u8, instance: u32) -> bool
    ensures { result ≡ is_cloned code instance }
{
    (code == 4 || code == 7) && instance == 0
}

fn is_recirculated(code: u8, instance: u32) -> bool
    ensures { result ≡ is_recirculated code instance }
{
    code == 3 || (code == 7 && instance == 0)
}

/// How ingress of an item ends.
pub fn ingress_end(alloc: Global, item: &Item<u8>) -> Result<IngressEnd<u8, Octets>, OutOfMemory>
    ensures { IfOk result (λ ended. ended ≡ ingress_end item.now) }
{
    let code = code_of(item.octets.as_slice());
    let clone = match ingress_session(code, item.kept) {
        Some(session) => Some((session, item.kept)),
        None => None,
    };
    if is_resubmitted(code, item.kept) {
        let next = IngressNext::Resubmit(item.kept.wrapping_add(1));
        return Ok(IngressEnd { clone, next });
    }
    if code == 1 {
        let next = IngressNext::Drop;
        return Ok(IngressEnd { clone, next });
    }
    let held = Octets::from_slice(alloc, item.octets.as_slice())?;
    let next = IngressNext::Go(3, held);
    Ok(IngressEnd { clone, next })
}

/// How egress of what is held ends.
pub fn egress_end(
    alloc: Global,
    held: Octets,
    instance: u32,
) -> Result<EgressEnd<u8, Octets>, OutOfMemory>
    ensures { IfOk result (λ ended. ended ≡ egress_end held instance) }
{
    let code = code_of(held.as_slice());
    let clone = if is_cloned(code, instance) {
        Some((8, Octets::from_slice(alloc, held.as_slice())?))
    } else {
        None
    };
    if is_recirculated(code, instance) {
        let end = EgressNext::Recirculate(held, 1);
        return Ok(EgressEnd { clone, end });
    }
    let mut octets = held;
    octets.push((instance % 256) as u8)?;
    let end = EgressNext::Send(octets);
    Ok(EgressEnd { clone, end })
}

/// The event of ingress.
pub fn applied(octets: &[u8]) -> Event
    ensures { result ≡ applied octets.now }
{
    Event {
        table: 0,
        entry: None,
        action: Some(code_of(octets) as u32),
    }
}
