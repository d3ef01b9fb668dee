// What the plain program that follows the meaning of P4_14 sends.
ghost use Rattle.std.specs.Prelude.{◌≤◌};
ghost use Rattle.state_store.specs.Ports.{drop_port};
ghost use Rattle.command_examples.specs.Plain.{AreWidths};

use crate::plain::run14;
use p4x_bits::Octets;
use std::alloc::Global;
use std::process::Abort;
use std::test::Fail;

/// The octets of the longest packet.
const OCTETS: &[u8] = &[
    0x12, 0x34, 0x56, 0x78, 0x9a, 0xbc, 0xde, 0xf0, 1, 2, 3, 4, 5, 6, 7, 8, 9, 10,
];

/// Fronts of the longest packet.
fn packets(alloc: Global, sizes: [usize; 3]) -> Result<Vec<Octets>, Fail> {
    let mut list = Vec::new(alloc);
    for size in sizes {
        let front = OCTETS.split_at(size.min(OCTETS.len())).0;
        list.push(Octets::from_slice(alloc, front)?)?;
    }
    Ok(list)
}

/// Of three packets, of which the second is too short for the header, whether the first and the third are sent as they came, on this port; or
/// none where the port is the drop port.
fn sends_so(alloc: Global, widths: &[u8], port: u16, sizes: [usize; 3]) -> Result<bool, Fail>
    requires widths { AreWidths widths.now }
    requires port { port ≤ drop_port }
{
    let packets = packets(alloc, sizes)?;
    let sent = run14(alloc, widths, port, &packets)?;
    Ok(match sent.as_slice() {
        [first, third] => {
            let on_port = first.port == port && third.port == port;
            let in_order = first.arrival == 0 && third.arrival == 2;
            let [longest, _, last] = sizes;
            let whole = first.octets.as_slice().len() == longest
                && third.octets.as_slice().len() == last;
            on_port
                && in_order
                && whole
                && OCTETS.starts_with(first.octets.as_slice())
                && OCTETS.starts_with(third.octets.as_slice())
        }
        [] => port == 511,
        _ => false,
    })
}

#[test]
fn the_plain_program_sends_what_the_rows_show(rt: HostRuntime) -> Result<(), Fail> {
    let alloc = rt.alloc();
    assert!(&rt;
        sends_so(alloc, &[48, 48, 16], 3, [18, 13, 14])?,
        "a header of 14 octets"
    );
    assert!(&rt; sends_so(alloc, &[4, 12], 0, [18, 1, 2])?, "the first port");
    assert!(&rt;
        sends_so(alloc, &[4, 12], 510, [18, 1, 2])?,
        "the last port"
    );
    assert!(&rt;
        sends_so(alloc, &[4, 12], 511, [18, 1, 2])?,
        "the drop port"
    );
    Ok(())
}
