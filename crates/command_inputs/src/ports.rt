// The ports file.
ghost use Rattle.std.specs.Prelude.{◌≡◌, [], ℕ, List, Option, Some, Ok, Err, IfOk, IfErr, MatchResult, All, option_map, option_to_list};
ghost use Rattle.state_store.specs.Ports.{IsPort};
ghost use Rattle.p4x_io.specs.Desk.{Rose, Moves};
ghost use Rattle.file_work.specs.Works.{Blames, ReadsRose, Tells};
ghost use Rattle.file_work.specs.Phases.{Loosely};
ghost use Rattle.command_inputs.specs.PortsFile.{ports_in, ports_end, IsPortsStop};

use file_work::{Limited, Stop};
use p4x_bits::Numbers;
use p4x_io::{Desk, ReadFault, read_file};
use pcap_io::PortFault;
use std::alloc::Global;

/// The most octets of a ports file.
const PORTS_LIMIT: usize = 4194304;

/// The ports that packets come in on, the first packet's first, where a file of them is named; else none. Each is one that packets come in
/// on.
///
/// # Errors
/// The file's limit, the rule P1 or P2 that it breaks first, a fault of it, or want of memory.
pub fn read_ports<D: Desk>(alloc: Global, desk: &mut D, name: Option<&str>) -> Result<Numbers, Stop>
    ensures moves { Moves [] (D.view desk.old) (D.view desk.new) }
    ensures gives { (files : List ℕ → Option (List ℕ)) → Tells (option_to_list (option_map (λ word. word.now) name.entry)) (D.view desk.old) files
        → MatchResult result (λ ports. ports_end files (option_map (λ word. word.now) name.entry) ≡ Ok ports) (λ e. Loosely e (ports_end files (option_map (λ word. word.now) name.entry) ≡ Err e)) }
    ensures fits { IfOk result (λ ports. All IsPort ports) }
    ensures only { IfErr result (λ e. IsPortsStop e) }
    ensures cause { Blames result (ReadsRose (option_to_list (option_map (λ word. word.now) name.entry)) (D.view desk.old) (D.view desk.new)) }
{
    match name {
        Some(name) => read_ports_file(alloc, desk, name),
        None => Ok(Numbers::new(alloc)),
    }
}

// The ports of a file.
fn read_ports_file<D: Desk>(alloc: Global, desk: &mut D, name: &str) -> Result<Numbers, Stop>
    ensures moves { Moves [] (D.view desk.old) (D.view desk.new) }
    ensures gives { (file : Option (List ℕ)) → (D.view desk.old).told name.now ≡ Some file
        → MatchResult result (λ ports. ports_in file ≡ Ok ports) (λ e. Loosely e (ports_in file ≡ Err e)) }
    ensures fits { IfOk result (λ ports. All IsPort ports) }
    ensures only { IfErr result (λ e. IsPortsStop e) }
    ensures cause { Blames result (Rose ((D.view desk.old).reads name.now) ((D.view desk.new).reads name.now)) }
{
    let text = match read_file(alloc, desk, name, PORTS_LIMIT) {
        Ok(text) => text,
        Err(ReadFault::Limit) => return Err(Stop::Limit(Limited::Ports)),
        Err(ReadFault::Failed) => return Err(Stop::Fault),
        Err(ReadFault::Memory) => return Err(Stop::Memory),
    };
    match pcap_io::read_ports(alloc, &text) {
        Ok(ports) => Ok(ports.list),
        Err(PortFault::Refused(fault)) => Err(Stop::Refused(fault)),
        Err(PortFault::Memory) => Err(Stop::Memory),
    }
}
