//! Captures and lists of ports, as they are read and written.
//!
//! A capture is a file of recorded packets in the libpcap file format, pcap-savefile(5), in either order
//! of octets, with microseconds or nanoseconds. It is read whole by `read_capture`, or in pieces by
//! `CaptureReader`, which holds the records that weren't taken, or by `RecordReader`, which makes each as it is asked for it. A refusal names the first rule that the file breaks:
//!
//! - K1: it has fewer than 24 octets.
//! - K2: it has another magic number.
//! - K3: it has another version than 2.4.
//! - K4: it ends inside a record.
//! - K5: a record's captured length is over `LONGEST_RECORD`.
//!
//! A list of ports is read by `read_ports`, which refuses the first bad line: with P1 where it is no number,
//! with P2 where the number is over `state_store::GREATEST_PORT`. `arrive` gives a record the next port.
#![tactic(auto)]

mod arrivals;
mod capture;
mod drawn;
mod faults;
mod head;
mod headers;
mod order;
mod ports;
mod progress;
mod reader;
mod records;

pub use arrivals::arrive;
pub use capture::{Capture, read_capture};
pub use drawn::RecordReader;
pub use faults::{CaptureFault, PortFault};
pub use headers::{file_header, record_header};
pub use ports::{Ports, read_ports};
pub use reader::CaptureReader;
pub use records::{LONGEST_RECORD, Record};
