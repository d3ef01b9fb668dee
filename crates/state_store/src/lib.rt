// Counters, registers and meters: what a run keeps from one packet to the next.
#![tactic(auto)]

mod cells;
mod ports;
mod shapes;
mod state;

pub use ports::{
    DROP_PORT, GREATEST_PORT, GREATEST_SESSION, Session, are_sessions, is_drop, is_port,
    is_session, is_session_number,
};
pub use shapes::{Kind, Shape};
pub use state::{OutOfMemory, Store};
