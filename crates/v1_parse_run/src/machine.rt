// What a parser works with.
use p4x_bits::OutOfMemory;
use std::alloc::Global;
use v1_block_run::Task;
use v1_ready_selects::SelectKeys;
use v1_statement_run::Run;
use work_stack::Stack;

/// What a parser works with besides. Its room stays from packet to packet.
pub struct ParserRoom {
    /// What is still to be done.
    pub tasks: Stack<Task>,
    /// The keys of a transition.
    pub keys: SelectKeys,
}

impl Drop for ParserRoom {
    fn drop(self) {
        let ParserRoom {
            tasks: _tasks,
            keys: _keys,
        } = self;
    }
}

impl ParserRoom {
    /// Room for so many keys; no statement is still to be done. The one error is want of memory.
    pub fn with_capacity(alloc: Global, keys: usize) -> Result<Self, OutOfMemory> {
        let keys = SelectKeys::with_capacity(alloc, keys)?;
        Ok(ParserRoom {
            tasks: Stack::new(alloc),
            keys,
        })
    }
}

/// What a parser works with on a packet, whose octets, frame and store are lent to it: how many octets are parsed, what a run keeps,
/// and room. It stays from packet to packet.
pub struct ParserMachine<'l> {
    /// How many octets of the packet are parsed.
    pub parsed: usize,
    /// What a run keeps.
    pub run: Run<'l>,
    /// Room.
    pub room: ParserRoom,
}

impl Drop for ParserMachine<'_> {
    fn drop(self) {
        let ParserMachine {
            parsed: _parsed,
            run: _run,
            room: _room,
        } = self;
    }
}
