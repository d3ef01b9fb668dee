// What runs the blocks of a program.
ghost use Rattle.std.specs.Prelude.{◌≡◌, ◌≤◌, [], length, drop, IfOk, OnOk};
ghost use Rattle.state_store.specs.State.{Contents};
ghost use Rattle.v1_core.specs.Surroundings.{Setting};
ghost use Rattle.v1_core.specs.Parsing.{parse16};
ghost use Rattle.v1_core.specs.Blocks.{control16};
ghost use Rattle.v1_core.specs.PackedFrames.{IsFrameOf};
ghost use Rattle.v1_passes.specs.Moments.{moment_at};

use p4x_bits::{Octets, OutOfMemory};
use state_store::Store;
use v1_core::{Block, Frame, ParserError};
use v1_packets::Packets;

/// The end of parsing.
#[derive(Clone, Copy, Drop)]
pub struct ParseEnd {
    /// The error that stopped the parser; `NoError` where none did.
    pub error: ParserError,
    /// How many octets were parsed.
    pub at: usize,
}

/// What runs the blocks of a program on the frame of a packet, with what stands in its tables, and with its counters, registers
/// and meters as the packets so far left them. After want of memory it isn't used again.
pub trait Blocks<'r> {
    // The program, and what stands in its tables. They stay.
    ghost setting: { Self → Setting };

    // Its counters, registers and meters.
    ghost store: { Self → Contents };

    /// The packets of the program.
    fn packets(&self) -> &'r Packets<'r>
        ensures { result.now ≡ (setting self.now).syntax };

    /// The counters, registers and meters.
    fn store(&self) -> &Store
        ensures { result.now ≡ store self.now };

    /// The counters, registers and meters by themselves. It takes no memory.
    fn into_store(self) -> Store
        ensures { result ≡ store self };

    /// The parser on these octets. The count of work goes up by the statements and transitions that began, modulo 2^64.
    fn parse(
        &mut self,
        frame: &mut Frame<'r>,
        octets: &[u8],
        work: &mut u64,
    ) -> Result<ParseEnd, OutOfMemory>
        requires { IsFrameOf (setting self.old).syntax frame.old }
        ensures setting { OnOk result (setting self.new ≡ setting self.old) }
        ensures frame { OnOk result (IsFrameOf (setting self.new).syntax frame.new) }
        ensures within { IfOk result (λ end. end.at ≤ length octets.now) }
        ensures parses { IfOk result (λ end. parse16 (setting self.old) (moment_at (setting self.old).syntax frame.old (store self.old) octets.now [] work.old) ≡ record { error = end.error; moment = moment_at (setting self.new).syntax frame.new (store self.new) (drop end.at octets.now) [] work.new }) };

    /// A block that is a control, where these octets weren't parsed. The octets that it emits are put behind those that were
    /// emitted. The count of work goes up as that of `parse`.
    fn control(
        &mut self,
        block: Block,
        frame: &mut Frame<'r>,
        unparsed: &[u8],
        emitted: &mut Octets,
        work: &mut u64,
    ) -> Result<(), OutOfMemory>
        requires { IsFrameOf (setting self.old).syntax frame.old }
        ensures setting { OnOk result (setting self.new ≡ setting self.old) }
        ensures frame { OnOk result (IsFrameOf (setting self.new).syntax frame.new) }
        ensures runs { OnOk result (control16 (setting self.old) block (moment_at (setting self.old).syntax frame.old (store self.old) unparsed.now emitted.old work.old) ≡ moment_at (setting self.new).syntax frame.new (store self.new) unparsed.now emitted.new work.new) };
}
