// The states of a program.
ghost use Rattle.std.specs.Prelude.{◌≡◌, IfOk};
ghost use Rattle.state_store.specs.Ports.{IsPort};
ghost use Rattle.p414_sem.specs.State.{new_state};
ghost use Rattle.p414_layout.specs.Shapes.{layout_of};
ghost use Rattle.p414_state.specs.Packets.{Packet};

use crate::state::State14;
use p4x_bits::{Octets, OutOfMemory};
use p414_body_check::Program14;
use p414_layout::{Layout, layout_of};
use p414_names::names_of;
use std::alloc::Global;

/// What the instances of a program are made of, in the order of declaration. The one error is want of memory.
#[tactic(auto, using(crate::proofs::Programs::widths_good, crate::proofs::Programs::names_once))]
pub fn layout14(alloc: Global, program: &Program14) -> Result<Layout, OutOfMemory>
    ensures { IfOk result (λ layout. layout ≡ layout_of program.now.decls) }
{
    let decls = program.syntax().decls.as_slice();
    match names_of(alloc, decls)? {
        Some(names) => layout_of(alloc, &names),
        None => unreachable!(),
    }
}

impl State14 {
    /// The state of an item of a program: all octets are unparsed, all headers are invalid, all stacks are at place 0, the
    /// program's metadata is 0, and no request stands. The item came in on a port up to 510, and is of a kind as
    /// `standard_metadata.instance_type` tells. The one error is want of memory. It makes the layout of the program anew: for
    /// many items `layout14` makes it once, and `of_layout` the states.
    pub fn new(
        alloc: Global,
        program: &Program14,
        octets: &Octets,
        port: u16,
        kind: u32,
    ) -> Result<State14, OutOfMemory>
        requires { IsPort port }
        ensures { IfOk result (λ state. state ≡ record { layout = layout_of program.now.decls; state = new_state program.now.decls octets.now port kind }) }
    {
        let layout = layout14(alloc, program)?;
        State14::of_layout(alloc, &layout, octets.as_slice(), port, kind)
    }
}
