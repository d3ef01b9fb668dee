// The controls of a program.
ghost use Rattle.std.specs.Prelude.{◌≡◌, slice_index_or, [], IfOk};
ghost use Rattle.p414_syntax.specs.ControlExpansion.{control_number};
ghost use Rattle.p414_sem.specs.Signatures.{signature14};
ghost use Rattle.p414_control_run.specs.internal.Bodies.{AreBodies};

use match_core::Signature;
use name_numbers::narrow;
use p4x_bits::OutOfMemory;
use p414_control_check::Controls;
use p414_names::names_of;
use p414_ready_controls::{ReadyControls, ready_controls};
use p414_syntax::Decl;
use std::alloc::Global;

const INGRESS: &[u8] = b"ingress";

const EGRESS: &[u8] = b"egress";

/// The controls of a program, and which of them are its pipelines.
#[derive(Drop)]
pub struct Bodies {
    /// The controls, in the order of declaration.
    pub controls: ReadyControls,
    /// The number of the control `ingress`.
    pub ingress: Option<u32>,
    /// The number of the control `egress`.
    pub egress: Option<u32>,
}

/// The number of the control with a name.
fn control_number(controls: &Controls<'_, '_>, name: &[u8]) -> Result<Option<u32>, OutOfMemory>
    ensures { IfOk result (λ number. number ≡ control_number controls.now name.now) }
{
    match controls.number(name) {
        Some(number) => Ok(Some(narrow(number)?)),
        None => Ok(None),
    }
}

/// The controls of a program with this signature. The one error is want of memory.
pub fn bodies_of(
    alloc: Global,
    decls: &[Decl],
    signature: &Signature,
) -> Result<Bodies, OutOfMemory>
    requires { signature.now ≡ signature14 decls.now }
    ensures { IfOk result (AreBodies decls.now) }
{
    match names_of(alloc, decls)? {
        Some(names) => {
            let known = Controls::of(alloc, &names)?;
            let ingress = control_number(&known, INGRESS)?;
            let egress = control_number(&known, EGRESS)?;
            let controls = ready_controls(alloc, &names, signature)?;
            Ok(Bodies {
                controls,
                ingress,
                egress,
            })
        }
        // No name is declared twice in a program that breaks no rule.
        None => Err(OutOfMemory),
    }
}
