// Why a program isn't taken.
ghost use Rattle.std.specs.Prelude.{◌≡◌};
ghost use Rattle.p414_syntax.specs.Breaks.{rule_fault};
ghost use Rattle.p414_body_check.specs.declared.fault.Check14.TheVariants.{Memory, Refused};

use p4x_bits::OutOfMemory;
use p4x_fault::Fault;
use p414_syntax::ProgramRule;
use thiserror::Error;

/// Why a program isn't taken.
#[derive(Debug, PartialEq, Eq, Drop, Error)]
pub enum Check14 {
    /// Memory ran out.
    #[error("out of memory")]
    Memory,
    /// The program breaks one of the rules C1 to C28, and no lower one. The fault has no place.
    #[error("the program breaks a rule")]
    Refused(Fault),
}

impl From<OutOfMemory> for Check14 {
    ghost from_gives = { λ _ fault. fault ≡ Memory };

    fn from(_: OutOfMemory) -> Check14 {
        Check14::Memory
    }
}

/// The refusal that tells of a rule.
pub fn refusal(rule: ProgramRule) -> Check14
    ensures { result ≡ Refused (rule_fault rule) }
{
    Check14::Refused(rule.fault())
}
