// Why a program isn't taken.
ghost use Rattle.std.specs.Prelude.{◌≡◌};
ghost use Rattle.p416_syntax.specs.Breaks.{rule_fault};
ghost use Rattle.p416_types.specs.declared.fault.Check16.TheVariants.{Memory, Refused};

use p4x_bits::OutOfMemory;
use p4x_fault::Fault;
use p416_syntax::ProgramRule;
use thiserror::Error;

/// Why a program isn't taken.
#[derive(Debug, PartialEq, Eq, Drop, Error)]
pub enum Check16 {
    /// Memory ran out.
    #[error("out of memory")]
    Memory,
    /// The program breaks one of the rules T1 to T12, and no lower one. The fault has no place.
    #[error("the program breaks a rule")]
    Refused(Fault),
}

impl From<OutOfMemory> for Check16 {
    ghost from_gives = { λ _ fault. fault ≡ Memory };

    fn from(_: OutOfMemory) -> Check16 {
        Check16::Memory
    }
}

/// The refusal that tells of a rule.
pub(crate) fn refusal(rule: ProgramRule) -> Check16
    ensures { result ≡ Refused (rule_fault rule) }
{
    Check16::Refused(rule.fault())
}
