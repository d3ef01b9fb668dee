// Why declarations aren't taken.
ghost use Rattle.std.specs.Prelude.{◌≡◌};
ghost use Rattle.p414_syntax.specs.Breaks.{rule_fault};
ghost use Rattle.p414_decl_check.specs.declared.fault.DeclFault.TheVariants.{Memory, Refused};

use p4x_bits::OutOfMemory;
use p4x_fault::Fault;
use p414_syntax::ProgramRule;
use thiserror::Error;

/// Why the declarations of a program aren't taken.
#[derive(Debug, PartialEq, Eq, Drop, Error)]
pub enum DeclFault {
    /// Memory ran out.
    #[error("out of memory")]
    Memory,
    /// The declarations break one of the rules C1 to C8, and no lower one. The fault has no place.
    #[error("the declarations break a rule")]
    Refused(Fault),
}

impl From<OutOfMemory> for DeclFault {
    ghost from_gives = { λ _ fault. fault ≡ Memory };

    fn from(_: OutOfMemory) -> DeclFault {
        DeclFault::Memory
    }
}

/// The refusal that tells of a rule.
pub fn refusal(rule: ProgramRule) -> DeclFault
    ensures { result ≡ Refused (rule_fault rule) }
{
    DeclFault::Refused(rule.fault())
}
