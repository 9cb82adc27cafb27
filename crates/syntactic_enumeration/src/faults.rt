//! Why there is no syntactic monoid.

use froidure_pin::EnumFault;
use syn_words::Memory;
use thiserror::Error;

/// Why there is no syntactic monoid.
#[derive(Clone, Copy, Debug, PartialEq, Eq, Error)]
pub enum SynFault {
    /// There are more elements than the limit.
    #[error("too many elements")]
    ElementLimit,
    /// The system gave no memory.
    #[error("out of memory")]
    Memory,
}

impl From<Memory> for SynFault {
    ghost use Rattle.std.specs.Prelude.{◌≡◌};
    ghost use Rattle.syntactic_enumeration.specs.declared.faults.SynFault.TheVariants as fault;

    ghost from_gives = { λ _ e. e ≡ fault.Memory };

    fn from(_fault: Memory) -> SynFault {
        SynFault::Memory
    }
}

impl From<EnumFault> for SynFault {
    ghost use Rattle.syntactic_enumeration.specs.Faults.{IsRaised};

    ghost from_gives = { IsRaised };

    fn from(fault: EnumFault) -> SynFault {
        match fault {
            EnumFault::ElementLimit => SynFault::ElementLimit,
            EnumFault::Memory => SynFault::Memory,
        }
    }
}
