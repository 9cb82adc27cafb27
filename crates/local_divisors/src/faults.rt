//! Why there is no list.
use star_free_theory::SfNode;
use std::alloc::{AllocError, AllocFailed};
use syn_words::Memory;
use thiserror::Error;

/// Why the construction gives no list.
#[derive(Clone, Copy, Debug, PartialEq, Eq, Error)]
pub enum SfFault {
    /// An instance would be treated too deep.
    #[error("the construction is too deep")]
    Depth,
    /// A node would be put behind a list that has as many as the limit.
    #[error("too many nodes")]
    Nodes,
    /// The system gave no memory.
    #[error("out of memory")]
    Memory,
}

impl From<Memory> for SfFault {
    ghost use Rattle.std.specs.Prelude.{◌≡◌};
    ghost use Rattle.local_divisors.specs.declared.faults.SfFault.TheVariants as fault;

    ghost from_gives = { λ _ e. e ≡ fault.Memory };

    fn from(_fault: Memory) -> SfFault {
        SfFault::Memory
    }
}

impl From<AllocError> for SfFault {
    ghost use Rattle.std.specs.Prelude.{◌≡◌};
    ghost use Rattle.local_divisors.specs.declared.faults.SfFault.TheVariants as fault;

    ghost from_gives = { λ _ e. e ≡ fault.Memory };

    fn from(_fault: AllocError) -> SfFault {
        SfFault::Memory
    }
}

impl From<AllocFailed<SfNode>> for SfFault {
    ghost use Rattle.std.specs.Prelude.{◌≡◌};
    ghost use Rattle.local_divisors.specs.declared.faults.SfFault.TheVariants as fault;

    ghost from_gives = { λ _ e. e ≡ fault.Memory };

    fn from(_fault: AllocFailed<SfNode>) -> SfFault {
        SfFault::Memory
    }
}
