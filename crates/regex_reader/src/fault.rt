//! Why a text gave no expression.
ghost use Rattle.std.specs.Prelude.{◌≡◌};
ghost use Rattle.regex_reader.specs.declared.fault.ExprFault.TheVariants.{Memory};

use std::alloc::{AllocError, AllocFailed};
use syn_words::Memory;
use thiserror::Error;

/// The first failing test of a text, and its place: the number of the byte, counted from 0, or the text's length for
/// its end.
#[derive(Debug, Drop, Error)]
pub enum ExprFault {
    /// A byte that is no sign or may not stand there, or the text ends too early.
    #[error("unexpected at {at}")]
    Unexpected { at: u64 },
    /// A lower-case letter that is not in the alphabet.
    #[error("unknown letter at {at}")]
    UnknownLetter { at: u64 },
    /// An open parenthesis while 200 are open.
    #[error("too deep at {at}")]
    TooDeep { at: u64 },
    /// The tree has more than 4,000 nodes.
    #[error("too large at {at}")]
    TooLarge { at: u64 },
    /// The system gave no memory.
    #[error("out of memory")]
    Memory,
}

impl From<Memory> for ExprFault {
    ghost from_gives = { λ _ fault. fault ≡ Memory };

    fn from(_fault: Memory) -> ExprFault {
        ExprFault::Memory
    }
}

impl From<AllocError> for ExprFault {
    ghost from_gives = { λ _ fault. fault ≡ Memory };

    fn from(_fault: AllocError) -> ExprFault {
        ExprFault::Memory
    }
}

impl<T: Drop> From<AllocFailed<T>> for ExprFault {
    ghost from_gives = { λ _ fault. fault ≡ Memory };

    fn from(_fault: AllocFailed<T>) -> ExprFault {
        ExprFault::Memory
    }
}
