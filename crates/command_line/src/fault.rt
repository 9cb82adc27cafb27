//! Why the words are no line.

use std::alloc::AllocError;
use thiserror::Error;

/// Why the words are no line.
#[derive(Clone, Copy, Debug, PartialEq, Eq, Error)]
pub enum LineFault {
    /// `clap` finds a fault: the words are not a command word, an operand and options, each with a value and none twice.
    #[error("bad words")]
    Words,
    /// The first word that is no option is no command.
    #[error("no such command")]
    Command,
    /// The value of an option is no number in its range; options are counted from 0 by the table, and this is the first
    /// such one.
    #[error("bad number")]
    Number {
        /// The place of the option in the table.
        option: u8,
    },
    /// The command is `generate`, and the operand is no size of a generated file.
    #[error("bad size")]
    Size,
    /// The system gave no memory.
    #[error("out of memory")]
    Memory,
}

impl From<AllocError> for LineFault {
    ghost use Rattle.std.specs.Prelude.{◌≡◌};
    ghost use Rattle.command_line.specs.declared.fault.LineFault.TheVariants as fault;

    ghost from_gives = { λ _ e. e ≡ fault.Memory };

    fn from(_fault: AllocError) -> LineFault {
        LineFault::Memory
    }
}
