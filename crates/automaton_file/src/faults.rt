//! The faults of a line, and of the lines that are read.

use crate::sources::Wrong;
use regex_reader::ExprFault;
use syn_words::Memory;

/// Why a line isn't taken.
#[derive(Clone, Copy)]
pub enum LineFault {
    Bad(Wrong),
    Memory,
}

impl From<Memory> for LineFault {
    ghost use Rattle.std.specs.Prelude.{◌≡◌};
    ghost use Rattle.automaton_file.specs.declared.faults.LineFault.TheVariants.{Memory};

    ghost from_gives = { λ _ fault. fault ≡ Memory };

    fn from(_fault: Memory) -> LineFault {
        LineFault::Memory
    }
}

impl From<ExprFault> for LineFault {
    ghost use Rattle.automaton_file.specs.Reading.{IsRaised};

    ghost from_gives = { IsRaised };

    fn from(fault: ExprFault) -> LineFault {
        match fault {
            ExprFault::Memory => LineFault::Memory,
            ExprFault::Unexpected { .. } => LineFault::Bad(Wrong::Expression),
            ExprFault::UnknownLetter { .. } => LineFault::Bad(Wrong::Expression),
            ExprFault::TooDeep { .. } => LineFault::Bad(Wrong::Expression),
            ExprFault::TooLarge { .. } => LineFault::Bad(Wrong::Expression),
        }
    }
}

/// The first bad line: its number, and what is wrong with it.
#[derive(Clone, Copy)]
pub struct BadLine {
    pub line: u32,
    pub wrong: Wrong,
}

/// Why the lines aren't taken.
#[derive(Clone, Copy)]
pub enum ReadFault {
    Bad(BadLine),
    Memory,
}

impl From<Memory> for ReadFault {
    ghost use Rattle.std.specs.Prelude.{◌≡◌};
    ghost use Rattle.automaton_file.specs.declared.faults.ReadFault.TheVariants.{Memory};

    ghost from_gives = { λ _ fault. fault ≡ Memory };

    fn from(_fault: Memory) -> ReadFault {
        ReadFault::Memory
    }
}

impl From<BadLine> for ReadFault {
    ghost use Rattle.std.specs.Prelude.{◌≡◌};
    ghost use Rattle.automaton_file.specs.declared.faults.ReadFault.TheVariants.{Bad};

    ghost from_gives = { λ bad fault. fault ≡ Bad bad };

    fn from(bad: BadLine) -> ReadFault {
        ReadFault::Bad(bad)
    }
}
