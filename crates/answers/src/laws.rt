//! The law of the limit.
ghost use Rattle.std.specs.Prelude.{◌≡◌};

use crate::factors::MOST_WORK;

/// The limit as a numeral.
pub fn the_limits()
    ensures work { MOST_WORK ≡ 200000000 }
{}
