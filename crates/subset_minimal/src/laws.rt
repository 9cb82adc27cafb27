//! The limit of the subset construction.
ghost use Rattle.std.specs.Prelude.{◌≡◌};

use crate::subset_construction::MOST_SUBSETS;

/// The largest limit on the sets of states.
pub fn the_limits()
    ensures subsets { MOST_SUBSETS ≡ 4096 }
{}
