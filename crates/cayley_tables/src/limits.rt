//! The most elements, and the most workers that share work on them.
ghost use Rattle.std.specs.Prelude.{◌≡◌};

/// The most elements of a monoid.
pub const MOST_ELEMENTS: u32 = 50_000;

/// The most workers that fill tables of elements.
pub const MOST_WORKERS: u32 = 64;

/// The limits as numbers.
pub fn the_limits()
    ensures elements { MOST_ELEMENTS ≡ 50000 }
    ensures workers { MOST_WORKERS ≡ 64 }
{}
