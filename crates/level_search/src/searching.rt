//! The search for the least level that suffices.
ghost use Rattle.std.specs.Prelude.{◌≤◌, IfOk};
ghost use Rattle.language_theory.specs.Nerode.{accepted};
ghost use Rattle.level_search.specs.Levels.{IsAnswer};

use crate::deciding::{Stop, decide};
use crate::level::Level;
use crate::quotient::{MOST_LEVEL, Quotient};
use std::alloc::Global;
use subset_minimal::MinDfa;
use syn_words::Memory;

/// The largest limit on the pairs of a level.
pub const MOST_PAIRS: u32 = 100_000;

/// Goes through the levels upward from `first_level`, and answers what the first of them that answers does: `Wide`
/// where it is too wide; else `Pairs` where it has more pairs of a Nerode class and a key, over all words, than
/// `max_pairs`; else `Yes` where words with the same key are both words of the language or both not. `NoneTo` comes
/// where no level up to `max_level` answers. The language is that of the automaton. Conditions: the levels lie between
/// the least one and `MOST_LEVEL`, and `max_pairs <= MOST_PAIRS`. After `Memory` the quotient stands at some level.
pub fn search<Q: Quotient>(
    alloc: Global,
    dfa: &MinDfa,
    quotient: &mut Q,
    first_level: u32,
    max_level: u32,
    max_pairs: u32,
) -> Result<Level, Memory>
    requires from_least { Q.least ≤ first_level }
    requires levels { first_level ≤ max_level }
    requires to_greatest { max_level ≤ MOST_LEVEL }
    requires pairs { max_pairs ≤ MOST_PAIRS }
    ensures { IfOk result (IsAnswer dfa.now.graph.letters (accepted dfa.now)
        (Q.width dfa.now.graph.letters) (Q.same dfa.now.graph.letters) max_pairs first_level max_level) }
{
    for level in first_level..max_level + 1 {
        match decide(alloc, dfa, quotient, level, max_pairs) {
            Ok(true) => return Ok(Level::Yes(level)),
            Ok(false) => {}
            Err(Stop::Wide) => return Ok(Level::Wide(level)),
            Err(Stop::Pairs) => return Ok(Level::Pairs(level)),
            Err(Stop::Memory) => return Err(Memory),
        }
    }
    Ok(Level::NoneTo(max_level))
}
