//! Whether a level suffices.
ghost use Rattle.std.specs.Prelude.{◌≡◌, ◌<◌, ◌≤◌, ◌-◌, ◌^◌, ◌↔◌, ℕ, List, IsTrue, IfOk, OnOk};
ghost use Rattle.std.specs.Result.{IsErrOf};
ghost use Rattle.language_theory.specs.Representatives.{HasMoreClasses};
ghost use Rattle.language_theory.specs.ShortlexGraph.{IsGraphOf};
ghost use Rattle.language_theory.specs.Nerode.{accepted};
ghost use Rattle.level_search.specs.Levels.{Suffices, IsWide, HasManyPairs, IsSmall};
ghost use Rattle.syn_words.specs.Alphabet.{most_letters};

use crate::keys::Keys;
use crate::pairs::Pairs;
use crate::quotient::{BeginFault, MOST_LEVEL, Quotient};
use exploration::{ExploreFault, ShortlexGraph, explore};
use std::alloc::Global;
use subset_minimal::MinDfa;
use syn_words::Memory;

/// Why it was not decided whether a level suffices.
#[derive(Clone, Copy, Debug, PartialEq, Eq)]
pub(crate) enum Stop {
    /// The level is too wide.
    Wide,
    /// The level has too many pairs.
    Pairs,
    /// The system gave no memory.
    Memory,
}

impl From<BeginFault> for Stop {
    ghost use Rattle.level_search.specs.Stops.{IsBeginStop};

    ghost from_gives = { IsBeginStop };

    fn from(fault: BeginFault) -> Stop {
        match fault {
            BeginFault::Wide => Stop::Wide,
            BeginFault::Memory => Stop::Memory,
        }
    }
}

impl From<ExploreFault> for Stop {
    ghost use Rattle.level_search.specs.Stops.{IsExploreStop};

    ghost from_gives = { IsExploreStop };

    fn from(fault: ExploreFault) -> Stop {
        match fault {
            ExploreFault::Limit => Stop::Pairs,
            ExploreFault::Memory => Stop::Memory,
        }
    }
}

impl From<Memory> for Stop {
    ghost use Rattle.std.specs.Prelude.{◌≡◌};
    ghost use Rattle.level_search.specs.declared.deciding.Stop.TheVariants as stop;

    ghost from_gives = { λ _ e. e ≡ stop.Memory };

    fn from(_fault: Memory) -> Stop {
        Stop::Memory
    }
}

/// Whether a level suffices for the words that an automaton accepts. The keys are explored first, so that each key is
/// asked for its successors once; then the pairs, over the graph of the keys. `Wide` comes exactly where the level is
/// too wide, and `Pairs` where it is not and there are more pairs of a Nerode class and a key than `max_pairs`.
pub(crate) fn decide<Q: Quotient>(
    alloc: Global,
    dfa: &MinDfa,
    quotient: &mut Q,
    level: u32,
    max_pairs: u32,
) -> Result<bool, Stop>
    requires from_least { Q.least ≤ level }
    requires to_greatest { level ≤ MOST_LEVEL }
    requires limit { max_pairs < 2 ^ 32 - 1 }
    ensures wide { IsErrOf result Stop.Wide → IsWide (Q.width dfa.now.graph.letters level) }
    ensures many { IsErrOf result Stop.Pairs
        → HasManyPairs dfa.now.graph.letters (accepted dfa.now) (Q.width dfa.now.graph.letters)
        (Q.same dfa.now.graph.letters) max_pairs level }
    ensures small { OnOk result
        (IsSmall dfa.now.graph.letters (accepted dfa.now) (Q.width dfa.now.graph.letters)
        (Q.same dfa.now.graph.letters) max_pairs level) }
    ensures suffices { IfOk result (λ b. IsTrue b
        ↔ Suffices dfa.now.graph.letters (accepted dfa.now) (Q.same dfa.now.graph.letters level)) }
{
    // Its contract tells that the automaton is minimal.
    let _states = dfa.len();
    let keys = explore_keys(alloc, quotient, dfa.letters() as u8, level, max_pairs)?;
    let mut pairs = Pairs::new(alloc, dfa, &keys);
    explore(alloc, &mut pairs, max_pairs)?;
    let suffices = pairs.are_fixed_by_keys()?;
    Ok(suffices)
}

/// The graph of the keys of a level. `Wide` comes exactly where the level is too wide, and `Pairs` where it is not and
/// there are more keys than the limit.
fn explore_keys<Q: Quotient>(
    alloc: Global,
    quotient: &mut Q,
    letters: u8,
    level: u32,
    limit: u32,
) -> Result<ShortlexGraph, Stop>
    requires some_letters { 1 ≤ letters }
    requires few_letters { letters ≤ most_letters }
    requires from_least { Q.least ≤ level }
    requires to_greatest { level ≤ MOST_LEVEL }
    requires limit { limit < 2 ^ 32 - 1 }
    ensures wide { IsErrOf result Stop.Wide → IsWide (Q.width letters level) }
    ensures many { IsErrOf result Stop.Pairs
        → (¬ IsWide (Q.width letters level)) × HasMoreClasses letters (Q.same letters level) limit }
    ensures narrow { OnOk result (¬ IsWide (Q.width letters level)) }
    ensures graph { IfOk result (λ g. (words : List (List ℕ))
        × IsGraphOf letters (Q.same letters level) g words) }
{
    quotient.begin(u32::from(letters), level)?;
    let mut keys = Keys::new(quotient, letters, level);
    let graph = explore(alloc, &mut keys, limit)?;
    Ok(graph)
}
