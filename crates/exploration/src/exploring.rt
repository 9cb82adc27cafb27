//! The breadth-first search.
ghost use Rattle.std.specs.Prelude.{◌≡◌, ◌<◌, ◌≤◌, ◌+◌, ◌*◌, ◌-◌, ◌^◌, ℕ, List, [], ◌∷◌, ◌++◌, Option, length, IfOk, OnOk};
ghost use Rattle.std.specs.Result.{IsErrOf};
ghost use Rattle.language_theory.specs.Words.{Over};
ghost use Rattle.language_theory.specs.Representatives.{HasMoreClasses};
ghost use Rattle.language_theory.specs.ShortlexGraph.{node, IsGraphOf};
ghost use Rattle.exploration.specs.Search.{IsExploring, HasExplored};

use crate::graph::ShortlexGraph;
use crate::states::States;
use std::alloc::{AllocError, AllocFailed, Global};
use syn_words::Memory;
use thiserror::Error;

/// Why there is no graph.
#[derive(Clone, Copy, Debug, PartialEq, Eq, Error)]
pub enum ExploreFault {
    /// There are more states than the limit.
    #[error("too many states")]
    Limit,
    /// The system gave no memory.
    #[error("out of memory")]
    Memory,
}

impl From<Memory> for ExploreFault {
    ghost use Rattle.exploration.specs.declared.exploring.ExploreFault.TheVariants as fault;

    ghost from_gives = { λ _ e. e ≡ fault.Memory };

    fn from(_fault: Memory) -> ExploreFault {
        ExploreFault::Memory
    }
}

impl From<AllocError> for ExploreFault {
    ghost use Rattle.exploration.specs.declared.exploring.ExploreFault.TheVariants as fault;

    ghost from_gives = { λ _ e. e ≡ fault.Memory };

    fn from(_fault: AllocError) -> ExploreFault {
        ExploreFault::Memory
    }
}

impl<T: Drop> From<AllocFailed<T>> for ExploreFault {
    ghost use Rattle.exploration.specs.declared.exploring.ExploreFault.TheVariants as fault;

    ghost from_gives = { λ _ e. e ≡ fault.Memory };

    fn from(_fault: AllocFailed<T>) -> ExploreFault {
        ExploreFault::Memory
    }
}

/// Explores all states, breadth first and letters in order, and answers the shortlex graph of the relation "leads to
/// the same state": its nodes are the states, numbered as the machine has numbered them. Condition: no state was seen
/// yet, and the limit is below the greatest `u32`. `Limit` comes exactly where more distinct states than `limit` are
/// reached over all words. Each state's successor is asked for once for each letter.
pub fn explore<S: States>(
    alloc: Global,
    states: &mut S,
    limit: u32,
) -> Result<ShortlexGraph, ExploreFault>
    requires sound { S.is_sound states.old }
    requires none { S.count states.old ≡ 0 }
    requires limit { limit < 2 ^ 32 - 1 }
    ensures sound { S.is_sound states.new }
    ensures later { S.is_later states.old states.new }
    ensures graph { IfOk result (λ g. (words : List (List ℕ))
        × IsGraphOf (S.letters_of states.old) (S.same states.old) g words) }
    ensures numbers { IfOk result (λ g. (w : List ℕ) → Over (S.letters_of states.old) w
        → S.number states.new w ≡ Option.Some (node g w)) }
    ensures size { IfOk result (λ g. g.size ≡ S.count states.new) }
    ensures ready { IfOk result (λ g. S.is_ready states.new g.targets) }
    ensures within { IfOk result (λ g. g.size ≤ limit) }
    ensures few { OnOk result
        (¬ HasMoreClasses (S.letters_of states.old) (S.same states.old) limit) }
    ensures many { IsErrOf result ExploreFault.Limit
        → HasMoreClasses (S.letters_of states.old) (S.same states.old) limit }
{
    if limit == 0 {
        return Err(ExploreFault::Limit);
    }
    let mut targets = Vec::new(alloc);
    states.start()?;
    let mut node = 0;
    while node < states.len() {
        expand(states, node, limit, &mut targets)?;
        node += 1;
    }
    Ok(ShortlexGraph::new(states.len(), states.letters(), targets))
}

/// Puts the targets of a node by each letter, in order, behind those of the nodes before it. A caller that explores by
/// these steps may prepare the machine before each of them, so long as it keeps what is asked here. Condition: the
/// node is seen, and a search within the limit has come to it.
pub fn expand<S: States>(
    states: &mut S,
    node: u32,
    limit: u32,
    targets: &mut Vec<u32>,
) -> Result<(), ExploreFault>
    requires sound { S.is_sound states.old }
    requires ready { S.is_ready states.old targets.old.items }
    requires node { node < S.count states.old }
    requires exploring { IsExploring (S.letters_of states.old) (S.number states.old)
        (S.count states.old) limit (node * S.letters_of states.old) targets.old.items }
    ensures sound { S.is_sound states.new }
    ensures later { S.is_later states.old states.new }
    ensures ready { OnOk result (S.is_ready states.new targets.new.items) }
    ensures explored { OnOk result (HasExplored (S.letters_of states.old) (S.number states.new)
        (S.count states.old) (S.count states.new) limit ((node + 1) * S.letters_of states.old)
        targets.new.items) }
    ensures many { IsErrOf result ExploreFault.Limit
        → HasMoreClasses (S.letters_of states.old) (S.same states.old) limit }
{
    for letter in 0..states.letters() {
        follow(states, node, letter, limit, targets)?;
    }
    Ok(())
}

/// Puts the target of a node by a letter behind the targets that were found before. Condition: the node is seen, and a
/// search within the limit has come to this target.
fn follow<S: States>(
    states: &mut S,
    node: u32,
    letter: u8,
    limit: u32,
    targets: &mut Vec<u32>,
) -> Result<(), ExploreFault>
    requires sound { S.is_sound states.old }
    requires ready { S.is_ready states.old targets.old.items }
    requires node { node < S.count states.old }
    requires letter { letter < S.letters_of states.old }
    requires exploring { IsExploring (S.letters_of states.old) (S.number states.old)
        (S.count states.old) limit (node * S.letters_of states.old + letter) targets.old.items }
    ensures sound { S.is_sound states.new }
    ensures later { S.is_later states.old states.new }
    ensures ready { OnOk result (S.is_ready states.new targets.new.items) }
    ensures explored { OnOk result (HasExplored (S.letters_of states.old) (S.number states.new)
        (S.count states.old) (S.count states.new) limit
        (node * S.letters_of states.old + letter + 1) targets.new.items) }
    ensures many { IsErrOf result ExploreFault.Limit
        → HasMoreClasses (S.letters_of states.old) (S.same states.old) limit }
{
    let target = states.step(targets.as_slice(), node, letter)?;
    if states.len() > limit {
        return Err(ExploreFault::Limit);
    }
    targets.push(target)?;
    Ok(())
}
