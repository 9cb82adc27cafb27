//! Minimal automata.
ghost use Rattle.std.specs.Prelude.{◌≡◌, ◌≤◌, ℕ, List, IfOk};
ghost use Rattle.language_theory.specs.ShortlexGraph.{IsShortlex};

use crate::table::TableStates;
use automata::Nfa;
use exploration::{ExploreFault, ShortlexGraph, explore};
use std::alloc::Global;
use std::test::Fail;
use subset_minimal::{MinDfa, MinFault, minimal, minimise};
use syn_words::Memory;

/// The automaton of `(ab)*` over ab that begins in two states; no word reaches state 3, and state 4 is dead.
fn ab_star(alloc: Global) -> Result<Nfa, Memory> {
    let mut nfa = Nfa::new(alloc, 5, 2)?;
    nfa.set_initial(0);
    nfa.set_initial(1);
    nfa.set_final(0);
    nfa.add_step(0, 0, 2)?;
    nfa.add_step(1, 0, 2)?;
    nfa.add_step(2, 1, 0)?;
    nfa.add_step(2, 0, 4)?;
    nfa.add_step(3, 0, 0)?;
    Ok(nfa)
}

/// The words over ab whose third letter from the end is a.
fn third_last_a(alloc: Global) -> Result<Nfa, Memory> {
    let mut nfa = Nfa::new(alloc, 4, 2)?;
    nfa.set_initial(0);
    nfa.set_final(3);
    nfa.add_step(0, 0, 0)?;
    nfa.add_step(0, 1, 0)?;
    nfa.add_step(0, 0, 1)?;
    nfa.add_step(1, 0, 2)?;
    nfa.add_step(1, 1, 2)?;
    nfa.add_step(2, 0, 3)?;
    nfa.add_step(2, 1, 3)?;
    Ok(nfa)
}

/// For each state: the state of its least word (itself), whether it is final, its targets, and the letters of the word.
fn numbers_of(alloc: Global, dfa: &MinDfa) -> Result<Vec<u32>, Memory> {
    let mut numbers = Vec::new(alloc);
    for state in 0..dfa.len() {
        numbers.push(dfa.state_of(dfa.access(state)))?;
        numbers.push(u32::from(dfa.is_final(state)))?;
        for letter in 0..dfa.letters() as u8 {
            numbers.push(dfa.step(state, letter))?;
        }
        for letter in dfa.access(state).letters() {
            numbers.push(u32::from(*letter))?;
        }
    }
    Ok(numbers)
}

#[test]
fn minimises_ab_star(rt: HostRuntime) -> Result<(), Fail> {
    let dfa = minimal(rt.alloc(), &ab_star(rt.alloc())?, 5)?;
    let numbers = [0, 1, 1, 2, 1, 0, 2, 0, 0, 2, 0, 2, 2, 1];
    assert_eq!(rt;
        numbers_of(rt.alloc(), &dfa)?.as_slice(),
        numbers.as_slice()
    );
    Ok(())
}

#[test]
fn minimises_third_last_a(rt: HostRuntime) -> Result<(), Fail> {
    let dfa = minimal(rt.alloc(), &third_last_a(rt.alloc())?, 4096)?;
    let numbers = [
        0, 0, 1, 0, 1, 0, 2, 3, 0, 2, 0, 4, 5, 0, 0, 3, 0, 6, 7, 0, 1, 4, 1, 4, 5, 0, 0, 0, 5, 1,
        6, 7, 0, 0, 1, 6, 1, 2, 3, 0, 1, 0, 7, 1, 1, 0, 0, 1, 1,
    ];
    assert_eq!(rt;
        numbers_of(rt.alloc(), &dfa)?.as_slice(),
        numbers.as_slice()
    );
    Ok(())
}

#[test]
fn begins_with_no_state(rt: HostRuntime) -> Result<(), Fail> {
    let dfa = minimal(rt.alloc(), &Nfa::new(rt.alloc(), 3, 2)?, 1)?;
    assert_eq!(rt;
        numbers_of(rt.alloc(), &dfa)?.as_slice(),
        [0, 0, 0, 0].as_slice()
    );
    Ok(())
}

#[test]
fn stops_at_the_limit(rt: HostRuntime) -> Result<(), Fail> {
    let nfa = ab_star(rt.alloc())?;
    for limit in 0..5 {
        assert_eq!(rt;
            minimal(rt.alloc(), &nfa, limit).err(),
            Some(MinFault::SubsetLimit)
        );
    }
    Ok(())
}

/// The graph of four nodes in which a letter a leads to the other node of a pair, and a letter b to the other pair.
fn two_pairs(alloc: Global) -> Result<ShortlexGraph, ExploreFault>
    ensures shortlex { IfOk result (λ g. (words : List (List ℕ)) × IsShortlex g words) }
    ensures letters { IfOk result (λ g. g.letters ≡ 2) }
{
    let targets = [1, 2, 0, 3, 3, 0, 2, 1];
    let mut states = TableStates::new(alloc, 4, 2, 0, &targets);
    let graph = explore(alloc, &mut states, 4)?;
    Ok(graph)
}

#[test]
fn minimises_a_graph(rt: HostRuntime) -> Result<(), Fail> {
    let graph = two_pairs(rt.alloc())?;
    assert_eq!(rt; graph.size(), 4);
    let marks = [true, false, true, false];
    let dfa = minimise(rt.alloc(), &graph, &marks)?;
    assert_eq!(rt;
        numbers_of(rt.alloc(), &dfa)?.as_slice(),
        [0, 1, 1, 0, 1, 0, 0, 1, 0].as_slice()
    );
    Ok(())
}
