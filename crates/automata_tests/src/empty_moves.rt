//! Automata with empty moves.
ghost use Rattle.std.specs.Prelude.{◌≡◌, ◌≤◌, IfOk};
ghost use Rattle.automata.specs.Nfa.{most_states};

use crate::words::word;
use automata::Nfa;
use std::alloc::Global;
use std::test::Fail;
use subset_minimal::{MinFault, minimal};
use syn_words::Memory;

/// The automaton of `a*b*`: state 0 reads a, state 1 reads b, and empty moves lead from 0 to 1 and on to the final
/// state 2.
fn as_then_bs(alloc: Global) -> Result<Nfa, Memory>
    ensures { IfOk result (λ m. (m.states ≡ 3) × (m.letters ≡ 2)) }
{
    let mut nfa = Nfa::new(alloc, 3, 2)?;
    nfa.set_initial(0);
    nfa.set_final(2);
    nfa.add_step(0, 0, 0)?;
    nfa.add_empty(0, 1)?;
    nfa.add_step(1, 1, 1)?;
    nfa.add_empty(1, 2)?;
    Ok(nfa)
}

#[test]
fn has_the_moves_that_were_added(rt: HostRuntime) -> Result<(), Fail> {
    let mut nfa = as_then_bs(rt.alloc())?;
    nfa.add_empty(0, 1)?;
    for from in 0..3 {
        for to in 0..3 {
            assert_eq!(rt;
                nfa.has_empty(from, to),
                [(0, 1), (1, 2)].contains(&(from, to))
            );
        }
    }
    assert!(rt; nfa.has_moves());
    assert!(rt; nfa.copy()?.has_moves());
    Ok(())
}

/// The steps of that automaton with its empty moves taken in.
const STEPS: [(u32, u8, u32); 5] = [(0, 0, 0), (0, 0, 1), (0, 0, 2), (1, 1, 1), (1, 1, 2)];

#[test]
fn takes_moves_in(rt: HostRuntime) -> Result<(), Fail> {
    let plain = as_then_bs(rt.alloc())?.without_moves(rt.alloc())?;
    assert!(rt; !plain.has_moves());
    assert_eq!(rt; plain.initials(), [true, true, true].as_slice());
    assert_eq!(rt; plain.finals(), [false, false, true].as_slice());
    for from in 0..3 {
        for letter in 0..2 {
            for to in 0..3 {
                assert_eq!(rt;
                    plain.has_step(from, letter, to),
                    STEPS.contains(&(from, letter, to))
                );
            }
        }
    }
    Ok(())
}

#[test]
fn accepts_words_by_moves(rt: HostRuntime) -> Result<(), Fail> {
    let nfa = as_then_bs(rt.alloc())?;
    let rows: [(&[u8], bool); 6] = [
        (b"", true),
        (b"\x00", true),
        (b"\x01\x01", true),
        (b"\x00\x00\x01", true),
        (b"\x01\x00", false),
        (b"\x00\x01\x00", false),
    ];
    for (letters, accepted) in rows {
        assert_eq!(rt; nfa.accepts(&word(rt.alloc(), letters)?)?, accepted);
    }
    Ok(())
}

#[test]
fn counts_sets_of_states_with_moves(rt: HostRuntime) -> Result<(), Fail> {
    let nfa = as_then_bs(rt.alloc())?;
    for limit in 0..3 {
        assert_eq!(rt;
            minimal(rt.alloc(), &nfa, limit).err(),
            Some(MinFault::SubsetLimit)
        );
    }
    let dfa = minimal(rt.alloc(), &nfa, 3)?;
    assert_eq!(rt; dfa.len(), 3);
    Ok(())
}

#[test]
fn moves_alone_lead_to_a_final_state(rt: HostRuntime) -> Result<(), Fail> {
    let mut nfa = Nfa::new(rt.alloc(), 2, 1)?;
    nfa.set_initial(0);
    nfa.set_final(1);
    nfa.add_empty(0, 0)?;
    assert!(rt; !nfa.accepts(&word(rt.alloc(), b"")?)?);
    assert_eq!(rt; minimal(rt.alloc(), &nfa, 2)?.len(), 1);
    nfa.add_empty(0, 1)?;
    assert!(rt; nfa.accepts(&word(rt.alloc(), b"")?)?);
    assert!(rt; !nfa.accepts(&word(rt.alloc(), b"\x00")?)?);
    assert_eq!(rt; minimal(rt.alloc(), &nfa, 2)?.len(), 2);
    Ok(())
}

/// An automaton over one letter with so many states in one cycle of empty moves. It begins in state 0, ends in the last
/// one, and reads the letter there.
fn cycle(alloc: Global, states: u32) -> Result<Nfa, Memory>
    requires some { 1 ≤ states }
    requires few { states ≤ most_states }
{
    let mut nfa = Nfa::new(alloc, states, 1)?;
    let last = states - 1;
    nfa.set_initial(0);
    nfa.set_final(last);
    nfa.add_step(last, 0, last)?;
    nfa.add_empty(last, 0)?;
    for state in 0..last {
        nfa.add_empty(state, state + 1)?;
    }
    Ok(nfa)
}

#[test]
fn follows_cycles_of_moves(rt: HostRuntime) -> Result<(), Fail> {
    for states in [1, 2, 3, 65, 1000] {
        let nfa = cycle(rt.alloc(), states)?;
        assert!(rt; nfa.accepts(&word(rt.alloc(), b"")?)?);
        assert!(rt; nfa.accepts(&word(rt.alloc(), b"\x00\x00")?)?);
        assert_eq!(rt; minimal(rt.alloc(), &nfa, 1)?.len(), 1);
    }
    Ok(())
}
