//! Automata as values.
ghost use Rattle.std.specs.Prelude.{◌≡◌, IfOk};
ghost use Rattle.language_theory.specs.Automaton.{Automaton};

use crate::words::word;
use automata::Nfa;
use number_set::NumberSet;
use std::alloc::Global;
use std::test::Fail;
use syn_words::Memory;

/// The automaton of `(ab)*` that begins in two states.
fn two_starts(alloc: Global) -> Result<Nfa, Memory>
    ensures { IfOk result (λ m. (m.states ≡ 5) × (m.letters ≡ 2)) }
{
    let mut nfa = Nfa::new(alloc, 5, 2)?;
    nfa.set_initial(0);
    nfa.set_initial(1);
    nfa.set_final(0);
    nfa.add_step(0, 0, 2)?;
    nfa.add_step(1, 0, 2)?;
    nfa.add_step(2, 1, 0)?;
    nfa.add_step(2, 0, 4)?;
    nfa.add_step(3, 0, 0)?;
    nfa.add_step(2, 1, 0)?;
    Ok(nfa)
}

/// The steps from each state by each letter, of which the first automaton has five.
const STEPS: [(u32, u8, u32); 5] = [(0, 0, 2), (1, 0, 2), (2, 0, 4), (2, 1, 0), (3, 0, 0)];

#[test]
fn has_the_steps_that_were_added(rt: HostRuntime) -> Result<(), Fail> {
    let nfa = two_starts(rt.alloc())?;
    for from in 0..6 {
        for letter in 0..3 {
            for to in 0..6 {
                assert_eq!(rt;
                    nfa.has_step(from, letter, to),
                    STEPS.contains(&(from, letter, to))
                );
            }
        }
    }
    Ok(())
}

#[test]
fn copies_automata(rt: HostRuntime) -> Result<(), Fail> {
    let nfa = two_starts(rt.alloc())?;
    let copy = nfa.copy()?;
    assert_eq!(rt; copy.letters(), 2);
    assert_eq!(rt;
        copy.initials(),
        [true, true, false, false, false].as_slice()
    );
    assert_eq!(rt;
        copy.finals(),
        [true, false, false, false, false].as_slice()
    );
    for (from, letter, to) in STEPS {
        assert!(rt; copy.has_step(from, letter, to));
    }
    assert!(rt; !copy.has_step(0, 0, 0));
    Ok(())
}

#[test]
fn adds_rows(rt: HostRuntime) -> Result<(), Fail> {
    let mut nfa = two_starts(rt.alloc())?;
    nfa.add_row(
        2,
        0,
        NumberSet::from_marks(rt.alloc(), &[true, true, false, false, false])?,
    );
    nfa.add_row(
        4,
        1,
        NumberSet::from_marks(rt.alloc(), &[false, false, false, true, true])?,
    );
    for to in 0..5 {
        assert_eq!(rt; nfa.has_step(2, 0, to), [0, 1, 4].contains(&to));
        assert_eq!(rt; nfa.has_step(4, 1, to), [3, 4].contains(&to));
        assert!(rt; !nfa.has_step(4, 0, to));
    }
    assert_eq!(rt; nfa.row(4, 0).size(), 0);
    Ok(())
}

#[test]
fn accepts_words(rt: HostRuntime) -> Result<(), Fail> {
    let nfa = two_starts(rt.alloc())?;
    let rows: [(&[u8], bool); 7] = [
        (b"", true),
        (b"\x00", false),
        (b"\x00\x01", true),
        (b"\x00\x01\x00\x01", true),
        (b"\x00\x01\x00", false),
        (b"\x01", false),
        (b"\x02", false),
    ];
    for (letters, accepted) in rows {
        assert_eq!(rt; nfa.accepts(&word(rt.alloc(), letters)?)?, accepted);
    }
    Ok(())
}
