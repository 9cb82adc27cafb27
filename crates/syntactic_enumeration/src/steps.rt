//! The maps of the states of a minimal automaton by its letters.
ghost use Rattle.std.specs.Prelude.{◌≡◌, ◌<◌, ◌≤◌, ◌+◌, IfOk};
ghost use Rattle.subset_minimal.specs.MinDfa.{IsMinDfa};
ghost use Rattle.syntactic_enumeration.specs.Steps.{AreSteps, AreStepsBelow};

use froidure_pin::{Generators, MOST_POINTS};
use std::alloc::Global;
use subset_minimal::MinDfa;
use syn_words::Memory;

/// Each letter takes each state where the automaton does. Its contract also tells what holds of each minimal automaton.
/// Condition: at most `MOST_POINTS` states.
pub(crate) fn steps_of(alloc: Global, dfa: &MinDfa) -> Result<Generators, Memory>
    requires { dfa.now.graph.size ≤ MOST_POINTS }
    ensures steps { IfOk result (λ g. AreSteps dfa.now.graph g) }
    ensures minimal { IsMinDfa dfa.now }
{
    let mut generators = Generators::new(alloc, dfa.len(), dfa.letters())?;
    for letter in 0..dfa.letters() as u8 {
        set_letter(dfa, letter, &mut generators);
    }
    Ok(generators)
}

/// Sets the images of all states by one letter. Condition: the letter is in range.
fn set_letter(dfa: &MinDfa, letter: u8, generators: &mut Generators)
    requires letter { letter < dfa.now.graph.letters }
    requires steps { AreStepsBelow dfa.now.graph letter generators.old }
    ensures { AreStepsBelow dfa.now.graph (letter + 1) generators.new }
{
    for state in 0..dfa.len() {
        generators.set(letter, state, dfa.step(state, letter));
    }
}
