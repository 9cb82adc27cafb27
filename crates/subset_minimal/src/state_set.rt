//! Sets of states of an automaton, as sets of numbers.
ghost use Rattle.std.specs.Prelude.{◌≡◌, ◌<◌, ◌↔◌, length, IsTrue, IfOk};
ghost use Rattle.automata.specs.Nfa.{IsSized};
ghost use Rattle.subset_minimal.specs.Subsets.{successor, HasFinal};

use automata::Nfa;
use number_set::NumberSet;
use std::alloc::Global;
use syn_words::Memory;

/// The set of the initial states of an automaton.
pub(crate) fn initial_set(alloc: Global, nfa: &Nfa) -> Result<NumberSet, Memory>
    ensures { IfOk result (λ set. set ≡ nfa.now.initial) }
{
    // Its contract tells that the automaton is within the limits.
    let _states = nfa.states();
    NumberSet::from_marks(alloc, nfa.initials())
}

/// Makes a set that of the states to which the steps with a letter lead from the states of another set. Conditions: both
/// have a place for each state, and the letter is in range. For each member it takes time linear in a 64th of the states
/// from the first to the last to which steps lead.
pub(crate) fn set_next(next: &mut NumberSet, set: &NumberSet, nfa: &Nfa, letter: u8)
    requires sized { IsSized nfa.now }
    requires long { length set.now ≡ nfa.now.states }
    requires next { length next.old ≡ nfa.now.states }
    requires letter { letter < nfa.now.letters }
    ensures { next.new ≡ successor nfa.now set.now letter }
{
    next.clear();
    let mut members = set.members();
    while let Some(state) = members.next() {
        next.union_with(nfa.row(state, letter));
    }
}

/// Whether one of the states of a set is final. Condition: a place for each state of the automaton.
pub(crate) fn has_final(set: &NumberSet, nfa: &Nfa) -> bool
    requires { length set.now ≡ nfa.now.states }
    ensures { IsTrue result ↔ HasFinal nfa.now set.now }
{
    let mut members = set.members();
    while let Some(state) = members.next() {
        if nfa.is_final(state) {
            return true;
        }
    }
    false
}
