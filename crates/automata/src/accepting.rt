//! The states from which an automaton accepts a word, from the word's last letter to its first.
ghost use Rattle.std.specs.Prelude.{◌≡◌, ◌<◌, ◌↔◌, ℕ, [], length, IsTrue, IfOk};
ghost use Rattle.language_theory.specs.Automaton.{Accepts, IsInitial, IsTarget, is_marked};
ghost use Rattle.automata.specs.StepsBack.{AreAccepting, AreBefore};

use crate::nfa::Nfa;
use number_set::NumberSet;
use syn_words::{Memory, Word};

impl Nfa {
    /// Whether the automaton accepts a word: a path with the word leads from an initial to a final state. It takes time
    /// linear in the states and the rows of marks of each letter of the word. Empty moves are taken in first.
    pub fn accepts(&self, word: &Word) -> Result<bool, Memory>
        ensures { IfOk result (λ b. IsTrue b ↔ Accepts self.now word.now) }
    {
        if self.has_moves() {
            let plain = self.without_moves(self.allocator())?;
            let accepted = accepts_by_steps(&plain, word)?;
            return Ok(accepted);
        }
        let accepted = accepts_by_steps(self, word)?;
        Ok(accepted)
    }
}

/// Whether an automaton accepts a word. Condition: it has no empty moves.
fn accepts_by_steps(nfa: &Nfa, word: &Word) -> Result<bool, Memory>
    requires { nfa.now.moves ≡ [] }
    ensures { IfOk result (λ b. IsTrue b ↔ Accepts nfa.now word.now) }
{
    let marks = accepting(nfa, word.letters())?;
    Ok(has_initial(nfa, &marks))
}

/// Whether an initial state is marked.
fn has_initial(nfa: &Nfa, marks: &NumberSet) -> bool
    requires { length marks.now ≡ nfa.now.states }
    ensures { IsTrue result ↔ ((p : ℕ) × IsInitial nfa.now p × IsTrue (is_marked marks.now p)) }
{
    for state in 0..nfa.states() {
        if nfa.is_initial(state) && marks.contains(state) {
            return true;
        }
    }
    false
}

/// The states from which a path with the word ends in a final state. Condition: there are no empty moves.
fn accepting(nfa: &Nfa, word: &[u8]) -> Result<NumberSet, Memory>
    requires { nfa.now.moves ≡ [] }
    ensures { IfOk result (λ marks. AreAccepting nfa.now word.now marks) }
{
    // Its contract tells that the automaton is within the limits.
    let _states = nfa.states();
    let mut marks = NumberSet::from_marks(nfa.allocator(), nfa.finals())?;
    for place in (0..word.len()).rev() {
        marks = step_back(nfa, word[place], &marks)?;
    }
    Ok(marks)
}

/// The states from which a step by a letter leads to a marked state.
fn step_back(nfa: &Nfa, letter: u8, marks: &NumberSet) -> Result<NumberSet, Memory>
    requires { length marks.now ≡ nfa.now.states }
    ensures { IfOk result (λ before. AreBefore nfa.now letter marks.now before) }
{
    let mut before = marks.bare()?;
    if letter as u32 >= nfa.letters() {
        return Ok(before);
    }
    for state in 0..nfa.states() {
        if leads_to(nfa, state, letter, marks) {
            before.insert(state);
        }
    }
    Ok(before)
}

/// Whether a step by a letter leads from a state to a marked state.
fn leads_to(nfa: &Nfa, state: u32, letter: u8, marks: &NumberSet) -> bool
    requires state { state < nfa.now.states }
    requires letter { letter < nfa.now.letters }
    requires long { length marks.now ≡ nfa.now.states }
    ensures { IsTrue result
        ↔ ((q : ℕ) × IsTarget nfa.now state letter q × IsTrue (is_marked marks.now q)) }
{
    marks.meets(nfa.row(state, letter))
}
