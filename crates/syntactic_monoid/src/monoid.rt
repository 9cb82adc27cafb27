//! The syntactic monoid of a language as a value of the program.
ghost use Rattle.std.specs.Prelude.{◌≡◌, ◌<◌, ◌↔◌, ℕ, Bool, length, IsTrue, IfOk, MatchOption};
ghost use Rattle.language_theory.specs.Words.{Over};
ghost use Rattle.language_theory.specs.Automaton.{is_marked};
ghost use Rattle.language_theory.specs.Congruence.{Syntactic as SyntacticCongruence};
ghost use Rattle.language_theory.specs.Nerode.{MinimalAutomaton};
ghost use Rattle.monoid_theory.specs.Separation.{IsSeparation};
ghost use Rattle.cayley_tables.specs.CayleyGraphs.{AreCayleyGraphs};
ghost use Rattle.syntactic_monoid.specs.SyntacticMonoid.{IsSyntactic, IsInSemigroup, IsNonemptyWordOf, recognised};
ghost use Rattle.syntactic_monoid.specs.Action.{AreStateRows, IsActionOn, AreMarksOfStates, IsReturn};

use crate::action::Action;
use crate::edges::{edge_word, first_return};
use cayley_tables::Cayley;
use image_rows::Rows;
use std::alloc::Global;
use std::marker::Model;
use syn_words::{Memory, Word};

/// A context that separates two words: exactly one of `u s v` and `u t v` is in the language.
#[derive(Drop)]
pub struct Pair {
    pub u: Word,
    pub v: Word,
}

/// The syntactic monoid of a language: the elements in shortlex order of their least words, with both Cayley graphs,
/// and whether their words are in the language. Its value is the record `SyntacticMonoid`; each value is the syntactic
/// monoid of the language that it recognises, over 1 to 60 letters.
#[derive(Drop)]
pub struct Syntactic {
    cayley: Cayley,
    action: Action,
    accepted: Vec<bool>,
    returns: Option<u32>,
}

impl Model for Syntactic {
    ghost use Rattle.syntactic_monoid.specs.SyntacticMonoid.{SyntacticMonoid};
    ghost use Rattle.syntactic_monoid.specs.Action.{IsActing};

    ghost Value = { SyntacticMonoid };

    ghost view = { λ s. record { graphs = s.cayley; accepted = s.accepted.items } };

    ghost invariant = { λ s. IsActing
        (record { graphs = s.cayley; accepted = s.accepted.items })
        s.action.rows s.action.finals.items s.returns };
}

impl Syntactic {
    /// The monoid with these graphs, whose elements take the states of a minimal automaton where these rows say; state 0
    /// is the initial one. Conditions: each row has a state for each state, and these are the graphs of the syntactic
    /// monoid of the automaton's language, the rows in which its elements take the states, and its final states.
    pub fn new(
        alloc: Global,
        cayley: Cayley,
        rows: Rows,
        finals: Vec<bool>,
    ) -> Result<Syntactic, Memory>
        requires states { AreStateRows (length finals.items) rows }
        requires acts { (d : MinimalAutomaton) × IsActionOn d cayley rows finals.items }
        ensures graphs { IfOk result (λ m. m.graphs ≡ cayley) }
        ensures marks { IfOk result
            (λ m. AreMarksOfStates rows finals.items m.accepted) }
    {
        let action = Action { rows, finals };
        let accepted = action.marks(alloc)?;
        let returns = first_return(&cayley);
        Ok(Syntactic {
            cayley,
            action,
            accepted,
            returns,
        })
    }

    /// The elements with both Cayley graphs. Its contract tells what holds of each syntactic monoid.
    pub fn cayley(&self) -> &Cayley
        ensures graphs { result.now ≡ self.now.graphs }
        ensures syntactic { IsSyntactic self.now }
    {
        &self.cayley
    }

    /// Whether the words of an element are in the language. Condition: the element is in range.
    pub fn accepts(&self, i: u32) -> bool
        requires { i < length self.now.graphs.words }
        ensures { result ≡ is_marked self.now.accepted i }
    {
        self.accepted[i as usize]
    }

    /// Whether an element has a word that is not empty. Condition: the element is in range.
    pub fn in_semigroup(&self, i: u32) -> bool
        requires { i < length self.now.graphs.words }
        ensures { IsTrue result ↔ IsInSemigroup self.now i }
    {
        i > 0 || self.returns.is_some()
    }

    /// The least word of an element that is not empty. Conditions: the element is in range, and has such a word.
    pub fn nonempty_word(&self, i: u32) -> Result<Word, Memory>
        requires element { i < length self.now.graphs.words }
        requires some { IsInSemigroup self.now i }
        ensures { IfOk result (λ w. IsNonemptyWordOf self.now i w) }
    {
        match self.returns {
            Some(place) if i == 0 => edge_word(&self.cayley, place),
            _ => self.cayley.word(i),
        }
    }

    /// The least separating context of two words, or none where they are congruent. Condition: the letters of both are
    /// in range. It takes memory for no more than the two words of the context.
    pub fn separate(&self, s: &Word, t: &Word) -> Result<Option<Pair>, Memory>
        requires one { Over self.now.graphs.right.letters s.now }
        requires other { Over self.now.graphs.right.letters t.now }
        ensures { IfOk result (λ found. MatchOption found
            (SyntacticCongruence self.now.graphs.right.letters (recognised self.now) s.now t.now)
            (λ p. IsSeparation self.now.graphs.right.letters (recognised self.now) s.now t.now
            p.u p.v)) }
    {
        let i = self.cayley.find(s);
        let j = self.cayley.find(t);
        if i == j {
            return Ok(None);
        }
        let before = self.action.first_parting(i, j);
        let state = self.action.image(before, 0);
        let p = self.action.image(i, state);
        let q = self.action.image(j, state);
        let behind = self.action.first_telling_apart(p, q);
        let u = self.cayley.word(before)?;
        let v = self.cayley.word(behind)?;
        Ok(Some(Pair { u, v }))
    }
}

/// The elements are read by several workers: this call is proved only where that is allowed.
fn is_shared<T: Send + Sync>(_value: &T) {}

fn elements_are_shared(monoid: &Syntactic) {
    is_shared(monoid)
}
