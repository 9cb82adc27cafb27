//! A machine for the tests: the complete deterministic automaton of a table, whose states are numbered as they are
//! first seen.
ghost use Rattle.std.specs.Prelude.{◌≡◌, ◌<◌, ◌≤◌, ◌*◌, ◌-◌, ◌^◌, ℕ, List, [], ◌∷◌, ◌++◌, All, length, slice_index, IfOk, OnOk, OnErr};
ghost use Rattle.std.specs.Prelude.{nat_eq, refl};
ghost use Rattle.std.specs.List.{position_or_len};
ghost use Rattle.indexmap.specs.IndexSet.{insert_key};
ghost use Rattle.automata_tests.specs.Table.{Table, IsTable, IsLater, image, SameState, number_of, table_numbered, later_keeps, later_trans};

use exploration::States;
use indexmap::IndexSet;
use std::alloc::{AllocError, Global};
use std::marker::Model;
use syn_words::Memory;

/// A complete deterministic automaton, given by its table, whose states are numbered as they are first seen.
#[derive(Drop)]
pub struct TableStates<'a> {
    states: u32,
    letters: u8,
    start: u32,
    targets: &'a [u32],
    seen: IndexSet<u32>,
}

impl<'a> Model for TableStates<'a> {
    ghost Value = { Table };

    ghost view = { λ t. record {
      states = t.states;
      letters = t.letters;
      start = t.start;
      targets =
          t.targets.now;
      seen = t.seen.keys;
    } };

    ghost invariant = { λ t. length t.seen.keys < 2 ^ 32 };
}

impl<'a> TableStates<'a> {
    /// The automaton with these targets: those of state 0 by each letter, then those of state 1, and so on. No state
    /// was seen yet. Condition: the targets and the start are states, and there is a target for each state and letter.
    pub fn new(
        alloc: Global,
        states: u32,
        letters: u8,
        start: u32,
        targets: &'a [u32],
    ) -> TableStates<'a>
        requires long { length targets.now ≡ states * letters }
        requires within { All (λ p. p < states) targets.now }
        requires start { start < states }
        ensures table { result ≡ record {
          states = states;
          letters = letters;
          start = start;
          targets =
              targets.now;
          seen = [];
        } }
        ensures sound { IsTable result }
    {
        TableStates {
            states,
            letters,
            start,
            targets,
            seen: IndexSet::new(alloc),
        }
    }

    /// The state that has a number. Condition: it was seen.
    pub fn state(&self, number: u32) -> u32
        requires { number < length self.now.seen }
        ensures { result ≡ slice_index self.now.seen number }
    {
        self.seen[number as usize]
    }

    /// The state to which a letter leads from a state.
    fn target(&self, state: u32, letter: u8) -> u32
        requires long { length self.now.targets ≡ self.now.states * self.now.letters }
        requires state { state < self.now.states }
        requires letter { letter < self.now.letters }
        ensures { result ≡ image self.now state letter }
    {
        self.targets[state as usize * self.letters as usize + letter as usize]
    }

    /// Sees a state, if it was not seen before, and answers its number.
    fn see(&mut self, state: u32) -> Result<u32, Memory>
        requires room { length self.old.seen < 2 ^ 32 - 1 }
        ensures seen { OnOk result (self.new
            ≡ record self.old { seen = insert_key nat_eq self.old.seen state }) }
        ensures number { IfOk result (λ n. n ≡ position_or_len (nat_eq state) self.old.seen) }
        ensures err { OnErr result (self.new ≡ self.old) }
    {
        let (number, _) = self.seen.insert_full(state)?;
        Ok(number as u32)
    }
}

impl<'a> States for TableStates<'a> {
    ghost letters_of = { λ t. t.letters };

    ghost same = { SameState };

    ghost number = { number_of };

    ghost count = { λ t. length t.seen };

    ghost is_sound = { IsTable };

    ghost is_later = { IsLater };

    ghost is_ready = { λ _ _. Unit {0} };

    ghost later_keeps = { later_keeps };

    ghost later_refl = { λ _. refl };

    ghost later_trans = { later_trans };

    ghost numbered = { table_numbered };

    fn letters(&self) -> u8 {
        self.letters
    }

    fn len(&self) -> u32 {
        self.seen.len() as u32
    }

    fn start(&mut self) -> Result<u32, Memory> {
        let number = self.see(self.start)?;
        Ok(number)
    }

    fn step(&mut self, _targets: &[u32], state: u32, letter: u8) -> Result<u32, Memory> {
        let from = self.state(state);
        let to = self.target(from, letter);
        let number = self.see(to)?;
        Ok(number)
    }
}
