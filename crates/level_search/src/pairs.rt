//! The machine whose states are the pairs of a state of a minimal automaton and a key.
ghost use Rattle.std.specs.Prelude.{◌≡◌, ◌<◌, ◌-◌, ◌^◌, ◌↔◌, ℕ, List, [], length, refl, IsTrue, IfOk, OnOk, OnErr};
ghost use Rattle.std.specs.List.{position_or_len};
ghost use Rattle.indexmap.specs.IndexSet.{insert_key};
ghost use Rattle.level_search.specs.Pairs.{Pairs, ArePairs, IsOnePair, IsLater, AreFixedByKeys, pair_eq, pair_at, next_pair, final_at, number_of, later_keeps, later_trans, pairs_numbered};

use exploration::{ShortlexGraph, States};
use indexmap::IndexSet;
use std::alloc::Global;
use std::marker::Model;
use subset_minimal::MinDfa;
use syn_words::Memory;

/// A state of a minimal automaton, and the number of a key.
pub(crate) type Pair = (u32, u32);

/// A minimal automaton and the graph of the keys of a level, with the pairs of a state and a key that were seen so far.
/// Each word leads to the pair of its state and its key; the pairs are numbered as they are first seen.
#[derive(Drop)]
pub(crate) struct Pairs<'a> {
    alloc: Global,
    dfa: &'a MinDfa,
    keys: &'a ShortlexGraph,
    seen: IndexSet<Pair>,
}

impl<'a> Model for Pairs<'a> {
    ghost use Rattle.std.specs.Prelude.{◌<◌, ◌^◌, length};
    ghost use Rattle.level_search.specs.Pairs.{Pairs};

    ghost Value = { Pairs };

    ghost view = { λ p. record { dfa = p.dfa.now; keys = p.keys.now; seen = p.seen.keys } };

    ghost invariant = { λ p. length p.seen.keys < 2 ^ 32 };
}

impl<'a> Pairs<'a> {
    /// The machine of an automaton and the graph of keys over its letters. No pair was seen yet.
    pub(crate) fn new(alloc: Global, dfa: &'a MinDfa, keys: &'a ShortlexGraph) -> Pairs<'a>
        requires { keys.now.letters ≡ dfa.now.graph.letters }
        ensures pairs { result ≡ record { dfa = dfa.now; keys = keys.now; seen = [] } }
        ensures sound { ArePairs result }
    {
        // Their contracts tell that these are graphs.
        let _states = dfa.len();
        let _keys = keys.size();
        Pairs {
            alloc,
            dfa,
            keys,
            seen: IndexSet::new(alloc),
        }
    }

    /// The pair that has a number. Condition: it was seen.
    fn pair(&self, number: u32) -> Pair
        requires { number < length self.now.seen }
        ensures { result ≡ pair_at self.now number }
    {
        self.seen[number as usize]
    }

    /// Whether the words of the pair that has a number are recognized.
    fn is_final(&self, number: u32) -> bool
        requires sound { ArePairs self.now }
        requires number { number < length self.now.seen }
        ensures { result ≡ final_at self.now number }
    {
        let (state, _) = self.pair(number);
        self.dfa.is_final(state)
    }

    /// Whether pairs with the same key are both recognized or both not.
    pub(crate) fn are_fixed_by_keys(&self) -> Result<bool, Memory>
        requires { ArePairs self.now }
        ensures { IfOk result (λ fixed. IsTrue fixed ↔ AreFixedByKeys self.now) }
    {
        let mut known = vec![in self.alloc; None; self.keys.size() as usize]?;
        for number in 0..self.len() {
            let (_, key) = self.pair(number);
            let is_final = self.is_final(number);
            if known[key as usize] == Some(!is_final) {
                return Ok(false);
            }
            known[key as usize] = Some(is_final);
        }
        Ok(true)
    }

    /// The pair to which a letter leads from the pair that has a number.
    fn next(&self, number: u32, letter: u8) -> Pair
        requires sound { ArePairs self.now }
        requires number { number < length self.now.seen }
        requires letter { letter < self.now.dfa.graph.letters }
        ensures { result ≡ next_pair self.now (pair_at self.now number) letter }
    {
        let (state, key) = self.pair(number);
        (self.dfa.step(state, letter), self.keys.step(key, letter))
    }

    /// Sees a pair, if it was not seen before, and answers its number.
    fn see(&mut self, pair: Pair) -> Result<u32, Memory>
        requires room { length self.old.seen < 2 ^ 32 - 1 }
        ensures seen { OnOk result
            (self.new ≡ record self.old { seen = insert_key pair_eq self.old.seen pair }) }
        ensures number { IfOk result (λ n. n ≡ position_or_len (pair_eq pair) self.old.seen) }
        ensures err { OnErr result (self.new ≡ self.old) }
    {
        let (number, _) = self.seen.insert_full(pair)?;
        Ok(number as u32)
    }
}

impl<'a> States for Pairs<'a> {
    ghost letters_of = { λ p. p.dfa.graph.letters };

    ghost same = { IsOnePair };

    ghost number = { number_of };

    ghost count = { λ p. length p.seen };

    ghost is_sound = { ArePairs };

    ghost is_later = { IsLater };

    ghost is_ready = { λ _ _. Unit {0} };

    ghost later_keeps = { later_keeps };

    ghost later_refl = { λ _. refl };

    ghost later_trans = { later_trans };

    ghost numbered = { pairs_numbered };

    fn letters(&self) -> u8 {
        self.dfa.letters() as u8
    }

    fn len(&self) -> u32 {
        self.seen.len() as u32
    }

    fn start(&mut self) -> Result<u32, Memory> {
        let number = self.see((0, 0))?;
        Ok(number)
    }

    fn step(&mut self, _targets: &[u32], state: u32, letter: u8) -> Result<u32, Memory> {
        let next = self.next(state, letter);
        let number = self.see(next)?;
        Ok(number)
    }
}
