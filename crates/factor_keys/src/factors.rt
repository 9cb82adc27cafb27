//! The keys of one level, numbered as they are first seen.
ghost use Rattle.std.specs.Prelude.{◌≡◌, ◌<◌, ◌≤◌, ◌-◌, ◌^◌, [], ◌∷◌, length, ◌↔◌, IsTrue, IfOk, OnOk, OnErr};
ghost use Rattle.std.specs.List.{position_or_len};
ghost use Rattle.indexmap.specs.IndexSet.{insert_key};
ghost use Rattle.level_search.specs.Levels.{IsWide};
ghost use Rattle.factor_keys.specs.Keys.{width, SameKey};
ghost use Rattle.factor_keys.specs.FactorKeys.{FactorKeys, AreFactorKeys, key_eq, key_at, key_of, next_key, number_of, empty_key, keys_numbered};
ghost use Rattle.factor_keys.specs.SameKeys.{key_congruence};
ghost use Rattle.syn_words.specs.Alphabet.{most_letters};

use crate::key::Key;
use indexmap::IndexSet;
use level_search::{BeginFault, MOST_WIDTH, Quotient};
use std::alloc::Global;
use std::marker::Model;
use syn_words::Memory;

/// The quotient whose keys are those of the locally testable languages. A word shorter than the level is its own key.
/// The key of another word is its prefix and its suffix of one letter fewer than the level and the set of its factors
/// with as many letters as the level.
#[derive(Drop)]
pub struct Factors {
    alloc: Global,
    letters: u32,
    level: u32,
    keys: IndexSet<Key>,
}

impl Model for Factors {
    ghost use Rattle.std.specs.Prelude.{◌<◌, ◌^◌, length};
    ghost use Rattle.factor_keys.specs.FactorKeys.{FactorKeys};

    ghost Value = { FactorKeys };

    ghost view = { λ f. record { letters = f.letters; level = f.level; keys = f.keys.keys } };

    ghost invariant = { λ f. length f.keys.keys < 2 ^ 32 };
}

impl Factors {
    /// The quotient, with no level begun. It takes no memory.
    pub fn new(alloc: Global) -> Factors
        ensures { result.keys ≡ [] }
    {
        Factors {
            alloc,
            letters: 0,
            level: 0,
            keys: IndexSet::new(alloc),
        }
    }

    /// Takes another number of letters and another level, with no key seen.
    fn restart(&mut self, letters: u32, level: u32)
        ensures { self.new ≡ record { letters = letters; level = level; keys = [] } }
    {
        self.letters = letters;
        self.level = level;
        self.keys = IndexSet::new(self.alloc);
    }

    /// The key that has a number. Condition: it was seen.
    fn key(&self, number: u32) -> &Key
        requires { number < length self.now.keys }
        ensures { result.now ≡ key_at self.now number }
    {
        &self.keys[number as usize]
    }

    /// The key to which a letter leads from the key that has a number.
    fn next(&self, number: u32, letter: u8) -> Result<Key, Memory>
        requires sound { AreFactorKeys self.now }
        requires number { number < length self.now.keys }
        requires letter { letter < self.now.letters }
        ensures { IfOk result (λ key.
            key ≡ next_key self.now.letters self.now.level (key_at self.now number) letter) }
    {
        let next = self
            .key(number)
            .next(self.alloc, self.letters, self.level, letter)?;
        Ok(next)
    }

    /// Sees a key, if it was not seen before, and answers its number.
    fn see(&mut self, key: Key) -> Result<u32, Memory>
        requires room { length self.old.keys < 2 ^ 32 - 1 }
        ensures seen { OnOk result
            (self.new ≡ record self.old { keys = insert_key key_eq self.old.keys key }) }
        ensures number { IfOk result (λ n. n ≡ position_or_len (key_eq key) self.old.keys) }
        ensures err { OnErr result (self.new ≡ self.old) }
    {
        let (number, _) = self.keys.insert_full(key)?;
        Ok(number as u32)
    }
}

impl Quotient for Factors {
    ghost least = { 1 };

    ghost width = { width };

    ghost same = { λ _ n. SameKey n };

    ghost letters_of = { λ f. f.letters };

    ghost level_of = { λ f. f.level };

    ghost number = { number_of };

    ghost count = { λ f. length f.keys };

    ghost is_sound = { AreFactorKeys };

    ghost congruence = { key_congruence };

    ghost numbered = { keys_numbered };

    fn begin(&mut self, letters: u32, level: u32) -> Result<u32, BeginFault> {
        self.restart(letters, level);
        if is_wide(letters, level) {
            return Err(BeginFault::Wide);
        }
        let empty = Key::empty(self.alloc);
        match self.see(empty) {
            Ok(number) => Ok(number),
            Err(Memory) => Err(BeginFault::Memory),
        }
    }

    fn step(&mut self, state: u32, letter: u8) -> Result<u32, Memory> {
        let next = self.next(state, letter)?;
        let number = self.see(next)?;
        Ok(number)
    }

    fn len(&self) -> u32 {
        self.keys.len() as u32
    }
}

/// Whether there are more words of a length over some letters than a level may have. Condition: 1 to 60 letters.
fn is_wide(letters: u32, length: u32) -> bool
    requires some_letters { 1 ≤ letters }
    requires few_letters { letters ≤ most_letters }
    ensures { IsTrue result ↔ IsWide (width letters length) }
{
    let mut width = 1;
    for _ in 0..length {
        width *= letters;
        if width > MOST_WIDTH {
            return true;
        }
    }
    false
}
