//! Families of keys of words, one for each level.
ghost use Rattle.std.specs.Prelude.{◌≡◌, ◌<◌, ◌≤◌, ◌-◌, ◌^◌, ℕ, List, [], Option, IfOk, OnOk, OnErr};
ghost use Rattle.std.specs.Result.{IsErrOf};
ghost use Rattle.language_theory.specs.Congruence.{IsRightCongruence};
ghost use Rattle.exploration.specs.States.{AreNumbered, AreKept, IsNext, IsCounted};
ghost use Rattle.level_search.specs.Levels.{IsWide};
ghost use Rattle.syn_words.specs.Alphabet.{most_letters};

use syn_words::Memory;
use thiserror::Error;

/// The greatest width of a level that is begun.
pub const MOST_WIDTH: u32 = 32_768;

/// The greatest level that is begun.
pub const MOST_LEVEL: u32 = 12;

/// Why a level was not begun.
#[derive(Clone, Copy, Debug, PartialEq, Eq, Error)]
pub enum BeginFault {
    /// The width of the level is greater than `MOST_WIDTH`.
    #[error("too wide a level")]
    Wide,
    /// The system gave no memory.
    #[error("out of memory")]
    Memory,
}

/// Keys of words, for each number of letters and each level. The keys of one level are numbered from 0 as they are
/// first seen. What a key is stays the quotient's own matter: it says only which words have the same key.
///
/// The meanings: `least` is the least level, `width` the width of a level for a number of letters, `same` holds of two
/// words that have the same key at a level for a number of letters. `letters_of` and `level_of` are the number of
/// letters and the level of the last `begin`, `number` is the number of a word's key if that key was seen since, and
/// `count` is how many keys were seen. `is_sound` is what a quotient keeps between `begin` and the next `begin`.
///
/// The laws: to have the same key is an equivalence, and the key of a word with a letter behind it is fixed by the key
/// of the word and the letter (`congruence`). The numbers below `count` and the keys that were seen correspond one to
/// one (`numbered`).
pub trait Quotient {
    ghost least: { ℕ };

    ghost width: { ℕ → ℕ → ℕ };

    ghost same: { ℕ → ℕ → List ℕ → List ℕ → Type 0 };

    ghost letters_of: { Self → ℕ };

    ghost level_of: { Self → ℕ };

    ghost number: { Self → List ℕ → Option ℕ };

    ghost count: { Self → ℕ };

    ghost is_sound: { Self → Type 0 };

    /// Begins a level, and answers the number of the empty word's key, which alone has been seen then. Condition: 1 to
    /// 60 letters, and a level from the least one to `MOST_LEVEL`. `Wide` comes exactly where the level is too wide.
    /// After a fault no key has been seen, and the next call is `begin`.
    fn begin(&mut self, letters: u32, level: u32) -> Result<u32, BeginFault>
        requires some_letters { 1 ≤ letters }
        requires few_letters { letters ≤ most_letters }
        requires from_least { least ≤ level }
        requires to_greatest { level ≤ MOST_LEVEL }
        ensures sound { OnOk result (is_sound self.new) }
        ensures letters { OnOk result (letters_of self.new ≡ letters) }
        ensures level { OnOk result (level_of self.new ≡ level) }
        ensures one { OnOk result (count self.new ≡ 1) }
        ensures empty { IfOk result (λ n. number self.new [] ≡ Option.Some n) }
        ensures narrow { OnOk result (¬ IsWide (width letters level)) }
        ensures wide { IsErrOf result BeginFault.Wide → IsWide (width letters level) }
        ensures err { OnErr result (count self.new ≡ 0) };

    /// The number of the key that words with the key of the number `state` get from a letter behind them; it is seen
    /// now, if it was not before. Condition: the key was seen, the letter is in range, and one more key can be counted.
    /// Fault: want of memory, after which the same keys are seen as before.
    fn step(&mut self, state: u32, letter: u8) -> Result<u32, Memory>
        requires sound { is_sound self.old }
        requires state { state < count self.old }
        requires letter { letter < letters_of self.old }
        requires room { count self.old < 2 ^ 32 - 1 }
        ensures sound { is_sound self.new }
        ensures letters { letters_of self.new ≡ letters_of self.old }
        ensures level { level_of self.new ≡ level_of self.old }
        ensures kept { AreKept (letters_of self.old) (number self.old) (number self.new) }
        ensures next { IfOk result (λ n.
            IsNext (letters_of self.old) (number self.old) (number self.new) state letter n) }
        ensures counted { IfOk result (λ n. IsCounted (count self.old) (count self.new) n) }
        ensures err { OnErr result (count self.new ≡ count self.old) };

    /// How many keys have been seen since the last `begin`.
    fn len(&self) -> u32
        ensures { result ≡ count self.now };

    ghost congruence: { (k n : ℕ) → least ≤ n → IsRightCongruence k (same k n) };

    ghost numbered: { (q : Self) → is_sound q
        → AreNumbered (letters_of q) (same (letters_of q) (level_of q)) (number q) (count q) };
}
