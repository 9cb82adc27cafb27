//! Machines that read words, whose states are numbered as they are first seen.
ghost use Rattle.std.specs.Prelude.{◌≡◌, ℕ, ◌<◌, ◌-◌, ◌^◌, ◌+◌, ◌*◌, List, [], ◌∷◌, ◌++◌, Option, length, IfOk, OnErr};
ghost use Rattle.exploration.specs.States.{AreNumbered, IsSameMachine, AreKept, IsNext, IsCounted};

use syn_words::Memory;

/// A machine that reads words over its letters and numbers its states from 0 as they are first seen. What a state is
/// stays the machine's own matter: it says only which words lead to the same state.
///
/// The meanings: `letters_of` is the number of letters, `same` holds of two words that lead to one state, `number` is
/// the number of the state that a word leads to if that state was seen, `count` is how many states were seen.
/// `is_sound` is what a machine needs to keep: its seen states are then numbered one to one (`numbered`). `is_later`
/// holds of a machine and the same machine after more states were seen, with the same letters and the same relation
/// (`later_keeps`).
///
/// A search asks for the targets of state 0 by each letter, in order, then for those of state 1, and so on, and lends
/// those that it has found before. So a machine may read a target from them instead of making the state to which it
/// leads: `is_ready` is what the machine keeps of the targets found so far.
pub trait States {
    ghost letters_of: { Self → ℕ };

    ghost same: { Self → List ℕ → List ℕ → Type 0 };

    ghost number: { Self → List ℕ → Option ℕ };

    ghost count: { Self → ℕ };

    ghost is_sound: { Self → Type 0 };

    ghost is_later: { Self → Self → Type 0 };

    ghost is_ready: { Self → List ℕ → Type 0 };

    /// The number of letters.
    fn letters(&self) -> u8
        requires { is_sound self.now }
        ensures { result ≡ letters_of self.now };

    /// How many states were seen.
    fn len(&self) -> u32
        requires { is_sound self.now }
        ensures { result ≡ count self.now };

    /// Sees the state of the empty word, which gets the number 0. Condition: no state was seen yet. Fault: want of
    /// memory, after which no state was seen.
    fn start(&mut self) -> Result<u32, Memory>
        requires sound { is_sound self.old }
        requires none { count self.old ≡ 0 }
        ensures sound { is_sound self.new }
        ensures later { is_later self.old self.new }
        ensures zero { IfOk result (λ n. n ≡ 0) }
        ensures one { IfOk result (λ n. count self.new ≡ 1) }
        ensures empty { IfOk result (λ n. number self.new [] ≡ Option.Some n) }
        ensures ready { IfOk result (λ n. is_ready self.new []) }
        ensures err { OnErr result (count self.new ≡ 0) };

    /// The number of the state to which a letter leads from the state with the number `state`; it is seen now, if it
    /// was not before. Condition: the state was seen, the letter is one of the machine's, one more state can be
    /// counted, and `targets` are those that a search finds before this one. Fault: want of memory, after which the
    /// same states are seen as before.
    fn step(&mut self, targets: &[u32], state: u32, letter: u8) -> Result<u32, Memory>
        requires sound { is_sound self.old }
        requires state { state < count self.old }
        requires letter { letter < letters_of self.old }
        requires room { count self.old < 2 ^ 32 - 1 }
        requires here { length targets.now ≡ state * letters_of self.old + letter }
        requires ready { is_ready self.old targets.now }
        ensures sound { is_sound self.new }
        ensures later { is_later self.old self.new }
        ensures kept { AreKept (letters_of self.old) (number self.old) (number self.new) }
        ensures next { IfOk result (λ n.
            IsNext (letters_of self.old) (number self.old) (number self.new) state letter n) }
        ensures counted { IfOk result (λ n. IsCounted (count self.old) (count self.new) n) }
        ensures ready { IfOk result (λ n. is_ready self.new (targets.now ++ n ∷ [])) }
        ensures err { OnErr result (count self.new ≡ count self.old) };

    ghost later_keeps: { (s t : Self) → is_later s t
        → IsSameMachine (letters_of s) (letters_of t) (same s) (same t) };

    ghost later_refl: { (s : Self) → is_later s s };

    ghost later_trans: { (r s t : Self) → is_later r s → is_later s t → is_later r t };

    ghost numbered: { (s : Self) → is_sound s
        → AreNumbered (letters_of s) (same s) (number s) (count s) };
}
