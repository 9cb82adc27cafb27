//! Laws of the words that show that a language is not locally testable, and of the answer.
ghost use Rattle.std.specs.Prelude.{◌≡◌, ◌≤◌, ◌↔◌, ◌++◌, ℕ, Bool, List};
ghost use Rattle.language_theory.specs.Languages.{HaveSameWords};
ghost use Rattle.language_theory.specs.Congruence.{Syntactic};
ghost use Rattle.language_theory.specs.Representatives.{AreRepresentatives};
ghost use Rattle.level_search.specs.Levels.{Suffices};
ghost use Rattle.factor_keys.specs.Keys.{SameKey};
ghost use Rattle.factor_keys.specs.Walls.{with_one, with_two};
ghost use Rattle.local_submonoids.specs.LocalSubmonoids.{local, IsLocallyIdempotentAndCommutative};
ghost use Rattle.local_submonoids.specs.Witness.{IsRepeat, IsSwap, IsWitness};
ghost use Rattle.locally_testable.specs.Witness.{AreToldApart, ShowsNotTestable};
ghost use Rattle.locally_testable.specs.Answer.{IsLocalAnswer};

use answers::{LtAnswer, LtWitness};
pub use factor_keys::laws::{keys_are_a_right_congruence, powers_are_walls};
use language_theory::language::Language;

/// A repeat tells its two words apart for each n: they have the same key at each level from 1 to n, and exactly one of
/// them is in the language. The first is in it exactly where `u x y x v` is. So no level suffices.
pub fn a_repeat_is_told_apart_at_every_level<L: Language>()
    ensures apart { (k : ℕ) (u x y v : List ℕ) → IsRepeat k L.has u x y v → (n : ℕ) → 1 ≤ n
        → AreToldApart L.has n (with_one n u x y v) (with_two n u x y y v) }
    ensures first { (k : ℕ) (u x y v : List ℕ) → IsRepeat k L.has u x y v → (n : ℕ) → 1 ≤ n
        → L.has (with_one n u x y v) ↔ L.has (u ++ (local x y ++ v)) }
    ensures none { (k : ℕ) (u x y v : List ℕ) → IsRepeat k L.has u x y v → (n : ℕ) → 1 ≤ n
        → ¬ Suffices k L.has (SameKey n) }
{}

/// A swap tells its two words apart for each n, as a repeat does. The first is in the language exactly where
/// `u x y x x z x v` is.
pub fn a_swap_is_told_apart_at_every_level<L: Language>()
    ensures apart { (k : ℕ) (u x y z v : List ℕ) → IsSwap k L.has u x y z v → (n : ℕ) → 1 ≤ n
        → AreToldApart L.has n (with_two n u x y z v) (with_two n u x z y v) }
    ensures first { (k : ℕ) (u x y z v : List ℕ) → IsSwap k L.has u x y z v → (n : ℕ) → 1 ≤ n
        → L.has (with_two n u x y z v) ↔ L.has (u ++ ((local x y ++ local x z) ++ v)) }
    ensures none { (k : ℕ) (u x y z v : List ℕ) → IsSwap k L.has u x y z v → (n : ℕ) → 1 ≤ n
        → ¬ Suffices k L.has (SameKey n) }
{}

/// The witness of least words shows that the language is not locally testable: some local submonoid is not idempotent
/// and commutative, and its two words for each n from 1 on are told apart. So no level suffices.
pub fn a_witness_is_told_apart_at_every_level<L: Language>()
    ensures shows { (k : ℕ) (words : List (List ℕ)) (w : LtWitness)
        → AreRepresentatives k (Syntactic k L.has) words → IsWitness k L.has words w
        → ShowsNotTestable L.has w }
    ensures none { (k n : ℕ) (words : List (List ℕ)) (w : LtWitness)
        → AreRepresentatives k (Syntactic k L.has) words → IsWitness k L.has words w → 1 ≤ n
        → ¬ Suffices k L.has (SameKey n) }
    ensures fails { (k : ℕ) (words : List (List ℕ)) (w : LtWitness)
        → AreRepresentatives k (Syntactic k L.has) words → IsWitness k L.has words w
        → ¬ IsLocallyIdempotentAndCommutative k (Syntactic k L.has) }
{}

/// Where a level suffices, the local submonoids are idempotent and commutative.
pub fn a_level_makes_local_submonoids_semilattices<L: Language>()
    ensures { (k n : ℕ) → 1 ≤ n → Suffices k L.has (SameKey n)
        → IsLocallyIdempotentAndCommutative k (Syntactic k L.has) }
{}

/// A language has one answer within given limits, and so one witness.
pub fn the_answer_is_unique<L: Language>()
    ensures answer { (k : ℕ) (words : List (List ℕ)) (has_table : Bool) (last most : ℕ) (a b : LtAnswer)
        → AreRepresentatives k (Syntactic k L.has) words
        → IsLocalAnswer k L.has words has_table last most a
        → IsLocalAnswer k L.has words has_table last most b → a ≡ b }
    ensures witness { (k : ℕ) (words : List (List ℕ)) (v w : LtWitness)
        → AreRepresentatives k (Syntactic k L.has) words → IsWitness k L.has words v
        → IsWitness k L.has words w → v ≡ w }
{}

/// Languages with the same words over k letters have the same answer.
pub fn languages_with_the_same_words_have_one_answer<L: Language, M: Language>()
    ensures { (k : ℕ) (words : List (List ℕ)) (has_table : Bool) (last most : ℕ) (a : LtAnswer)
        → HaveSameWords k L.has M.has → AreRepresentatives k (Syntactic k L.has) words
        → IsLocalAnswer k L.has words has_table last most a
        → IsLocalAnswer k M.has words has_table last most a }
{}
