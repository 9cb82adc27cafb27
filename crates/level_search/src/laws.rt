//! Laws of the answers of a search through the levels, and of its limits.
ghost use Rattle.std.specs.Prelude.{◌≡◌, ◌<◌, ◌≤◌, ℕ};
ghost use Rattle.language_theory.specs.Languages.{HaveSameWords};
ghost use Rattle.level_search.specs.Levels.{Suffices, IsAnswer};

use crate::level::Level;
use crate::quotient::{MOST_LEVEL, MOST_WIDTH, Quotient};
use crate::searching::MOST_PAIRS;
use language_theory::language::Language;

/// The limits as numerals.
pub fn the_limits()
    ensures width { MOST_WIDTH ≡ 32768 }
    ensures level { MOST_LEVEL ≡ 12 }
    ensures pairs { MOST_PAIRS ≡ 100000 }
{}

/// A search has at most one answer.
pub fn the_answer_is_unique<L: Language, Q: Quotient>()
    ensures { (k most first last : ℕ) (a b : Level)
        → IsAnswer k L.has (Q.width k) (Q.same k) most first last a
        → IsAnswer k L.has (Q.width k) (Q.same k) most first last b → a ≡ b }
{}

/// The level of the answer `Yes` suffices, and no smaller one from the first on does. With the answer `NoneTo` no level
/// up to that one suffices.
pub fn yes_is_the_least_level_that_suffices<L: Language, Q: Quotient>()
    ensures yes { (k most first last n : ℕ)
        → IsAnswer k L.has (Q.width k) (Q.same k) most first last (Level.Yes n)
        → Suffices k L.has (Q.same k n) }
    ensures least { (k most first last n : ℕ)
        → IsAnswer k L.has (Q.width k) (Q.same k) most first last (Level.Yes n)
        → (m : ℕ) → first ≤ m → m < n → ¬ Suffices k L.has (Q.same k m) }
    ensures none { (k most first last n : ℕ)
        → IsAnswer k L.has (Q.width k) (Q.same k) most first last (Level.NoneTo n)
        → (m : ℕ) → first ≤ m → m ≤ n → ¬ Suffices k L.has (Q.same k m) }
{}

/// Languages with the same words over k letters have the same answer. So the answer for the words that a minimal
/// automaton accepts is the answer for its language.
pub fn languages_with_the_same_words_have_one_answer<L: Language, M: Language, Q: Quotient>()
    ensures { (k most first last : ℕ) (a : Level) → HaveSameWords k L.has M.has
        → IsAnswer k L.has (Q.width k) (Q.same k) most first last a
        → IsAnswer k M.has (Q.width k) (Q.same k) most first last a }
{}
