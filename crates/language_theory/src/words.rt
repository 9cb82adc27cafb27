//! Laws of words and of their shortlex order.

ghost use Rattle.std.specs.Prelude.{◌≡◌, ◌<◌, ◌++◌, ◌∷◌, ◌⊎◌, [], ℕ, Bool, IsTrue, List};
ghost use Rattle.std.specs.Cmp.{IsTotalOrder};
ghost use Rattle.std.specs.declared.cmp.Ordering.TheVariants.{Equal};
ghost use Rattle.language_theory.specs.Words.{Over, shortlex, ◌⊏◌};
ghost use Rattle.language_theory.specs.Languages.{IsLeastWord};

use crate::language::Language;

/// Shortlex is a strict total order of the words: of two different words exactly one comes first. None comes before
/// the empty word.
pub fn shortlex_is_a_total_order()
    ensures total { IsTotalOrder shortlex }
    ensures strict { (u : List ℕ) → ¬ (u ⊏ u) }
    ensures asymmetric { (u v : List ℕ) → u ⊏ v → ¬ (v ⊏ u) }
    ensures equal { (u v : List ℕ) → shortlex u v ≡ Equal → u ≡ v }
    ensures one_of_three { (u v : List ℕ) → (u ⊏ v) ⊎ ((u ≡ v) ⊎ (v ⊏ u)) }
    ensures first { (u : List ℕ) → ¬ (u ⊏ []) }
{}

/// A word put before both sides changes nothing, and one put behind both sides keeps the order.
pub fn shortlex_is_kept_by_concatenation()
    ensures before { (w u v : List ℕ) → shortlex (w ++ u) (w ++ v) ≡ shortlex u v }
    ensures behind { (u v w : List ℕ) → u ⊏ v → (u ++ w) ⊏ (v ++ w) }
    ensures letters { (u v : List ℕ) (a b : ℕ) → u ⊏ v → (u ++ a ∷ []) ⊏ (v ++ b ∷ []) }
    ensures last { (u : List ℕ) (a b : ℕ) → a < b → (u ++ a ∷ []) ⊏ (u ++ b ∷ []) }
    ensures longer { (u : List ℕ) (a : ℕ) → u ⊏ (u ++ a ∷ []) }
{}

/// What holds of a word over k letters where it holds of each smaller one holds of every word over k letters.
pub fn shortlex_allows_induction<L: Language>()
    ensures { (k : ℕ) → ((w : List ℕ) → Over k w → ((u : List ℕ) → Over k u → u ⊏ w → L.has u)
        → L.has w) → (w : List ℕ) → Over k w → L.has w }
{}

/// A set of words that is given by a test and has a word over k letters has exactly one least word.
pub fn a_set_has_a_least_word()
    ensures least { (k : ℕ) (test : List ℕ → Bool) (w : List ℕ) → Over k w → IsTrue (test w)
        → (v : List ℕ) × IsLeastWord k (λ u. IsTrue (test u)) v }
    ensures one { (k : ℕ) (test : List ℕ → Bool) (u v : List ℕ)
        → IsLeastWord k (λ w. IsTrue (test w)) u → IsLeastWord k (λ w. IsTrue (test w)) v → u ≡ v }
{}
