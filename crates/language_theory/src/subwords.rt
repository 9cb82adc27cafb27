//! Laws of prefixes, factors and subwords.

ghost use Rattle.std.specs.Prelude.{◌≡◌, ◌≤◌, ◌++◌, ◌∷◌, ◌⊎◌, [], ℕ, List, length};
ghost use Rattle.language_theory.specs.Words.{Over, IsPrefix, IsFactor, IsSubword};

/// A prefix is a factor, and a factor is a subword.
pub fn prefixes_and_factors_are_subwords()
    ensures prefix { (u w : List ℕ) → IsPrefix u w → IsFactor u w }
    ensures factor { (u w : List ℕ) → IsFactor u w → IsSubword u w }
{}

/// To be a subword is an order of the words, in which the empty word is the least one. A subword is not longer, and has
/// no other letters.
pub fn subwords_are_ordered()
    ensures itself { (u : List ℕ) → IsSubword u u }
    ensures through { (u v w : List ℕ) → IsSubword u v → IsSubword v w → IsSubword u w }
    ensures one { (u v : List ℕ) → IsSubword u v → IsSubword v u → u ≡ v }
    ensures empty { (v : List ℕ) → IsSubword [] v }
    ensures short { (u v : List ℕ) → IsSubword u v → length u ≤ length v }
    ensures over { (k : ℕ) (u v : List ℕ) → IsSubword u v → Over k v → Over k u }
{}

/// Subwords are what is left when letters are deleted, one after the other: a word without one of its letters is a
/// subword, and a subword that is not the whole word is a subword of the word without some letter.
pub fn subwords_are_left_by_deleting_letters()
    ensures deleted { (x y : List ℕ) (a : ℕ) → IsSubword (x ++ y) (x ++ a ∷ y) }
    ensures some { (u w : List ℕ) → IsSubword u w
        → (u ≡ w) ⊎ ((x : List ℕ) × (a : ℕ) × (y : List ℕ) × (x ++ a ∷ y ≡ w)
        × IsSubword u (x ++ y)) }
{}

/// The subwords of x y are those of x with those of y behind them.
pub fn subwords_of_concatenations()
    ensures joined { (u v x y : List ℕ) → IsSubword u x → IsSubword v y
        → IsSubword (u ++ v) (x ++ y) }
    ensures split { (x y z : List ℕ) → IsSubword z (x ++ y) → (u v : List ℕ) × (u ++ v ≡ z)
        × IsSubword u x × IsSubword v y }
{}

/// A word is a subword of another one or is not.
pub fn subwords_are_decided()
    ensures { (u v : List ℕ) → IsSubword u v ⊎ ¬ IsSubword u v }
{}
