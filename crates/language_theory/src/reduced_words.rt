//! Laws of lists of least representatives (Froidure and Pin 1997: reduced words).

ghost use Rattle.std.specs.Prelude.{◌≡◌, ◌<◌, ◌⊎◌, ℕ, List, length};
ghost use Rattle.language_theory.specs.Words.{Over, IsPrefix, IsFactor, word_at};
ghost use Rattle.language_theory.specs.Representatives.{AreRepresentatives, IsReduced, HasMoreClasses, HaveAsManyClasses};
ghost use Rattle.language_theory.specs.Links.{IsPrefixLink, IsSuffixLink};
ghost use Rattle.language_theory.specs.Congruence.{IsEquivalence, IsRightCongruence, IsCongruence, Agree};

use crate::language::Relation;

/// An equivalence has at most one list of least representatives.
pub fn one_list_of_representatives<R: Relation>()
    ensures { (k : ℕ) (xs ys : List (List ℕ)) → IsEquivalence k R.same
        → AreRepresentatives k R.same xs → AreRepresentatives k R.same ys → xs ≡ ys }
{}

/// Relations that agree on the words over k letters have the same lists of least representatives, and as many classes.
pub fn agreeing_relations_have_one_list<R: Relation, S: Relation>()
    ensures classes { (k : ℕ) → Agree k R.same S.same → HaveAsManyClasses k R.same S.same }
    ensures list { (k : ℕ) (words : List (List ℕ)) → Agree k R.same S.same
        → AreRepresentatives k R.same words → AreRepresentatives k S.same words }
{}

/// The listed words are the reduced ones.
pub fn listed_words_are_the_reduced<R: Relation>()
    ensures reduced { (k : ℕ) (words : List (List ℕ)) → IsEquivalence k R.same
        → AreRepresentatives k R.same words → (i : ℕ) → i < length words
        → IsReduced k R.same (word_at words i) }
    ensures listed { (k : ℕ) (words : List (List ℕ)) → AreRepresentatives k R.same words
        → (w : List ℕ) → IsReduced k R.same w → (i : ℕ) × (i < length words)
        × (word_at words i ≡ w) }
{}

/// A prefix of a reduced word of a right congruence is reduced, and so is a factor of a reduced word of a congruence.
pub fn parts_of_reduced_words_are_reduced<R: Relation>()
    ensures prefixes { (k : ℕ) (u w : List ℕ) → IsRightCongruence k R.same → IsReduced k R.same w
        → IsPrefix u w → IsReduced k R.same u }
    ensures factors { (k : ℕ) (u w : List ℕ) → IsCongruence k R.same → IsReduced k R.same w
        → IsFactor u w → IsReduced k R.same u }
{}

/// A list of n least representatives has n classes: not more, and more than each smaller number.
pub fn representatives_count_the_classes<R: Relation>()
    ensures not_more { (k : ℕ) (words : List (List ℕ)) → IsEquivalence k R.same
        → AreRepresentatives k R.same words → ¬ HasMoreClasses k R.same (length words) }
    ensures more { (k : ℕ) (words : List (List ℕ)) (m : ℕ) → IsEquivalence k R.same
        → AreRepresentatives k R.same words → m < length words → HasMoreClasses k R.same m }
{}

/// A list of least representatives decides its equivalence.
pub fn representatives_decide_the_relation<R: Relation>()
    ensures { (k : ℕ) (words : List (List ℕ)) → IsEquivalence k R.same
        → AreRepresentatives k R.same words → (u v : List ℕ) → Over k u → Over k v
        → R.same u v ⊎ ¬ R.same u v }
{}

/// In a right congruence each listed word but the first is a listed word and a last letter, and in a congruence it is
/// also a first letter and a listed word. There is one way of each, and the listed words of both stand before it.
pub fn links_are_unique<R: Relation>()
    ensures prefix { (k : ℕ) (words : List (List ℕ)) → IsRightCongruence k R.same
        → AreRepresentatives k R.same words → (i : ℕ) → 0 < i → i < length words
        → (p a : ℕ) × (a < k) × IsPrefixLink words i p a }
    ensures suffix { (k : ℕ) (words : List (List ℕ)) → IsCongruence k R.same
        → AreRepresentatives k R.same words → (i : ℕ) → 0 < i → i < length words
        → (a s : ℕ) × (a < k) × IsSuffixLink words i a s }
    ensures one_prefix { (k : ℕ) (words : List (List ℕ)) → AreRepresentatives k R.same words
        → (i p a q b : ℕ) → IsPrefixLink words i p a → IsPrefixLink words i q b
        → (p ≡ q) × (a ≡ b) }
    ensures one_suffix { (k : ℕ) (words : List (List ℕ)) → AreRepresentatives k R.same words
        → (i a s b t : ℕ) → IsSuffixLink words i a s → IsSuffixLink words i b t
        → (a ≡ b) × (s ≡ t) }
    ensures smaller_prefix { (k : ℕ) (words : List (List ℕ)) → AreRepresentatives k R.same words
        → (i p a : ℕ) → IsPrefixLink words i p a → p < i }
    ensures smaller_suffix { (k : ℕ) (words : List (List ℕ)) → AreRepresentatives k R.same words
        → (i a s : ℕ) → IsSuffixLink words i a s → s < i }
{}
