//! Laws of the rewriting rules of a congruence.
ghost use Rattle.std.specs.Prelude.{◌≡◌, ◌<◌, ◌⊎◌, ◌↔◌, ◌++◌, ◌∷◌, [], ℕ, List, length};
ghost use Rattle.language_theory.specs.Words.{Over, ◌⊏◌, word_at, IsFactor};
ghost use Rattle.language_theory.specs.Congruence.{IsEquivalence, IsCongruence, Agree};
ghost use Rattle.language_theory.specs.Representatives.{IsPlaceOf, AreRepresentatives, IsReduced};
ghost use Rattle.language_theory.specs.Links.{IsSuffixLink};
ghost use Rattle.monoid_theory.specs.Products.{IsRight};
ghost use Rattle.monoid_theory.specs.Presentation.{IsRule, AreRules, IsReplacement, Rewrites};

use language_theory::language::Relation;

/// A relation has one list of rules.
pub fn rules_are_unique<R: Relation>()
    ensures { (k : ℕ) (words : List (List ℕ)) (xs ys : List (List ℕ × ℕ))
        → AreRules k R.same words xs → AreRules k R.same words ys → xs ≡ ys }
{}

/// The left sides of the rules are listed words with a letter behind. The word at i with the letter a is one where it
/// is not listed, but is without its first letter; and these words rise with i, and then with a.
pub fn rules_by_places<R: Relation>()
    ensures at { (k : ℕ) (words : List (List ℕ)) → AreRepresentatives k R.same words
        → (left : List ℕ) (right : ℕ) → IsRule k R.same words left right
        → (i a : ℕ) × (i < length words) × (a < k) × (left ≡ word_at words i ++ a ∷ []) }
    ensures longer { (k : ℕ) (words : List (List ℕ)) → IsEquivalence k R.same
        → AreRepresentatives k R.same words → (i a r b s t : ℕ) → a < k → IsRight R.same words i a r
        → IsSuffixLink words i b s → IsRight R.same words s a t
        → IsRule k R.same words (word_at words i ++ a ∷ []) r
        ↔ (¬ (word_at words r ≡ word_at words i ++ a ∷ [])
        × (word_at words t ≡ word_at words s ++ a ∷ [])) }
    ensures letter { (k : ℕ) (words : List (List ℕ)) → IsEquivalence k R.same
        → AreRepresentatives k R.same words → (a r : ℕ) → a < k → IsRight R.same words 0 a r
        → IsRule k R.same words (a ∷ []) r ↔ ¬ (word_at words r ≡ a ∷ []) }
    ensures rise { (k : ℕ) (words : List (List ℕ)) → AreRepresentatives k R.same words
        → (i j a b : ℕ) → j < length words → (i < j) ⊎ ((i ≡ j) × (a < b))
        → (word_at words i ++ a ∷ []) ⊏ (word_at words j ++ b ∷ []) }
{}

/// A word that is not reduced has the left side of a rule as a factor, and so can be replaced.
pub fn unreduced_words_have_a_rule<R: Relation>()
    ensures factor { (k : ℕ) (words : List (List ℕ)) → IsEquivalence k R.same
        → AreRepresentatives k R.same words → (w : List ℕ) → Over k w → ¬ IsReduced k R.same w
        → (left : List ℕ) × (right : ℕ) × IsRule k R.same words left right × IsFactor left w }
    ensures replaced { (k : ℕ) (words : List (List ℕ)) → IsEquivalence k R.same
        → AreRepresentatives k R.same words → (rules : List (List ℕ × ℕ))
        → AreRules k R.same words rules → (w : List ℕ) → Over k w → ¬ IsReduced k R.same w
        → (v : List ℕ) × IsReplacement words rules w v }
{}

/// A replacement gives a word over the same letters that is smaller, and related in a congruence.
pub fn replacements_make_words_smaller<R: Relation>()
    ensures over { (k : ℕ) (words : List (List ℕ)) → AreRepresentatives k R.same words
        → (rules : List (List ℕ × ℕ)) → AreRules k R.same words rules → (u v : List ℕ) → Over k u
        → IsReplacement words rules u v → Over k v }
    ensures smaller { (k : ℕ) (words : List (List ℕ)) → IsEquivalence k R.same
        → AreRepresentatives k R.same words → (rules : List (List ℕ × ℕ))
        → AreRules k R.same words rules → (u v : List ℕ) → IsReplacement words rules u v → v ⊏ u }
    ensures related { (k : ℕ) (words : List (List ℕ)) → IsCongruence k R.same
        → AreRepresentatives k R.same words → (rules : List (List ℕ × ℕ))
        → AreRules k R.same words rules → (u v : List ℕ) → Over k u → IsReplacement words rules u v
        → R.same u v }
{}

/// The rules present the monoid: rewriting leads each word to the listed word of its class, so words are related
/// exactly where they are rewritten to one listed word.
pub fn rules_present_the_monoid<R: Relation>()
    ensures reduces { (k : ℕ) (words : List (List ℕ)) → IsCongruence k R.same
        → AreRepresentatives k R.same words → (rules : List (List ℕ × ℕ))
        → AreRules k R.same words rules → (w : List ℕ) → Over k w → (i : ℕ)
        → IsPlaceOf R.same words w i → Rewrites words rules w (word_at words i) }
    ensures decides { (k : ℕ) (words : List (List ℕ)) → IsCongruence k R.same
        → AreRepresentatives k R.same words → (rules : List (List ℕ × ℕ))
        → AreRules k R.same words rules → (u v : List ℕ) → Over k u → Over k v → R.same u v
        ↔ ((i : ℕ) × (i < length words) × Rewrites words rules u (word_at words i)
        × Rewrites words rules v (word_at words i)) }
{}

/// Rewriting goes on, and goes on inside a longer word.
pub fn rewriting_goes_on()
    ensures further { (words : List (List ℕ)) (rules : List (List ℕ × ℕ)) (u v w : List ℕ)
        → Rewrites words rules u v → Rewrites words rules v w → Rewrites words rules u w }
    ensures between { (words : List (List ℕ)) (rules : List (List ℕ × ℕ)) (u v p q : List ℕ)
        → Rewrites words rules u v → Rewrites words rules (p ++ (u ++ q)) (p ++ (v ++ q)) }
{}

/// Relations that agree on words over k letters have the same rules.
pub fn agreeing_relations_have_the_same_rules<R: Relation, S: Relation>()
    ensures { (k : ℕ) → Agree k R.same S.same → (words : List (List ℕ))
        → ((i : ℕ) → i < length words → Over k (word_at words i)) → (rules : List (List ℕ × ℕ))
        → AreRules k R.same words rules → AreRules k S.same words rules }
{}
