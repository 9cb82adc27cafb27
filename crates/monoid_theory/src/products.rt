//! Laws of products and of the two Cayley graphs.
ghost use Rattle.std.specs.Prelude.{◌≡◌, ◌<◌, ◌↔◌, ◌++◌, ◌∷◌, [], ℕ, List, length, reverse};
ghost use Rattle.language_theory.specs.Words.{Over, word_at};
ghost use Rattle.language_theory.specs.Congruence.{IsEquivalence, IsRightCongruence, IsCongruence};
ghost use Rattle.language_theory.specs.Representatives.{IsPlaceOf, AreRepresentatives};
ghost use Rattle.language_theory.specs.ShortlexGraph.{Graph, walk, node, IsGraphOf};
ghost use Rattle.monoid_theory.specs.Products.{IsProduct, IsRight, IsLeft, IsRightGraph, IsLeftGraph};

use language_theory::language::Relation;

/// Two places have exactly one product, which is the place of any two words of theirs, put together.
pub fn products_are_unique<R: Relation>()
    ensures exists { (k : ℕ) (words : List (List ℕ)) → AreRepresentatives k R.same words → (i j : ℕ)
        → i < length words → j < length words → (r : ℕ) × IsProduct R.same words i j r }
    ensures one { (words : List (List ℕ)) (i j r s : ℕ) → IsProduct R.same words i j r
        → IsProduct R.same words i j s → r ≡ s }
    ensures any { (k : ℕ) (words : List (List ℕ)) → IsCongruence k R.same
        → AreRepresentatives k R.same words → (u v : List ℕ) (i j r : ℕ) → Over k u → Over k v
        → IsPlaceOf R.same words u i → IsPlaceOf R.same words v j
        → IsPlaceOf R.same words (u ++ v) r ↔ IsProduct R.same words i j r }
{}

/// The product is associative, and the place of the empty word, which is 0, is its identity.
pub fn products_form_a_monoid<R: Relation>()
    ensures associative { (k : ℕ) (words : List (List ℕ)) → IsCongruence k R.same
        → AreRepresentatives k R.same words → (i j m r s t : ℕ) → IsProduct R.same words i j r
        → IsProduct R.same words r m s → IsProduct R.same words j m t
        → IsProduct R.same words i t s }
    ensures empty { (k : ℕ) (words : List (List ℕ)) → IsEquivalence k R.same
        → AreRepresentatives k R.same words → IsPlaceOf R.same words [] 0 }
    ensures before { (k : ℕ) (words : List (List ℕ)) → IsEquivalence k R.same
        → AreRepresentatives k R.same words → (j : ℕ) → j < length words
        → IsProduct R.same words 0 j j }
    ensures behind { (k : ℕ) (words : List (List ℕ)) → IsEquivalence k R.same
        → AreRepresentatives k R.same words → (i : ℕ) → i < length words
        → IsProduct R.same words i 0 i }
{}

/// In a right congruence a letter behind any word of a place gives a word of the place that the right Cayley graph has,
/// and in a congruence a letter before it gives a word of the place that the left Cayley graph has. The shortlex graph
/// of a relation is its right Cayley graph, and there a word leads to its place; and the right Cayley graph of a right
/// congruence is its shortlex graph.
pub fn letters_act_on_places<R: Relation>()
    ensures right { (k : ℕ) (words : List (List ℕ)) → IsRightCongruence k R.same
        → AreRepresentatives k R.same words → (w : List ℕ) (i a r : ℕ) → Over k w → a < k
        → IsPlaceOf R.same words w i → IsPlaceOf R.same words (w ++ a ∷ []) r
        ↔ IsRight R.same words i a r }
    ensures left { (k : ℕ) (words : List (List ℕ)) → IsCongruence k R.same
        → AreRepresentatives k R.same words → (w : List ℕ) (a i r : ℕ) → Over k w → a < k
        → IsPlaceOf R.same words w i → IsPlaceOf R.same words (a ∷ w) r
        ↔ IsLeft R.same words a i r }
    ensures graph { (k : ℕ) (d : Graph) (words : List (List ℕ)) → IsGraphOf k R.same d words
        → IsRightGraph k R.same words d }
    ensures only { (k : ℕ) (d : Graph) (words : List (List ℕ)) → IsRightCongruence k R.same
        → AreRepresentatives k R.same words → IsRightGraph k R.same words d
        → IsGraphOf k R.same d words }
    ensures node { (k : ℕ) (d : Graph) (words : List (List ℕ)) → IsGraphOf k R.same d words
        → (w : List ℕ) → Over k w → IsPlaceOf R.same words w (node d w) }
{}

/// In a right congruence a walk in the right Cayley graph multiplies by its word on the right, and in a congruence a
/// walk in the left one multiplies by its reversed word on the left.
pub fn walks_are_products<R: Relation>()
    ensures right { (k : ℕ) (words : List (List ℕ)) → IsRightCongruence k R.same
        → AreRepresentatives k R.same words → (d : Graph) → IsRightGraph k R.same words d
        → (x : List ℕ) (i : ℕ) → i < length words → Over k x
        → IsPlaceOf R.same words (word_at words i ++ x) (walk d i x) }
    ensures left { (k : ℕ) (words : List (List ℕ)) → IsCongruence k R.same
        → AreRepresentatives k R.same words → (d : Graph) → IsLeftGraph k R.same words d
        → (x : List ℕ) (i : ℕ) → i < length words → Over k x
        → IsPlaceOf R.same words (reverse x ++ word_at words i) (walk d i x) }
{}
