//! Laws of Green's relations.
ghost use Rattle.std.specs.Prelude.{◌≡◌, ◌<◌, ◌↔◌, ◌++◌, ℕ, List, length};
ghost use Rattle.language_theory.specs.Words.{Over, word_at};
ghost use Rattle.language_theory.specs.Congruence.{IsEquivalence, IsRightCongruence, IsCongruence, Agree};
ghost use Rattle.language_theory.specs.Representatives.{AreRepresentatives};
ghost use Rattle.language_theory.specs.ShortlexGraph.{Graph, walk};
ghost use Rattle.monoid_theory.specs.Products.{IsRightGraph, IsLeftGraph};
ghost use Rattle.monoid_theory.specs.Green.{IsInRightIdeal, IsInLeftIdeal, IsInIdeal, IsR, IsL, IsJ, IsH, IsD, IsIdempotent, AreMembers, IsRTrivial, IsLTrivial, IsJTrivial};

use language_theory::language::Relation;

/// R is an equivalence where the relation is a right congruence, and L, J and H are where it is a congruence. Words
/// that an equivalence relates are in one class of H.
pub fn greens_relations_are_equivalences<R: Relation>()
    ensures right { (k : ℕ) → IsRightCongruence k R.same → IsEquivalence k (IsR k R.same) }
    ensures left { (k : ℕ) → IsCongruence k R.same → IsEquivalence k (IsL k R.same) }
    ensures two_sided { (k : ℕ) → IsCongruence k R.same → IsEquivalence k (IsJ k R.same) }
    ensures both { (k : ℕ) → IsCongruence k R.same → IsEquivalence k (IsH k R.same) }
    ensures related { (k : ℕ) → IsEquivalence k R.same → (s t : List ℕ) → Over k s → Over k t
        → R.same s t → IsH k R.same s t }
{}

/// R and L are contained in J.
pub fn r_and_l_are_in_j<R: Relation>()
    ensures right { (k : ℕ) (s t : List ℕ) → IsR k R.same s t → IsJ k R.same s t }
    ensures left { (k : ℕ) (s t : List ℕ) → IsL k R.same s t → IsJ k R.same s t }
{}

/// R is kept by multiplication on the left, and L by multiplication on the right.
pub fn r_and_l_are_kept_by_products<R: Relation>()
    ensures right { (k : ℕ) → IsCongruence k R.same → (w s t : List ℕ) → Over k w → Over k s
        → Over k t → IsR k R.same s t → IsR k R.same (w ++ s) (w ++ t) }
    ensures left { (k : ℕ) → IsCongruence k R.same → (w s t : List ℕ) → Over k w → Over k s
        → Over k t → IsL k R.same s t → IsL k R.same (s ++ w) (t ++ w) }
{}

/// In a finite monoid J is D, and a product that stays in the J-class of a factor stays in its R-class or L-class
/// (Green).
pub fn j_is_d_in_a_finite_monoid<R: Relation>()
    ensures same { (k : ℕ) (words : List (List ℕ)) → IsCongruence k R.same
        → AreRepresentatives k R.same words → (s t : List ℕ) → Over k s → Over k t
        → IsJ k R.same s t ↔ IsD k R.same s t }
    ensures right { (k : ℕ) (words : List (List ℕ)) → IsCongruence k R.same
        → AreRepresentatives k R.same words → (s x : List ℕ) → Over k s → Over k x
        → IsInIdeal k R.same s (s ++ x) → IsR k R.same s (s ++ x) }
    ensures left { (k : ℕ) (words : List (List ℕ)) → IsCongruence k R.same
        → AreRepresentatives k R.same words → (s x : List ℕ) → Over k s → Over k x
        → IsInIdeal k R.same s (x ++ s) → IsL k R.same s (x ++ s) }
{}

/// A finite monoid is J-trivial exactly where it is both R-trivial and L-trivial.
pub fn trivial_on_both_sides<R: Relation>()
    ensures both { (k : ℕ) (words : List (List ℕ)) → IsCongruence k R.same
        → AreRepresentatives k R.same words → IsRTrivial k R.same → IsLTrivial k R.same
        → IsJTrivial k R.same }
    ensures right { (k : ℕ) → IsJTrivial k R.same → IsRTrivial k R.same }
    ensures left { (k : ℕ) → IsJTrivial k R.same → IsLTrivial k R.same }
{}

/// A finite monoid is R-, L- or J-trivial exactly where no two different listed words are in that relation.
pub fn listed_words_tell_trivial_monoids<R: Relation>()
    ensures right { (k : ℕ) (words : List (List ℕ)) → IsRightCongruence k R.same
        → AreRepresentatives k R.same words → IsRTrivial k R.same
        ↔ ((i j : ℕ) → i < length words → j < length words
        → IsR k R.same (word_at words i) (word_at words j) → i ≡ j) }
    ensures left { (k : ℕ) (words : List (List ℕ)) → IsCongruence k R.same
        → AreRepresentatives k R.same words → IsLTrivial k R.same
        ↔ ((i j : ℕ) → i < length words → j < length words
        → IsL k R.same (word_at words i) (word_at words j) → i ≡ j) }
    ensures two_sided { (k : ℕ) (words : List (List ℕ)) → IsCongruence k R.same
        → AreRepresentatives k R.same words → IsJTrivial k R.same
        ↔ ((i j : ℕ) → i < length words → j < length words
        → IsJ k R.same (word_at words i) (word_at words j) → i ≡ j) }
{}

/// Green's lemma: where s x is t and t y is s, multiplication by x on the right takes the L-class of s into that of t,
/// keeps each element in its R-class, and is undone by y.
pub fn greens_lemma<R: Relation>()
    ensures row { (k : ℕ) → IsCongruence k R.same → (s t x y : List ℕ) → Over k s → Over k t
        → Over k x → Over k y → R.same t (s ++ x) → R.same s (t ++ y) → (u : List ℕ) → Over k u
        → IsL k R.same u s → IsR k R.same u (u ++ x) }
    ensures column { (k : ℕ) → IsCongruence k R.same → (s t x y : List ℕ) → Over k s → Over k t
        → Over k x → Over k y → R.same t (s ++ x) → R.same s (t ++ y) → (u : List ℕ) → Over k u
        → IsL k R.same u s → IsL k R.same (u ++ x) t }
    ensures undone { (k : ℕ) → IsCongruence k R.same → (s t x y : List ℕ) → Over k s → Over k t
        → Over k x → Over k y → R.same t (s ++ x) → R.same s (t ++ y) → (u : List ℕ) → Over k u
        → IsL k R.same u s → R.same ((u ++ x) ++ y) u }
{}

/// In a finite monoid the classes of H in one class of J, the cells of one box, have one number of elements.
pub fn cells_of_one_box_have_one_size<R: Relation>()
    ensures { (k : ℕ) (words : List (List ℕ)) → IsCongruence k R.same
        → AreRepresentatives k R.same words → (s t : List ℕ) → Over k s → Over k t
        → IsJ k R.same s t → (xs ys : List ℕ) → AreMembers (IsH k R.same) words s xs
        → AreMembers (IsH k R.same) words t ys → length xs ≡ length ys }
{}

/// The class of H of an idempotent, a cell with a star, is a group: the idempotent is its identity, products stay in
/// it, and each of its elements has an inverse in it. A class of H has at most one idempotent.
pub fn idempotent_classes_are_groups<R: Relation>()
    ensures identity { (k : ℕ) → IsCongruence k R.same → (e s : List ℕ) → Over k e → Over k s
        → IsIdempotent R.same e → IsH k R.same s e → R.same (e ++ s) s × R.same (s ++ e) s }
    ensures product { (k : ℕ) → IsCongruence k R.same → (e s t : List ℕ) → Over k e → Over k s
        → Over k t → IsIdempotent R.same e → IsH k R.same s e → IsH k R.same t e
        → IsH k R.same (s ++ t) e }
    ensures inverse { (k : ℕ) → IsCongruence k R.same → (e s : List ℕ) → Over k e → Over k s
        → IsIdempotent R.same e → IsH k R.same s e → (t : List ℕ) × Over k t × IsH k R.same t e
        × R.same (s ++ t) e × R.same (t ++ s) e }
    ensures one { (k : ℕ) → IsCongruence k R.same → (e f : List ℕ) → Over k e → Over k f
        → IsIdempotent R.same e → IsIdempotent R.same f → IsH k R.same e f → R.same e f }
{}

/// The ideals of an element are what walks from it lead to: in the right Cayley graph, in the left one, in one and
/// then the other. For right ideals a right congruence is enough.
pub fn ideals_are_walks<R: Relation>()
    ensures right { (k : ℕ) (words : List (List ℕ)) → IsRightCongruence k R.same
        → AreRepresentatives k R.same words → (d : Graph) → IsRightGraph k R.same words d
        → (i j : ℕ) → i < length words → j < length words
        → IsInRightIdeal k R.same (word_at words j) (word_at words i)
        ↔ ((x : List ℕ) × Over k x × (walk d i x ≡ j)) }
    ensures left { (k : ℕ) (words : List (List ℕ)) → IsCongruence k R.same
        → AreRepresentatives k R.same words → (e : Graph) → IsLeftGraph k R.same words e → (i j : ℕ)
        → i < length words → j < length words → IsInLeftIdeal k R.same (word_at words j)
        (word_at words i) ↔ ((x : List ℕ) × Over k x × (walk e i x ≡ j)) }
    ensures two_sided { (k : ℕ) (words : List (List ℕ)) → IsCongruence k R.same
        → AreRepresentatives k R.same words → (d e : Graph) → IsRightGraph k R.same words d
        → IsLeftGraph k R.same words e → (i j : ℕ) → i < length words → j < length words
        → IsInIdeal k R.same (word_at words j) (word_at words i)
        ↔ ((x y : List ℕ) × Over k x × Over k y × (walk e (walk d i x) y ≡ j)) }
{}

/// Relations that agree on words over k letters have the same Green's relations.
pub fn agreeing_relations_have_the_same_ideals<R: Relation, S: Relation>()
    ensures right { (k : ℕ) → Agree k R.same S.same → Agree k (IsR k R.same) (IsR k S.same) }
    ensures left { (k : ℕ) → Agree k R.same S.same → Agree k (IsL k R.same) (IsL k S.same) }
    ensures two_sided { (k : ℕ) → Agree k R.same S.same → Agree k (IsJ k R.same) (IsJ k S.same) }
    ensures both { (k : ℕ) → Agree k R.same S.same → Agree k (IsH k R.same) (IsH k S.same) }
    ensures product { (k : ℕ) → Agree k R.same S.same → Agree k (IsD k R.same) (IsD k S.same) }
{}

/// Where the elements are numbers, the values of words, an ideal of the value of s is what products with it have as
/// values. For right ideals it is enough that to have one value is a right congruence.
pub fn ideals_of_values()
    ensures right { (k : ℕ) (value : List ℕ → ℕ) → IsRightCongruence k (λ u v. value u ≡ value v)
        → (s t : List ℕ) → Over k s → IsInRightIdeal k (λ u v. value u ≡ value v) t s
        ↔ ((w y : List ℕ) × Over k w × Over k y × (value w ≡ value s)
        × (value (w ++ y) ≡ value t)) }
    ensures left { (k : ℕ) (value : List ℕ → ℕ) → IsCongruence k (λ u v. value u ≡ value v)
        → (s t : List ℕ) → Over k s → IsInLeftIdeal k (λ u v. value u ≡ value v) t s
        ↔ ((w x : List ℕ) × Over k w × Over k x × (value w ≡ value s)
        × (value (x ++ w) ≡ value t)) }
    ensures two_sided { (k : ℕ) (value : List ℕ → ℕ) → IsCongruence k (λ u v. value u ≡ value v)
        → (s t : List ℕ) → Over k s → IsInIdeal k (λ u v. value u ≡ value v) t s
        ↔ ((w x y : List ℕ) × Over k w × Over k x × Over k y × (value w ≡ value s)
        × (value (x ++ (w ++ y)) ≡ value t)) }
{}
