//! Laws of the local-divisor construction.
ghost use Rattle.std.specs.Prelude.{◌≡◌, ◌<◌, ◌≤◌, ◌+◌, ℕ, Bool, IsTrue, List, [], ◌∷◌, length, Option, Some, None};
ghost use Rattle.language_theory.specs.Words.{Over};
ghost use Rattle.language_theory.specs.Congruence.{IsCongruence};
ghost use Rattle.language_theory.specs.Representatives.{IsPlaceOf, AreRepresentatives};
ghost use Rattle.monoid_theory.specs.Products.{IsProduct};
ghost use Rattle.monoid_theory.specs.Powers.{IsAperiodic};
ghost use Rattle.star_free_theory.specs.LocalDivisor.{IsMonoid, IsLocal, InLocal};
ghost use Rattle.star_free_theory.specs.StarFree.{SfNode, IsStarFreeList};
ghost use Rattle.star_free_theory.specs.Instance.{Among, room, value};
ghost use Rattle.star_free_theory.specs.Construction.{Algebra, IsAlgebra, Task, count_from, done, nodes, treat_within, construction, DenotesFinals};
ghost use Rattle.star_free_theory.specs.Treating.{IsBegun, IsFitted, IsTreated};
ghost use Rattle.star_free_theory.specs.Examples.{ab_star_algebra, ab_star_first, ab_star_second, ab_star_whole, nodes_of, size_and_root};

use language_theory::language::Relation;

/// The local divisor at an element of a monoid is a monoid, whose identity is that element.
pub fn local_divisors_are_monoids()
    ensures { (elements : ℕ → Bool) (mul loc : ℕ → ℕ → ℕ) (one m : ℕ)
        → IsMonoid (λ x. IsTrue (elements x)) mul one → IsTrue (elements m)
        → IsLocal (λ x. IsTrue (elements x)) mul m loc
        → IsMonoid (InLocal (λ x. IsTrue (elements x)) mul m) loc m }
{}

/// Where an instance fits its list, what it is treated to is right: the node of each element denotes the words of the
/// universe with that image. Without a limit of nodes, and so deep, it is treated.
pub fn instances_are_treated()
    ensures right { (k : ℕ) (most : Option ℕ) (n : ℕ) (list : List SfNode) (t : Task)
        (r : List SfNode × (ℕ → ℕ)) → IsBegun list → IsFitted k list t
        → treat_within most n list t ≡ done r → IsTreated k list t r }
    ensures ends { (k n : ℕ) (list : List SfNode) (t : Task) → IsBegun list → IsFitted k list t
        → length t.letters + room (length t.elements) ≤ n
        → (r : List SfNode × (ℕ → ℕ)) × (treat_within None n list t ≡ done r) }
{}

/// Schützenberger's theorem: each list that the construction gives, within any limits, denotes exactly the words whose
/// value is among the finals; without a limit of nodes, and so deep, it gives a list; and it gives one list only.
pub fn the_construction_is_right()
    ensures right { (most : Option ℕ) (n k : ℕ) (a : Algebra) (finals : List ℕ)
        (r : List SfNode × ℕ) → IsAlgebra k a → ((p : ℕ) → Among finals p → Among a.elements p)
        → construction most n k a finals ≡ done r → DenotesFinals k a finals r.0 r.1 }
    ensures list { (most : Option ℕ) (n k : ℕ) (a : Algebra) (finals : List ℕ)
        (r : List SfNode × ℕ) → IsAlgebra k a → ((p : ℕ) → Among finals p → Among a.elements p)
        → construction most n k a finals ≡ done r → IsStarFreeList r.0 r.1 }
    ensures ends { (n k : ℕ) (a : Algebra) (finals : List ℕ) → IsAlgebra k a
        → ((p : ℕ) → Among finals p → Among a.elements p) → k + room (length a.elements) ≤ n
        → (r : List SfNode × ℕ) × (construction None n k a finals ≡ done r) }
    ensures one { (most some : Option ℕ) (n m k : ℕ) (a : Algebra) (finals : List ℕ)
        (r s : List SfNode × ℕ) → construction most n k a finals ≡ done r
        → construction some m k a finals ≡ done s → r ≡ s }
{}

/// The monoid of an aperiodic congruence, given by places in a list of representatives, is one for the construction,
/// and the value of a word is its place.
pub fn aperiodic_congruences_have_algebras<R: Relation>()
    ensures algebra { (k : ℕ) (words : List (List ℕ)) (product : ℕ → ℕ → ℕ) (image : ℕ → ℕ)
        → IsCongruence k R.same → AreRepresentatives k R.same words
        → ((i j : ℕ) → i < length words → j < length words
        → IsProduct R.same words i j (product i j))
        → ((a : ℕ) → a < k → IsPlaceOf R.same words (a ∷ []) (image a)) → IsAperiodic k R.same
        → IsAlgebra k (record {
          elements = count_from 0 (length words);
          product = product;
          identity = 0;
          image = image;
        }) }
    ensures value { (k : ℕ) (words : List (List ℕ)) (product : ℕ → ℕ → ℕ) (image : ℕ → ℕ)
        → IsCongruence k R.same → AreRepresentatives k R.same words
        → ((i j : ℕ) → i < length words → j < length words
        → IsProduct R.same words i j (product i j))
        → ((a : ℕ) → a < k → IsPlaceOf R.same words (a ∷ []) (image a)) → (w : List ℕ) → Over k w
        → IsPlaceOf R.same words w (value product 0 image w) }
{}

/// The list for (ab)* has 60 nodes, of which the last is the root, and a limit of 59 is met. The first instance, of b
/// alone, gives its elements 1, b and aa the nodes 2, 4 and 9; the second one gives a and aa the nodes 21 and 37; and so
/// the elements get the nodes 2, 38, 48, 57, 46 and 58.
pub fn ab_star_has_sixty_nodes()
    ensures enough { size_and_root (construction (Some 60) 400 2 ab_star_algebra (0 ∷ 4 ∷ []))
        ≡ (60, 59) }
    ensures few { construction (Some 59) 400 2 ab_star_algebra (0 ∷ 4 ∷ []) ≡ nodes }
    ensures first { nodes_of (0 ∷ 2 ∷ 3 ∷ []) ab_star_first ≡ 2 ∷ 4 ∷ 9 ∷ [] }
    ensures second { nodes_of (1 ∷ 3 ∷ []) ab_star_second ≡ 21 ∷ 37 ∷ [] }
    ensures elements { nodes_of (0 ∷ 1 ∷ 2 ∷ 3 ∷ 4 ∷ 5 ∷ []) ab_star_whole
        ≡ 2 ∷ 38 ∷ 48 ∷ 57 ∷ 46 ∷ 58 ∷ [] }
{}
