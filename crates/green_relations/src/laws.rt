//! What the boxes of Green's classes are, and that a monoid determines its classes, its boxes and its longest chain.
ghost use Rattle.std.specs.Prelude.{◌≡◌, ◌<◌, ◌≤◌, ◌↔◌, ℕ, Bool, IsTrue, List, length};
ghost use Rattle.language_theory.specs.Words.{Over, word_at};
ghost use Rattle.language_theory.specs.Automaton.{is_marked};
ghost use Rattle.language_theory.specs.Congruence.{IsCongruence, Agree};
ghost use Rattle.language_theory.specs.Representatives.{AreRepresentatives};
ghost use Rattle.monoid_theory.specs.Green.{IsIdempotent};
ghost use Rattle.green_relations.specs.GreenClasses.{GreenClasses, AreGreens};
ghost use Rattle.green_relations.specs.EggBoxes.{AreBoxesOf, AreEggBoxes, box_at, row_at, cell_at};
ghost use Rattle.green_relations.specs.Chains.{IsChain, IsLongestChain};

use language_theory::language::Relation;

/// The boxes of Green's classes of the monoid of a congruence are the monoid's egg-box diagram.
pub fn boxes_of_greens_classes_are_egg_boxes<R: Relation>()
    ensures { (k : ℕ) (words : List (List ℕ)) (g : GreenClasses)
        (boxes : List (List (List (List ℕ)))) → IsCongruence k R.same
        → AreRepresentatives k R.same words → AreGreens k R.same words g → AreBoxesOf g boxes
        → AreEggBoxes k R.same words boxes }
{}

/// A monoid has one egg-box diagram.
pub fn one_egg_box_diagram<R: Relation>()
    ensures { (k : ℕ) (words : List (List ℕ)) (xs ys : List (List (List (List ℕ))))
        → AreEggBoxes k R.same words xs → AreEggBoxes k R.same words ys → xs ≡ ys }
{}

/// In the egg-box diagram of a monoid all cells of a box have one number of elements.
pub fn cells_of_a_box_have_one_size<R: Relation>()
    ensures { (k : ℕ) (words : List (List ℕ)) (boxes : List (List (List (List ℕ))))
        → IsCongruence k R.same → AreRepresentatives k R.same words
        → AreEggBoxes k R.same words boxes → (b y x v u : ℕ) → b < length boxes
        → y < length (box_at boxes b) → x < length (row_at (box_at boxes b) y)
        → v < length (box_at boxes b) → u < length (row_at (box_at boxes b) v)
        → length (cell_at (row_at (box_at boxes b) y) x)
        ≡ length (cell_at (row_at (box_at boxes b) v) u) }
{}

/// The idempotents of a monoid have one list of marks.
pub fn one_list_of_idempotents<R: Relation>()
    ensures { (words : List (List ℕ)) (marks others : List Bool) → length marks ≡ length words
        → length others ≡ length words
        → ((i : ℕ) → i < length words
        → IsTrue (is_marked marks i) ↔ IsIdempotent R.same (word_at words i))
        → ((i : ℕ) → i < length words
        → IsTrue (is_marked others i) ↔ IsIdempotent R.same (word_at words i))
        → marks ≡ others }
{}

/// Relations that agree on words over k letters have the same classes and the same idempotents.
pub fn agreeing_relations_have_the_same_classes<R: Relation, S: Relation>()
    ensures { (k : ℕ) (words : List (List ℕ)) (g : GreenClasses) → Agree k R.same S.same
        → ((i : ℕ) → i < length words → Over k (word_at words i)) → AreGreens k R.same words g
        → AreGreens k S.same words g }
{}

/// A monoid has one longest chain of ideals.
pub fn longest_chains_are_one<R: Relation>()
    ensures { (k : ℕ) (words : List (List ℕ)) (xs ys : List ℕ) → IsLongestChain k R.same words xs
        → IsLongestChain k R.same words ys → xs ≡ ys }
{}

/// A chain of ideals has at most as many elements as the monoid.
pub fn chains_are_short<R: Relation>()
    ensures { (k : ℕ) (words : List (List ℕ)) (chain : List ℕ) → IsCongruence k R.same
        → AreRepresentatives k R.same words → IsChain k R.same words chain
        → length chain ≤ length words }
{}

/// Relations that agree on words over k letters have the same longest chain of ideals.
pub fn agreeing_relations_have_the_same_longest_chain<R: Relation, S: Relation>()
    ensures { (k : ℕ) (words : List (List ℕ)) (chain : List ℕ) → Agree k R.same S.same
        → ((i : ℕ) → i < length words → Over k (word_at words i))
        → IsLongestChain k R.same words chain → IsLongestChain k S.same words chain }
{}
