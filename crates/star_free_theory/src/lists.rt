//! Laws of star-free lists.
ghost use Rattle.std.specs.Prelude.{◌≤◌, ◌+◌, ◌++◌, ◌↔◌, ℕ, List};
ghost use Rattle.language_theory.specs.Words.{Over, power};
ghost use Rattle.language_theory.specs.Languages.{HaveSameWords};
ghost use Rattle.monoid_theory.specs.Powers.{NeverSettle};
ghost use Rattle.star_free_theory.specs.StarFree.{SfNode, Denotes, IsStarFreeList, settling};
ghost use Rattle.star_free_theory.specs.Pruning.{IsPruning};

use language_theory::language::Language;

/// A node denotes words over the letters alone.
pub fn nodes_denote_words_over_the_letters()
    ensures { (k : ℕ) (list : List SfNode) (n : ℕ) (w : List ℕ) → Denotes k list n w → Over k w }
{}

/// The words of a node settle: from the settling number on, one more x between two words changes nothing.
pub fn star_free_languages_settle()
    ensures { (k : ℕ) (list : List SfNode) (node n : ℕ) (u x v : List ℕ) → Over k u → Over k x
        → Over k v → settling list node ≤ n → Denotes k list node (u ++ (power n x ++ v))
        ↔ Denotes k list node (u ++ (power (n + 1) x ++ v)) }
{}

/// Where u, x and v never settle, no star-free list denotes the language (Schützenberger).
pub fn a_language_that_never_settles_is_not_star_free<L: Language>()
    ensures { (k : ℕ) (u x v : List ℕ) → Over k u → Over k x → Over k v → NeverSettle L.has u x v
        → (list : List SfNode) (root : ℕ) → ¬ HaveSameWords k L.has (Denotes k list root) }
{}

/// Pruning a star-free list gives one that denotes the same.
pub fn pruning_keeps_the_language()
    ensures list { (list : List SfNode) (root : ℕ) (kept : List ℕ) (pruned : List SfNode) (place : ℕ)
        → IsStarFreeList list root → IsPruning list root kept pruned place
        → IsStarFreeList pruned place }
    ensures words { (list : List SfNode) (root : ℕ) (kept : List ℕ) (pruned : List SfNode) (place : ℕ)
        → IsStarFreeList list root → IsPruning list root kept pruned place → (k : ℕ) (w : List ℕ)
        → Denotes k pruned place w ↔ Denotes k list root w }
{}
