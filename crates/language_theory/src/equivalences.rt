//! Laws of Nerode's equivalence and of the syntactic congruence (Pin: "Mathematical Foundations of Automata Theory").

ghost use Rattle.std.specs.Prelude.{◌<◌, ◌++◌, ◌↔◌, ℕ, List};
ghost use Rattle.language_theory.specs.Words.{Over};
ghost use Rattle.language_theory.specs.Congruence.{Syntactic, IsRightCongruence, IsCongruence, Agree, MapsAlike};
ghost use Rattle.language_theory.specs.Languages.{HaveSameWords};
ghost use Rattle.language_theory.specs.Nerode.{Nerode};

use crate::language::{Language, Relation};

/// Nerode's equivalence is the coarsest right congruence for which the language is a union of classes.
pub fn nerode_is_the_coarsest_right_congruence<L: Language, R: Relation>()
    ensures right { (k : ℕ) → IsRightCongruence k (Nerode k L.has) }
    ensures classes { (k : ℕ) (u v : List ℕ) → Nerode k L.has u v → L.has u → L.has v }
    ensures coarsest { (k : ℕ) → IsRightCongruence k R.same
        → ((u v : List ℕ) → Over k u → Over k v → R.same u v → L.has u → L.has v) → (u v : List ℕ)
        → Over k u → Over k v → R.same u v → Nerode k L.has u v }
{}

/// The syntactic congruence is the coarsest congruence for which the language is a union of classes.
pub fn syntactic_is_the_coarsest_congruence<L: Language, R: Relation>()
    ensures congruence { (k : ℕ) → IsCongruence k (Syntactic k L.has) }
    ensures classes { (k : ℕ) (u v : List ℕ) → Syntactic k L.has u v → L.has u → L.has v }
    ensures coarsest { (k : ℕ) → IsCongruence k R.same
        → ((u v : List ℕ) → Over k u → Over k v → R.same u v → L.has u → L.has v) → (u v : List ℕ)
        → Over k u → Over k v → R.same u v → Syntactic k L.has u v }
{}

/// Words are syntactically congruent exactly where they are Nerode equivalent behind each word.
pub fn syntactic_is_nerode_behind_words<L: Language>()
    ensures nerode { (k : ℕ) (u v : List ℕ) → Syntactic k L.has u v → Nerode k L.has u v }
    ensures behind { (k : ℕ) (u v : List ℕ) → Syntactic k L.has u v
        ↔ ((p : List ℕ) → Over k p → Nerode k L.has (p ++ u) (p ++ v)) }
{}

/// Languages with the same words over k letters have the same equivalences there.
pub fn agreeing_languages_have_one_congruence<L: Language, M: Language>()
    ensures nerode { (k : ℕ) → HaveSameWords k L.has M.has
        → Agree k (Nerode k L.has) (Nerode k M.has) }
    ensures syntactic { (k : ℕ) → HaveSameWords k L.has M.has
        → Agree k (Syntactic k L.has) (Syntactic k M.has) }
{}

/// To agree on the words over k letters is an equivalence of relations.
pub fn agreement_is_an_equivalence<R: Relation, S: Relation, T: Relation>()
    ensures itself { (k : ℕ) → Agree k R.same R.same }
    ensures turned { (k : ℕ) → Agree k R.same S.same → Agree k S.same R.same }
    ensures joined { (k : ℕ) → Agree k R.same S.same → Agree k S.same T.same
        → Agree k R.same T.same }
{}

/// To move n points alike is a congruence, where each letter moves points to points.
pub fn maps_give_a_congruence()
    ensures { (k n : ℕ) (image : ℕ → ℕ → ℕ) → ((p a : ℕ) → p < n → a < k → image p a < n)
        → IsCongruence k (MapsAlike n image) }
{}
