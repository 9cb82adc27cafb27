//! Laws of the answers: each language has one, and the words of a witness are told apart at every level; and Simon's
//! theorem, that a level suffices exactly where the monoid is J-trivial.
ghost use Rattle.std.specs.Prelude.{◌≡◌, ◌<◌, ◌≤◌, ◌↔◌, ◌-◌, ◌*◌, ◌++◌, ◌∷◌, [], ℕ, List, Option, length};
ghost use Rattle.language_theory.specs.Words.{Over};
ghost use Rattle.language_theory.specs.Languages.{HaveSameWords};
ghost use Rattle.language_theory.specs.Congruence.{IsCongruence, Syntactic};
ghost use Rattle.language_theory.specs.Representatives.{AreRepresentatives};
ghost use Rattle.language_theory.specs.Nerode.{MinimalAutomaton, IsMinimal};
ghost use Rattle.monoid_theory.specs.Green.{IsJTrivial};
ghost use Rattle.green_relations.specs.Chains.{IsLongestChain};
ghost use Rattle.syntactic_monoid.specs.SyntacticMonoid.{SyntacticMonoid, IsSyntacticMonoid, recognised};
ghost use Rattle.level_search.specs.Levels.{Suffices};
ghost use Rattle.subword_theory.specs.ShortSubwords.{SameSubwords};
ghost use Rattle.piecewise_testable.specs.Sides.{IsTrivialOn};
ghost use Rattle.piecewise_testable.specs.Witness.{IsWitness, IsRTrivialAnswer};
ghost use Rattle.piecewise_testable.specs.Commuting.{IsCommutative, Commute, IsCommutativeWitness, IsCommutativeAnswer};
ghost use Rattle.piecewise_testable.specs.Answers.{IsPiecewiseAnswer, IsToldApart};

use answers::{CWitness, PtAnswer, PtWitness};
use language_theory::language::{Language, Relation};

/// For each n the two words of a witness have the same subwords of length at most n, and exactly one of them is in the
/// language, the first one as `first_in` says. So no level suffices, and the monoid is not trivial on the witness's
/// side, nor J-trivial.
pub fn a_witness_is_told_apart_at_every_level<L: Language>()
    ensures apart { (k n : ℕ) (w : PtWitness) → IsWitness k L.has w → IsToldApart L.has n w }
    ensures none { (k n : ℕ) (w : PtWitness) → IsWitness k L.has w
        → ¬ Suffices k L.has (SameSubwords n) }
    ensures side { (k : ℕ) (w : PtWitness) → IsWitness k L.has w
        → ¬ IsTrivialOn w.side k (Syntactic k L.has) }
    ensures not_trivial { (k : ℕ) (w : PtWitness) → IsWitness k L.has w
        → ¬ IsJTrivial k (Syntactic k L.has) }
{}

/// With the answer `Yes` this level suffices, and no smaller one does. With `NoneTo` no level up to this one does, and
/// with `No` none at all.
pub fn yes_is_the_least_level_that_suffices<L: Language>()
    ensures yes { (k most last n : ℕ) → IsPiecewiseAnswer k L.has most last (PtAnswer.Yes n)
        → Suffices k L.has (SameSubwords n) }
    ensures least { (k most last n m : ℕ) → IsPiecewiseAnswer k L.has most last (PtAnswer.Yes n)
        → m < n → ¬ Suffices k L.has (SameSubwords m) }
    ensures none { (k most last n m : ℕ) → IsPiecewiseAnswer k L.has most last (PtAnswer.NoneTo n)
        → m ≤ n → ¬ Suffices k L.has (SameSubwords m) }
    ensures no { (k most last m : ℕ) (w : PtWitness)
        → IsPiecewiseAnswer k L.has most last (PtAnswer.No w)
        → ¬ Suffices k L.has (SameSubwords m) }
{}

/// Elements commute exactly where letters do, and a monoid with a witness is not commutative.
pub fn letters_tell_commutative_monoids<R: Relation, L: Language>()
    ensures letters { (k : ℕ) → IsCongruence k R.same → IsCommutative k R.same
        ↔ ((a b : ℕ) → a < k → b < k → Commute R.same a b) }
    ensures witness { (k : ℕ) (w : CWitness) → IsCommutativeWitness k L.has w
        → ¬ IsCommutative k (Syntactic k L.has) }
{}

/// A language has one answer of each kind.
pub fn a_language_has_one_answer<L: Language>()
    ensures piecewise { (k most last : ℕ) (a b : PtAnswer) → IsPiecewiseAnswer k L.has most last a
        → IsPiecewiseAnswer k L.has most last b → a ≡ b }
    ensures r_trivial { (k : ℕ) (a b : Option PtWitness) → IsRTrivialAnswer k L.has a
        → IsRTrivialAnswer k L.has b → a ≡ b }
    ensures commutative { (k : ℕ) (a b : Option CWitness) → IsCommutativeAnswer k L.has a
        → IsCommutativeAnswer k L.has b → a ≡ b }
{}

/// Languages with the same words over k letters have the same answers.
pub fn languages_with_the_same_words_have_one_answer<L: Language, M: Language>()
    ensures piecewise { (k most last : ℕ) (a : PtAnswer) → HaveSameWords k L.has M.has
        → IsPiecewiseAnswer k L.has most last a → IsPiecewiseAnswer k M.has most last a }
    ensures r_trivial { (k : ℕ) (a : Option PtWitness) → HaveSameWords k L.has M.has
        → IsRTrivialAnswer k L.has a → IsRTrivialAnswer k M.has a }
    ensures commutative { (k : ℕ) (a : Option CWitness) → HaveSameWords k L.has M.has
        → IsCommutativeAnswer k L.has a → IsCommutativeAnswer k M.has a }
{}

/// The minimal automaton of a language is that of the language that its syntactic monoid recognises, as `piecewise`
/// wants it.
pub fn the_minimal_automaton_fits_the_monoid<L: Language>()
    ensures { (k : ℕ) (m : SyntacticMonoid) (d : MinimalAutomaton) → IsSyntacticMonoid k L.has m
        → IsMinimal k L.has d → IsMinimal m.graphs.right.letters (recognised m) d }
{}

/// In a J-trivial monoid, where n is the number of elements of the longest chain of ideals: a letter behind or before a
/// word that adds no subword of at most n letters keeps the element (Simon 1975).
pub fn a_letter_that_adds_no_short_subword_keeps_the_element<R: Relation>()
    ensures behind { (k : ℕ) (words : List (List ℕ)) (chain : List ℕ) → IsCongruence k R.same
        → AreRepresentatives k R.same words → IsJTrivial k R.same
        → IsLongestChain k R.same words chain → (u : List ℕ) (a : ℕ) → Over k u → a < k
        → SameSubwords (length chain) u (u ++ a ∷ []) → R.same (u ++ a ∷ []) u }
    ensures before { (k : ℕ) (words : List (List ℕ)) (chain : List ℕ) → IsCongruence k R.same
        → AreRepresentatives k R.same words → IsJTrivial k R.same
        → IsLongestChain k R.same words chain → (a : ℕ) (v : List ℕ) → a < k → Over k v
        → SameSubwords (length chain) v (a ∷ v) → R.same (a ∷ v) v }
{}

/// Simon's theorem (1975): in a J-trivial monoid, where n is the number of elements of the longest chain of ideals,
/// words with the same subwords of at most 2 n - 1 letters are one element.
pub fn simons_theorem<R: Relation>()
    ensures { (k : ℕ) (words : List (List ℕ)) (chain : List ℕ) → IsCongruence k R.same
        → AreRepresentatives k R.same words → IsJTrivial k R.same
        → IsLongestChain k R.same words chain → (u v : List ℕ) → Over k u → Over k v
        → SameSubwords (2 * length chain - 1) u v → R.same u v }
{}

/// Where the syntactic monoid of a language is J-trivial and its longest chain of ideals has n elements, level 2 n - 1
/// suffices (Simon 1975).
pub fn simons_level_suffices<L: Language>()
    ensures { (k : ℕ) (words : List (List ℕ)) (chain : List ℕ)
        → AreRepresentatives k (Syntactic k L.has) words
        → IsLongestChain k (Syntactic k L.has) words chain → IsJTrivial k (Syntactic k L.has)
        → Suffices k L.has (SameSubwords (2 * length chain - 1)) }
{}

/// Where a level suffices for a language, its syntactic monoid is J-trivial if it is finite.
pub fn a_sufficient_level_makes_it_j_trivial<L: Language>()
    ensures { (k n : ℕ) (words : List (List ℕ)) → AreRepresentatives k (Syntactic k L.has) words
        → Suffices k L.has (SameSubwords n) → IsJTrivial k (Syntactic k L.has) }
{}

/// A language with a finite syntactic monoid is piecewise testable, that is, some level suffices for it, exactly where
/// the monoid is J-trivial (Simon 1975).
pub fn piecewise_testable_exactly_where_j_trivial<L: Language>()
    ensures { (k : ℕ) (words : List (List ℕ)) → AreRepresentatives k (Syntactic k L.has) words
        → IsJTrivial k (Syntactic k L.has) ↔ ((n : ℕ) × Suffices k L.has (SameSubwords n)) }
{}
