//! Laws of separating contexts.
ghost use Rattle.std.specs.Prelude.{◌≡◌, ◌⊎◌, ℕ, List};
ghost use Rattle.language_theory.specs.Words.{Over, word_at};
ghost use Rattle.language_theory.specs.Languages.{IsLeastWord};
ghost use Rattle.language_theory.specs.Automaton.{is_marked};
ghost use Rattle.language_theory.specs.Congruence.{Syntactic};
ghost use Rattle.language_theory.specs.ShortlexGraph.{walk};
ghost use Rattle.language_theory.specs.Nerode.{MinimalAutomaton, IsMinimal};
ghost use Rattle.monoid_theory.specs.Separation.{Separates, IsSeparation, IsFirstParting};

use language_theory::language::Language;

/// Two words have at most one least separating context.
pub fn separating_contexts_are_unique<L: Language>()
    ensures { (k : ℕ) (s t u v x y : List ℕ) → IsSeparation k L.has s t u v
        → IsSeparation k L.has s t x y → (u ≡ x) × (v ≡ y) }
{}

/// Words that a context separates are not congruent. Where the language has a minimal automaton, two words are
/// congruent or have a least separating context.
pub fn words_are_congruent_or_separated<L: Language>()
    ensures apart { (k : ℕ) (s t u v : List ℕ) → Over k u → Over k v → Separates L.has s t u v
        → ¬ Syntactic k L.has s t }
    ensures exists { (k : ℕ) (d : MinimalAutomaton) → IsMinimal k L.has d → (s t : List ℕ)
        → Over k s → Over k t → Syntactic k L.has s t
        ⊎ ((u v : List ℕ) × IsSeparation k L.has s t u v) }
{}

/// The least separating context, found in the minimal automaton: the least word of the first node from which the words
/// lead to two nodes, and the least word that leads from those to nodes of which one is final.
pub fn separating_contexts_by_nodes<L: Language>()
    ensures { (k : ℕ) (d : MinimalAutomaton) → IsMinimal k L.has d → (s t v : List ℕ) (i : ℕ)
        → Over k s → Over k t → IsFirstParting d.graph s t i
        → IsLeastWord k (λ w. ¬ (is_marked d.finals (walk d.graph (walk d.graph i s) w)
        ≡ is_marked d.finals (walk d.graph (walk d.graph i t) w))) v
        → IsSeparation k L.has s t (word_at d.words i) v }
{}
