//! Laws of minimal automata.

ghost use Rattle.std.specs.Prelude.{◌≡◌, ◌<◌, ◌↔◌, ℕ, Bool, IsTrue, List, length, slice_index};
ghost use Rattle.language_theory.specs.Words.{Over};
ghost use Rattle.language_theory.specs.Automaton.{is_marked};
ghost use Rattle.language_theory.specs.Congruence.{Syntactic, Agree, MapsAlike};
ghost use Rattle.language_theory.specs.Languages.{HaveSameWords};
ghost use Rattle.language_theory.specs.Nerode.{Nerode, IsMinimal, MinimalAutomaton, accepted};
ghost use Rattle.language_theory.specs.ShortlexGraph.{Graph, node, target, SameNode, IsShortlex, IsQuotient, AreFirstWords, IsCoarsest};

use crate::language::Language;

/// Minimising: of a shortlex graph whose marked nodes are those of the language's words, the quotient by the coarsest
/// partition is the minimal automaton.
pub fn coarsest_quotient_is_minimal<L: Language>()
    ensures { (k : ℕ) (g q : Graph) (words first : List (List ℕ)) (marks finals : List Bool)
        (count : ℕ) (classes : List ℕ) → IsShortlex g words → g.letters ≡ k
        → ((w : List ℕ) → Over k w → IsTrue (is_marked marks (node g w)) ↔ L.has w)
        → IsCoarsest g marks count classes → IsQuotient g count classes q
        → AreFirstWords count classes words first → length finals ≡ count
        → ((i : ℕ) → i < g.size → is_marked finals (slice_index classes i) ≡ is_marked marks i)
        → IsMinimal k L.has (record { graph = q; finals = finals; words = first }) }
{}

/// A language has one minimal automaton, and so have languages with the same words over k letters.
pub fn one_minimal_automaton<L: Language, M: Language>()
    ensures one { (k : ℕ) (c d : MinimalAutomaton) → IsMinimal k L.has c → IsMinimal k L.has d
        → c ≡ d }
    ensures agreeing { (k : ℕ) (d : MinimalAutomaton) → HaveSameWords k L.has M.has
        → IsMinimal k L.has d → IsMinimal k M.has d }
{}

/// In the minimal automaton words are Nerode equivalent exactly where they lead from the root to one node, and
/// syntactically congruent exactly where they lead from each node to one node.
pub fn minimal_nodes_tell_words_apart<L: Language>()
    ensures nerode { (k : ℕ) (d : MinimalAutomaton) → IsMinimal k L.has d
        → Agree k (Nerode k L.has) (SameNode d.graph) }
    ensures syntactic { (k : ℕ) (d : MinimalAutomaton) → IsMinimal k L.has d
        → Agree k (Syntactic k L.has) (MapsAlike d.graph.size (target d.graph)) }
{}

/// A language's minimal automaton accepts that language, and is the minimal automaton of the language that it accepts.
pub fn minimal_automata_accept_their_languages<L: Language>()
    ensures words { (k : ℕ) (d : MinimalAutomaton) → IsMinimal k L.has d → HaveSameWords k (accepted d) L.has }
    ensures minimal { (k : ℕ) (d : MinimalAutomaton) → IsMinimal k L.has d → IsMinimal k (accepted d) d }
{}
