//! Laws of shortlex graphs and of their quotients.

ghost use Rattle.std.specs.Prelude.{◌≡◌, ◌<◌, ◌+◌, ◌*◌, ◌++◌, ◌∷◌, ◌↔◌, [], ℕ, List, length, slice_index};
ghost use Rattle.language_theory.specs.Words.{Over, IsPrefix, ◌⊏◌, word_at};
ghost use Rattle.language_theory.specs.Congruence.{IsRightCongruence, IsCongruence, Agree, MapsAlike};
ghost use Rattle.language_theory.specs.Languages.{IsLeastWord};
ghost use Rattle.language_theory.specs.Links.{IsPrefixLink};
ghost use Rattle.language_theory.specs.ShortlexGraph.{Graph, target, walk, node, SameNode, IsGraph, IsShortlex, IsGraphOf, IsNumbering, IsFirst, LeadsNonempty, IsPartition, IsQuotient, AreFirstWords};

use crate::language::{Property, Relation};

/// A walk goes on where the walk before it ends, stays among the nodes, and to lead to one node is a right congruence.
pub fn walks_follow_words()
    ensures joined { (g : Graph) (i : ℕ) (u v : List ℕ) → walk g i (u ++ v)
        ≡ walk g (walk g i u) v }
    ensures within { (g : Graph) (i : ℕ) (w : List ℕ) → IsGraph g → i < g.size → Over g.letters w
        → walk g i w < g.size }
    ensures right { (g : Graph) → IsRightCongruence g.letters (SameNode g) }
{}

/// Two shortlex graphs of one relation are equal, with equal words; so are those of relations that agree on the words
/// over k letters.
pub fn one_shortlex_graph<R: Relation, S: Relation>()
    ensures one { (k : ℕ) (g h : Graph) (xs ys : List (List ℕ)) → IsGraphOf k R.same g xs
        → IsGraphOf k R.same h ys → (g ≡ h) × (xs ≡ ys) }
    ensures agreeing { (k : ℕ) (g h : Graph) (xs ys : List (List ℕ)) → Agree k R.same S.same
        → IsGraphOf k R.same g xs → IsGraphOf k S.same h ys → (g ≡ h) × (xs ≡ ys) }
{}

/// The word of the root is empty, and a prefix of the least word of a node is the least word of the node to which it
/// leads.
pub fn least_words_are_closed_under_prefixes()
    ensures root { (g : Graph) (words : List (List ℕ)) → IsShortlex g words → word_at words 0 ≡ [] }
    ensures prefix { (g : Graph) (words : List (List ℕ)) → IsShortlex g words → (i : ℕ) (u : List ℕ)
        → i < g.size → IsPrefix u (word_at words i) → word_at words (node g u) ≡ u }
{}

/// In a shortlex graph the edge with the last letter of a node's word leads from the node of its prefix to the node.
pub fn prefix_links_are_edges()
    ensures { (g : Graph) (words : List (List ℕ)) → IsShortlex g words → (i p a : ℕ)
        → IsPrefixLink words i p a → target g p a ≡ i }
{}

/// A graph is a shortlex graph where its words begin with the empty one, rise, lead to their nodes, and no word of a
/// node with one letter more is smaller than the word of the node to which it leads.
pub fn letters_show_a_shortlex_graph()
    ensures { (g : Graph) (words : List (List ℕ)) → IsGraph g → length words ≡ g.size
        → ((i : ℕ) → i < g.size → Over g.letters (word_at words i))
        → ((i : ℕ) → i < g.size → node g (word_at words i) ≡ i)
        → ((i j : ℕ) → i < j → j < g.size → word_at words i ⊏ word_at words j) → word_at words 0
        ≡ [] → ((i a : ℕ) → i < g.size → a < g.letters
        → ¬ ((word_at words i ++ a ∷ []) ⊏ word_at words (target g i a))) → IsShortlex g words }
{}

/// Each class has exactly one first node.
pub fn classes_have_first_nodes()
    ensures first { (count : ℕ) (classes : List ℕ) (c : ℕ) → IsNumbering count classes → c < count
        → (i : ℕ) × IsFirst classes c i }
    ensures one { (classes : List ℕ) (c i j : ℕ) → IsFirst classes c i → IsFirst classes c j
        → i ≡ j }
{}

/// The quotient of a shortlex graph by a partition is a shortlex graph, whose words are those of the classes' first
/// nodes. In the quotient of any graph by a partition a word leads to the class of the node to which it led.
pub fn quotients_are_shortlex_graphs()
    ensures shortlex { (g q : Graph) (words first : List (List ℕ)) (count : ℕ) (classes : List ℕ)
        → IsShortlex g words → IsPartition g count classes → IsQuotient g count classes q
        → AreFirstWords count classes words first → IsShortlex q first }
    ensures node { (g q : Graph) (count : ℕ) (classes : List ℕ) → IsGraph g
        → IsPartition g count classes → IsQuotient g count classes q → (w : List ℕ)
        → Over g.letters w → node q w ≡ slice_index classes (node g w) }
{}

/// Of the nodes with a property, the first has the least word.
pub fn first_node_has_the_least_word<P: Property>()
    ensures { (g : Graph) (words : List (List ℕ)) → IsShortlex g words → (i : ℕ) → i < g.size
        → P.holds i → ((j : ℕ) → j < i → ¬ P.holds j)
        → IsLeastWord g.letters (λ w. P.holds (node g w)) (word_at words i) }
{}

/// The least nonempty word that leads to a node: to another node than the root, the node's word; to the root, the word
/// before the first edge that leads there, and that edge's letter. Where no edge leads to the root, the empty word alone
/// does.
pub fn nodes_have_least_nonempty_words()
    ensures node { (g : Graph) (words : List (List ℕ)) → IsShortlex g words → (i : ℕ) → 0 < i
        → i < g.size → IsLeastWord g.letters (LeadsNonempty g i) (word_at words i) }
    ensures root { (g : Graph) (words : List (List ℕ)) → IsShortlex g words → (j a : ℕ)
        → a < g.letters → IsFirst g.targets 0 (j * g.letters + a)
        → IsLeastWord g.letters (LeadsNonempty g 0) (word_at words j ++ a ∷ []) }
    ensures none { (g : Graph) → IsGraph g
        → ((p : ℕ) → p < length g.targets → ¬ (slice_index g.targets p ≡ 0)) → (w : List ℕ)
        → Over g.letters w → node g w ≡ 0 → w ≡ [] }
{}

/// To lead to one node is a congruence exactly where words that lead from the root to one node lead from every node to
/// one node.
pub fn congruences_move_all_nodes_alike()
    ensures { (g : Graph) (words : List (List ℕ)) → IsShortlex g words
        → IsCongruence g.letters (SameNode g)
        ↔ ((u v : List ℕ) → Over g.letters u → Over g.letters v → SameNode g u v
        → MapsAlike g.size (target g) u v) }
{}
