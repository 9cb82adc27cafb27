//! The theory of rational expressions: their languages, their position automata, and how texts spell them.
#![tactic(auto)]

pub mod examples;
mod notation;
mod signs;

ghost use Rattle.std.specs.Prelude.{◌≡◌, ◌↔◌, ◌⊎◌, ℕ, true, IsTrue, Some, List, [], ◌∷◌};
ghost use Rattle.language_theory.specs.Automaton.{Automaton, Accepts};
ghost use Rattle.expression_theory.specs.Expression.{Tree, Means, nodes, most_nodes};
ghost use Rattle.expression_theory.specs.Positions.{Begins, Follows, Ends, IsPositions};
ghost use Rattle.expression_theory.specs.FirstLast.{firsts, lasts, has, follows};
ghost use Rattle.expression_theory.specs.Grammar.{Sign, Spells, Union};
ghost use Rattle.expression_theory.specs.Frames.{tree_read};
ghost use Rattle.expression_theory.specs.Scan.{Class, FaultKind, TooDeep, TooLarge, most_open, nodes_from, IsAccepted, IsFault, SpellsTree};
ghost use Rattle.expression_theory.specs.Polish.{polish, trees};

pub use notation::Node;
pub use signs::{Class, Leaf, Quantifier, Sign};

/// A position automaton accepts exactly the words of its expression (Glushkov).
pub fn positions_accept_the_language()
    ensures { (t : Tree) (k : ℕ) (m : Automaton) → IsPositions t k m → (w : List ℕ) → Accepts m w
        ↔ Means t w }
{}

/// An expression has one position automaton at most over so many letters.
pub fn one_position_automaton()
    ensures { (t : Tree) (k : ℕ) (m n : Automaton) → IsPositions t k m → IsPositions t k n
        → m ≡ n }
{}

/// A text spells one tree at most.
pub fn one_tree()
    ensures { (text : List Class) (s t : Tree) → SpellsTree text s → SpellsTree text t → s ≡ t }
{}

/// A text in which no test of the scan fails spells a tree.
pub fn accepted_spells_a_tree()
    ensures { (text : List Class) → IsAccepted text → (t : Tree) × SpellsTree text t }
{}

/// An accepted text has no fault.
pub fn accepted_has_no_fault()
    ensures { (text : List Class) (kind : FaultKind) (at : ℕ) → IsAccepted text
        → ¬ IsFault text kind at }
{}

/// A text has one first fault at most.
pub fn one_fault()
    ensures { (text : List Class) (k l : FaultKind) (i j : ℕ) → IsFault text k i → IsFault text l j
        → (k ≡ l) × (i ≡ j) }
{}

/// A text that spells a tree is refused for its depth or its size alone.
pub fn only_limits_refuse_a_tree()
    ensures { (text : List Class) (kind : FaultKind) (at : ℕ) (t : Tree) → IsFault text kind at
        → SpellsTree text t → (kind ≡ TooDeep) ⊎ (kind ≡ TooLarge) }
{}

/// Each text is accepted or has a first fault.
pub fn every_text_is_accepted_or_has_a_fault()
    ensures { (text : List Class) → IsAccepted text
        ⊎ ((kind : FaultKind) × (at : ℕ) × IsFault text kind at) }
{}

/// The nodes that the scan counts are those of the tree.
pub fn scan_counts_the_nodes()
    ensures { (text : List Class) (t : Tree) → SpellsTree text t → nodes_from true text ≡ nodes t }
{}

/// Reading signs from the left, with frames, gives exactly the trees that the grammar spells.
pub fn frames_read_the_grammar()
    ensures { (w : List Sign) (t : Tree) → tree_read w ≡ Some t ↔ Spells Union w t }
{}

/// What begins, ends and follows in the words of an expression is computed on its tree.
pub fn tree_computes_its_steps()
    ensures begins { (t : Tree) (p : ℕ) → IsTrue (has (firsts t) p) ↔ Begins (Means t) p }
    ensures ends { (t : Tree) (p : ℕ) → IsTrue (has (lasts t) p) ↔ Ends (Means t) p }
    ensures follows { (t : Tree) (p q : ℕ) → IsTrue (follows t p q) ↔ Follows (Means t) p q }
{}

/// The most nodes of an expression, and the most parentheses that are open at once in its text.
pub fn the_limits()
    ensures nodes { most_nodes ≡ 4000 }
    ensures depth { most_open ≡ 200 }
{}

/// The Polish notation of a tree gives back the tree.
pub fn polish_gives_back_the_tree()
    ensures { (t : Tree) → trees (polish t) ≡ t ∷ [] }
{}
