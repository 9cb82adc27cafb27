//! What the graphs of "leads to the same element" say of a relation that agrees with it.
ghost use Rattle.std.specs.Prelude.{◌≡◌, ℕ};
ghost use Rattle.language_theory.specs.Congruence.{IsCongruence, Agree};
ghost use Rattle.language_theory.specs.ShortlexGraph.{SameNode};
ghost use Rattle.monoid_theory.specs.Products.{IsProduct};
ghost use Rattle.cayley_tables.specs.CayleyGraphs.{CayleyGraphs, AreCayleyGraphs, AreGraphsOf};

use language_theory::language::Relation;

/// Where words are related exactly if they lead to one element, the words and both graphs are those of the relation,
/// and
/// so is each product.
pub fn agreeing_relations_have_the_graphs<R: Relation>()
    ensures graphs { (c : CayleyGraphs) → AreCayleyGraphs c
        → Agree c.right.letters (SameNode c.right) R.same → AreGraphsOf c.right.letters R.same c }
    ensures products { (c : CayleyGraphs) (i j r : ℕ) → AreCayleyGraphs c
        → Agree c.right.letters (SameNode c.right) R.same
        → IsProduct (SameNode c.right) c.words i j r → IsProduct R.same c.words i j r }
{}

/// In the graphs of a congruence, words are related exactly if they lead to one element, and to do so is a congruence.
pub fn graphs_of_a_congruence_lead_to_its_classes<R: Relation>()
    ensures agree { (k : ℕ) (c : CayleyGraphs) → IsCongruence k R.same → AreGraphsOf k R.same c
        → Agree k (SameNode c.right) R.same }
    ensures graphs { (k : ℕ) (c : CayleyGraphs) → IsCongruence k R.same → AreGraphsOf k R.same c
        → AreCayleyGraphs c }
{}

/// A congruence has at most one pair of graphs, with one list of words.
pub fn one_pair_of_graphs<R: Relation>()
    ensures { (k : ℕ) (c d : CayleyGraphs) → IsCongruence k R.same → AreGraphsOf k R.same c
        → AreGraphsOf k R.same d → c ≡ d }
{}
