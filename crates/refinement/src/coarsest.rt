//! The coarsest partition of the nodes of a shortlex graph: Hopcroft's splits, and Moore's rounds to see that nothing is
//! left to split.
ghost use Rattle.std.specs.Prelude.{◌≡◌, ◌<◌, ◌↔◌, ◌++◌, ℕ, List, [], ◌∷◌, Bool, length, slice_index, nat_eq, IsTrue, IfOk, OnOk};
ghost use Rattle.std.specs.Cmp.Lexicographic.{pointwise, lists_per, lists_equiv};
ghost use Rattle.std.specs.Hash as fed;
ghost use Rattle.std.specs.Hash.{items_Alike};
ghost use Rattle.std.proofs.Common.{rules};
ghost use Rattle.language_theory.specs.ShortlexGraph.{IsGraph, IsCoarsest};
ghost use Rattle.refinement.specs.Refinement.{Classes, signature, target_classes, IsSplit};

use crate::splitting::split_all;
use exploration::ShortlexGraph;
use indexmap::IndexSet;
use std::alloc::Global;
use std::hash::{Hash, Hasher};
use std::marker::Model;
use syn_words::Memory;

/// A partition of the nodes of a graph: the number of its classes, and the class of each node. Its value is the record
/// `Classes`.
#[derive(Debug, Drop)]
pub struct Partition {
    count: u32,
    classes: Vec<u32>,
}

impl Model for Partition {
    ghost Value = { Classes };

    ghost view = { λ p. record { count = p.count; classes = p.classes.items } };
}

impl Partition {
    /// The number of classes.
    pub fn count(&self) -> u32
        ensures { result ≡ self.now.count }
    {
        self.count
    }

    /// The class of each node.
    pub fn classes(&self) -> &[u32]
        ensures { result.now ≡ self.now.classes }
    {
        self.classes.as_slice()
    }

    /// The class of a node. Condition: the node is in range.
    pub fn class_of(&self, node: u32) -> u32
        requires { node < length self.now.classes }
        ensures { result ≡ slice_index self.now.classes node }
    {
        self.classes[node as usize]
    }

    /// Whether the classes are the same.
    fn is_same(&self, other: &Partition) -> bool
        ensures { IsTrue result ↔ (self.now.classes ≡ other.now.classes) }
    {
        self.classes.as_slice() == other.classes.as_slice()
    }
}

/// What a round sees of a node: its mark, its class, and the classes of its targets.
#[derive(Drop)]
struct Signature {
    parts: Vec<u32>,
}

impl Model for Signature {
    ghost use Rattle.std.specs.Prelude.{List, ℕ};

    ghost Value = { List ℕ };

    ghost view = { λ s. s.parts.items };
}

impl PartialEq for Signature {
    ghost eq = { pointwise nat_eq };

    ghost laws = { lists_per (Prim.search rules) };

    fn eq(&self, other: &Signature) -> bool {
        self.parts.as_slice() == other.parts.as_slice()
    }
}

impl Eq for Signature {
    ghost laws = { lists_equiv (Prim.search rules) };
}

impl Hash for Signature {
    ghost hash_input = { fed.slice fed.u32 };

    ghost respects_eq = { (items_Alike {F = fed.u32} (record { fed = Prim.search rules })).fed };

    fn hash<H: Hasher>(&self, state: &mut H) {
        self.parts.hash(state);
    }
}

impl Signature {
    fn of(
        alloc: Global,
        graph: &ShortlexGraph,
        marks: &[bool],
        classes: &[u32],
        node: u32,
    ) -> Result<Signature, Memory>
        requires graph { IsGraph graph.now }
        requires marks { length marks.now ≡ graph.now.size }
        requires classes { length classes.now ≡ graph.now.size }
        requires node { node < graph.now.size }
        ensures { IfOk result (λ s. s ≡ signature graph.now marks.now classes.now node) }
    {
        let mut parts = Vec::with_capacity(alloc, usize::from(graph.letters()) + 2)?;
        parts.push(u32::from(marks[node as usize]))?;
        parts.push(classes[node as usize])?;
        push_target_classes(graph, classes, node, &mut parts)?;
        Ok(Signature { parts })
    }
}

/// Puts the classes of a node's targets behind what is there.
pub(crate) fn push_target_classes(
    graph: &ShortlexGraph,
    classes: &[u32],
    node: u32,
    into: &mut Vec<u32>,
) -> Result<(), Memory>
    requires graph { IsGraph graph.now }
    requires classes { length classes.now ≡ graph.now.size }
    requires node { node < graph.now.size }
    ensures { OnOk result (into.new.items
        ≡ into.old.items ++ target_classes graph.now classes.now node graph.now.letters) }
{
    for letter in 0..graph.letters() {
        into.push(classes[graph.step(node, letter) as usize])?;
    }
    Ok(())
}

/// The coarsest partition of the nodes that respects the marks and the letters: two nodes share a class exactly if no
/// word tells them apart. The classes are numbered in the order in which they first occur. Condition: there is a mark
/// for each node.
///
/// Hopcroft's splits take time linear in nodes times letters times the logarithm of the nodes. Moore's rounds then find
/// nothing more to split: the first numbers the classes, and the second is the last. They alone make the answer right,
/// so what the splits might leave undone would cost rounds.
pub fn refine(alloc: Global, graph: &ShortlexGraph, marks: &[bool]) -> Result<Partition, Memory>
    requires { length marks.now ≡ graph.now.size }
    ensures { IfOk result (λ p. IsCoarsest graph.now marks.now p.count p.classes) }
{
    let classes = split_all(alloc, graph, marks)?;
    let mut coarse = split(alloc, graph, marks, classes.as_slice())?;
    loop {
        let finer = split(alloc, graph, marks, coarse.classes())?;
        if finer.is_same(&coarse) {
            return Ok(finer);
        }
        coarse = finer;
    }
}

/// One of Moore's rounds: nodes stay together that have the same signature.
fn split(
    alloc: Global,
    graph: &ShortlexGraph,
    marks: &[bool],
    classes: &[u32],
) -> Result<Partition, Memory>
    requires marks { length marks.now ≡ graph.now.size }
    requires classes { length classes.now ≡ graph.now.size }
    ensures { IfOk result (λ p. IsSplit graph.now marks.now classes.now p) }
{
    let mut seen = IndexSet::new(alloc);
    let mut finer = Vec::with_capacity(alloc, graph.size() as usize)?;
    for node in 0..graph.size() {
        let signature = Signature::of(alloc, graph, marks, classes, node)?;
        let (class, _) = seen.insert_full(signature)?;
        finer.push(class as u32)?;
    }
    Ok(Partition {
        count: seen.len() as u32,
        classes: finer,
    })
}
