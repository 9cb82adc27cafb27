//! The nodes that the root of a list needs, numbered anew.
ghost use Rattle.std.specs.Prelude.{◌≡◌, ◌<◌, ◌↔◌, ℕ, List, true, length, slice_index, IfOk, OnOk};
ghost use Rattle.language_theory.specs.Automaton.{is_marked};
ghost use Rattle.star_free_theory.specs.StarFree.{Denotes, IsStarFreeList, NamesBelow};
ghost use Rattle.star_free_theory.specs.declared.nodes.SfNode.{SfNode};
ghost use Rattle.star_free_theory.specs.Pruning.{IsAt, IsPruning, IsRenumbered, Names};
ghost use Rattle.star_free_lists.specs.SfList.{IsSfList, AreLettersBelow};
ghost use Rattle.star_free_lists.specs.Pruning.{AreDistinct, AreNeeded, AreNamedMarked};

use crate::list::SfList;
use star_free_theory::SfNode;
use std::alloc::Global;
use syn_words::Memory;

impl SfList {
    /// The list of the nodes that the root needs, itself too, in their order, numbered anew. It denotes the same words,
    /// and names no letter that this list doesn't name.
    pub fn prune(&self, alloc: Global) -> Result<SfList, Memory>
        ensures pruning { IfOk result (λ l. (kept : List ℕ)
            × IsPruning self.now.nodes self.now.root kept l.nodes l.root) }
        ensures words { IfOk result (λ l. (k : ℕ) (w : List ℕ)
            → Denotes k l.nodes l.root w ↔ Denotes k self.now.nodes self.now.root w) }
        ensures distinct { IfOk result (λ l. AreDistinct self.now.nodes → AreDistinct l.nodes) }
        ensures letters { IfOk result (λ l. (k : ℕ) → AreLettersBelow k self.now.nodes
            → AreLettersBelow k l.nodes) }
    {
        let marks = needed(alloc, self.nodes(), self.root())?;
        let list = kept(alloc, self.nodes(), self.root(), marks.as_slice())?;
        Ok(list)
    }
}

/// The pruning of a list, as `SfList::prune` gives it.
pub fn prune(alloc: Global, list: &SfList) -> Result<SfList, Memory>
    ensures pruning { IfOk result (λ l. (kept : List ℕ)
        × IsPruning list.now.nodes list.now.root kept l.nodes l.root) }
    ensures words { IfOk result (λ l. (k : ℕ) (w : List ℕ)
        → Denotes k l.nodes l.root w ↔ Denotes k list.now.nodes list.now.root w) }
    ensures distinct { IfOk result (λ l. AreDistinct list.now.nodes → AreDistinct l.nodes) }
    ensures letters { IfOk result (λ l. (k : ℕ) → AreLettersBelow k list.now.nodes
        → AreLettersBelow k l.nodes) }
{
    let pruned = list.prune(alloc)?;
    Ok(pruned)
}

/// Marks of the nodes that the root needs.
fn needed(alloc: Global, nodes: &[SfNode], root: u32) -> Result<Vec<bool>, Memory>
    requires { IsStarFreeList nodes.now root }
    ensures { IfOk result (λ v. AreNeeded nodes.now root v.items) }
{
    let mut marks = vec![in alloc; false; nodes.len()]?;
    marks[root as usize] = true;
    for n in (0..nodes.len()).rev() {
        if marks[n] {
            mark_named(nodes[n], &mut marks);
        }
    }
    Ok(marks)
}

/// Marks the nodes that a node names. Condition: they are in range.
fn mark_named(node: SfNode, marks: &mut Vec<bool>)
    requires { NamesBelow (length marks.old.items) node }
    ensures { AreNamedMarked node marks.old.items marks.new.items }
{
    match node {
        SfNode::Not(part) => marks[part as usize] = true,
        SfNode::Cat(left, right) | SfNode::Or(left, right) | SfNode::And(left, right) => {
            marks[left as usize] = true;
            marks[right as usize] = true;
        }
        _ => {}
    }
}

/// The list of the marked nodes, numbered anew. Condition: these are the nodes that the root needs.
fn kept(alloc: Global, nodes: &[SfNode], root: u32, marks: &[bool]) -> Result<SfList, Memory>
    requires list { IsSfList (record { nodes = nodes.now; root = root }) }
    requires marks { AreNeeded nodes.now root marks.now }
    ensures { IfOk result (λ l. (kept : List ℕ)
        × IsPruning nodes.now root kept l.nodes l.root) }
{
    let mut kept = Vec::new(alloc);
    let mut places = vec![in alloc; 0; nodes.len()]?;
    for (n, &node) in nodes.iter().enumerate() {
        if marks[n] {
            places[n] = kept.len() as u32;
            kept.push(renumbered(node, places.as_slice()))?;
        }
    }
    Ok(SfList::from_nodes(kept, places[root as usize]))
}

/// A node, with the new numbers of the nodes that it names. Condition: these are in range.
fn renumbered(node: SfNode, places: &[u32]) -> SfNode
    requires { NamesBelow (length places.now) node }
    ensures { (kept : List ℕ) → ((i : ℕ) → Names node i → IsAt kept (slice_index places.now i) i)
        → IsRenumbered kept node result }
{
    match node {
        SfNode::Not(part) => SfNode::Not(places[part as usize]),
        SfNode::Cat(left, right) => SfNode::Cat(places[left as usize], places[right as usize]),
        SfNode::Or(left, right) => SfNode::Or(places[left as usize], places[right as usize]),
        SfNode::And(left, right) => SfNode::And(places[left as usize], places[right as usize]),
        other => other,
    }
}

/// A list has one pruning.
pub fn a_list_has_one_pruning()
    ensures { (nodes : List SfNode) (root : ℕ) (kept others : List ℕ) (pruned list : List SfNode)
        (place number : ℕ) → IsPruning nodes root kept pruned place
        → IsPruning nodes root others list number
        → (kept ≡ others) × (pruned ≡ list) × (place ≡ number) }
{}
