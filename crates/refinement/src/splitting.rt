//! Hopcroft's splits: a class is split by the nodes that a letter leads into a class, and the smaller part waits to split others.
ghost use Rattle.std.specs.Prelude.{◌≡◌, ◌<◌, ◌≤◌, ◌+◌, ℕ, List, length, slice_index, replicate, All, IfOk, OnOk};
ghost use Rattle.language_theory.specs.ShortlexGraph.{IsGraph};
ghost use Rattle.refinement.specs.Splitting.{Respects, IsClosed, IsInverseOf, AreGoals, IsMoved, AreMembers, IsFiner};
ghost use Rattle.refinement.specs.SplittingState.{IsState, IsSame};

use crate::inverse::{Inverse, inverses};
use crate::nodes::Nodes;
use exploration::ShortlexGraph;
use std::alloc::Global;
use syn_words::Memory;

/// The classes while they are split. Alike nodes share a class at all times.
#[derive(Drop)]
struct Splitting {
    /// The class of each node.
    class_of: Vec<u32>,
    /// The nodes that came into each class. Some may have left it.
    members: Vec<Nodes>,
    /// How many nodes each class has.
    sizes: Vec<u32>,
    /// How many nodes of each class the letter leads into the class that splits.
    met: Vec<u32>,
    /// The class into which these go: a new one, or their own.
    goals: Vec<u32>,
    /// Whether each class waits to split others.
    waiting: Vec<bool>,
    /// The classes that wait, behind those that waited.
    queue: Vec<u32>,
}

impl Splitting {
    /// All nodes in one class.
    fn new(alloc: Global, size: u32) -> Result<Splitting, Memory>
        requires { 0 < size }
        ensures state { IfOk result (λ s. IsState size s) }
        ensures one { IfOk result (λ s. (i : ℕ) → i < size → slice_index s.class_of.items i ≡ 0) }
    {
        let mut all = Vec::with_capacity(alloc, size as usize)?;
        for node in 0..size {
            all.push(node)?;
        }
        let mut members = Vec::new(alloc);
        members.push(Nodes::of(all))?;
        Ok(Splitting {
            class_of: repeated(alloc, 0, size as usize)?,
            members,
            sizes: repeated(alloc, size, 1)?,
            met: repeated(alloc, 0, 1)?,
            goals: repeated(alloc, 0, 1)?,
            waiting: vec![in alloc; false; 1]?,
            queue: Vec::new(alloc),
        })
    }

    /// Splits each class into its nodes among these and its other nodes.
    fn split(&mut self, alloc: Global, size: u32, nodes: &[u32]) -> Result<(), Memory>
        requires state { IsState size self.old }
        requires nodes { All (λ i. i < size) nodes.now }
        ensures state { OnOk result (IsState size self.new) }
        ensures moved { OnOk result
            (IsMoved size nodes.now self.old.class_of.items self.new.class_of.items) }
    {
        let touched = self.meet(alloc, size, nodes)?;
        for class in touched.as_slice() {
            self.part(alloc, size, *class)?;
        }
        let goals = self.goals_of(alloc, size, nodes)?;
        self.place(size, nodes, goals.as_slice())?;
        for class in touched.as_slice() {
            self.goals[*class as usize] = *class;
        }
        Ok(())
    }

    /// Counts the nodes of each class among these, and lists their classes.
    fn meet(&mut self, alloc: Global, size: u32, nodes: &[u32]) -> Result<Vec<u32>, Memory>
        requires state { IsState size self.old }
        requires nodes { All (λ i. i < size) nodes.now }
        ensures state { OnOk result (IsState size self.new) }
        ensures same { OnOk result (IsSame self.old self.new) }
        ensures touched { IfOk result (λ v. All (λ c. c < length self.new.members.items) v.items) }
    {
        let mut touched = Vec::new(alloc);
        for node in nodes {
            let class = self.class_of[*node as usize];
            let met = self.met[class as usize];
            if met == 0 {
                touched.push(class)?;
            }
            self.met[class as usize] = met.saturating_add(1);
        }
        Ok(touched)
    }

    /// Makes a new class for the nodes of a class that were met, unless all of them were. Of the two parts the smaller
    /// one is to wait, and the new one where the class waits already.
    fn part(&mut self, alloc: Global, size: u32, class: u32) -> Result<(), Memory>
        requires state { IsState size self.old }
        requires class { class < length self.old.members.items }
        ensures state { OnOk result (IsState size self.new) }
        ensures same { OnOk result (IsSame self.old self.new) }
    {
        let met = self.met[class as usize];
        let all = self.sizes[class as usize];
        let fresh = self.members.len();
        self.met[class as usize] = 0;
        if met >= all || fresh >= size as usize {
            return Ok(());
        }
        let rest = all - met;
        let smaller = met <= rest || self.waiting[class as usize];
        self.open(alloc, size, class, met, rest)?;
        if smaller {
            self.wait(size, fresh as u32)?;
            return Ok(());
        }
        self.wait(size, class)?;
        Ok(())
    }

    /// Makes a new class for the nodes of a class that were met. The others remain.
    fn open(
        &mut self,
        alloc: Global,
        size: u32,
        class: u32,
        met: u32,
        rest: u32,
    ) -> Result<(), Memory>
        requires state { IsState size self.old }
        requires class { class < length self.old.members.items }
        requires room { length self.old.members.items < size }
        ensures state { OnOk result (IsState size self.new) }
        ensures same { OnOk result (IsSame self.old self.new) }
        ensures more { OnOk result
            (length self.new.members.items ≡ length self.old.members.items + 1) }
    {
        let fresh = self.members.len() as u32;
        self.sizes[class as usize] = rest;
        self.goals[class as usize] = fresh;
        self.members.push(Nodes::new(alloc))?;
        self.sizes.push(met)?;
        self.met.push(0)?;
        self.goals.push(fresh)?;
        self.waiting.push(false)?;
        Ok(())
    }

    /// Lets a class wait to split others.
    fn wait(&mut self, size: u32, class: u32) -> Result<(), Memory>
        requires state { IsState size self.old }
        requires class { class < length self.old.members.items }
        ensures state { OnOk result (IsState size self.new) }
        ensures same { OnOk result (IsSame self.old self.new) }
    {
        self.waiting[class as usize] = true;
        self.queue.push(class)?;
        Ok(())
    }

    /// The class into which each of these nodes goes.
    fn goals_of(&self, alloc: Global, size: u32, nodes: &[u32]) -> Result<Vec<u32>, Memory>
        requires state { IsState size self.now }
        requires nodes { All (λ i. i < size) nodes.now }
        ensures goals { IfOk result
            (λ v. AreGoals self.now.goals.items self.now.class_of.items nodes.now
            (length nodes.now) v.items) }
        ensures within { IfOk result (λ v. All (λ c. c < length self.now.members.items) v.items) }
    {
        let mut goals = Vec::with_capacity(alloc, nodes.len())?;
        for node in nodes {
            goals.push(self.goals[self.class_of[*node as usize] as usize])?;
        }
        Ok(goals)
    }

    /// Puts each of these nodes into its class.
    fn place(&mut self, size: u32, nodes: &[u32], goals: &[u32]) -> Result<(), Memory>
        requires state { IsState size self.old }
        requires nodes { All (λ i. i < size) nodes.now }
        requires within { All (λ c. c < length self.old.members.items) goals.now }
        requires goals { AreGoals self.old.goals.items self.old.class_of.items nodes.now
            (length nodes.now)
            goals.now }
        ensures state { OnOk result (IsState size self.new) }
        ensures moved { OnOk result
            (IsMoved size nodes.now self.old.class_of.items self.new.class_of.items) }
        ensures same { OnOk result (length self.new.members.items ≡ length self.old.members.items) }
    {
        for at in 0..nodes.len() {
            self.put(size, nodes[at], goals[at])?;
        }
        Ok(())
    }

    /// Puts a node into a class.
    fn put(&mut self, size: u32, node: u32, class: u32) -> Result<(), Memory>
        requires state { IsState size self.old }
        requires node { node < size }
        requires class { class < length self.old.members.items }
        ensures state { OnOk result (IsState size self.new) }
        ensures here { OnOk result (slice_index self.new.class_of.items node ≡ class) }
        ensures others { OnOk result ((i : ℕ) → ¬ (i ≡ node)
            → slice_index self.new.class_of.items i ≡ slice_index self.old.class_of.items i) }
        ensures same { OnOk result (length self.new.members.items ≡ length self.old.members.items) }
    {
        if self.class_of[node as usize] != class {
            self.class_of[node as usize] = class;
            self.members[class as usize].push(node)?;
        }
        Ok(())
    }

    /// The nodes of a class.
    fn members_of(&self, alloc: Global, size: u32, class: u32) -> Result<Vec<u32>, Memory>
        requires state { IsState size self.now }
        requires class { class < length self.now.members.items }
        ensures members { IfOk result (λ v. AreMembers size self.now.class_of.items class v.items) }
    {
        let mut members = Vec::new(alloc);
        for node in self.members[class as usize].as_slice() {
            if self.class_of[*node as usize] == class {
                members.push(*node)?;
            }
        }
        Ok(members)
    }

    /// Forgets the nodes that have left a class.
    fn forget(&mut self, alloc: Global, size: u32, class: u32) -> Result<(), Memory>
        requires state { IsState size self.old }
        requires class { class < length self.old.members.items }
        ensures state { OnOk result (IsState size self.new) }
        ensures same { OnOk result (IsSame self.old self.new) }
    {
        let members = self.members_of(alloc, size, class)?;
        self.members[class as usize] = Nodes::of(members);
        Ok(())
    }

    /// Splits the classes by the nodes that lead into a class, letter by letter.
    fn split_by_class(
        &mut self,
        alloc: Global,
        graph: &ShortlexGraph,
        inverses: &[Inverse],
        class: u32,
    ) -> Result<(), Memory>
        requires graph { IsGraph graph.now }
        requires inverses { All (IsInverseOf graph.now) inverses.now }
        requires state { IsState graph.now.size self.old }
        requires class { class < length self.old.members.items }
        ensures state { OnOk result (IsState graph.now.size self.new) }
        ensures respects { OnOk result
            (IsFiner graph.now self.old.class_of.items self.new.class_of.items) }
    {
        self.waiting[class as usize] = false;
        self.forget(alloc, graph.size(), class)?;
        let splitter = self.members_of(alloc, graph.size(), class)?;
        for inverse in inverses {
            let sources = inverse.sources(alloc, graph, splitter.as_slice())?;
            self.split(alloc, graph.size(), sources.as_slice())?;
        }
        Ok(())
    }
}

/// A number, repeated.
fn repeated(alloc: Global, number: u32, count: usize) -> Result<Vec<u32>, Memory>
    ensures { IfOk result (λ v. v.items ≡ replicate count number) }
{
    Ok(vec![in alloc; number; count]?)
}

/// The marked nodes.
fn marked_nodes(alloc: Global, graph: &ShortlexGraph, marks: &[bool]) -> Result<Vec<u32>, Memory>
    requires { length marks.now ≡ graph.now.size }
    ensures within { IfOk result (λ v. All (λ i. i < graph.now.size) v.items) }
    ensures closed { IfOk result (λ v. IsClosed graph.now marks.now v.items) }
{
    let mut marked = Vec::new(alloc);
    for node in 0..graph.size() {
        if marks[node as usize] {
            marked.push(node)?;
        }
    }
    Ok(marked)
}

/// Classes in which alike nodes are together: Hopcroft's splits, from the marks on. A split makes one class more and lets
/// one class wait, so there are fewer rounds than nodes.
pub(crate) fn split_all(
    alloc: Global,
    graph: &ShortlexGraph,
    marks: &[bool],
) -> Result<Vec<u32>, Memory>
    requires { length marks.now ≡ graph.now.size }
    ensures graph { IsGraph graph.now }
    ensures long { IfOk result (λ v. length v.items ≡ graph.now.size) }
    ensures respects { IfOk result (λ v. Respects graph.now marks.now v.items) }
{
    let size = graph.size();
    let inverses = inverses(alloc, graph)?;
    let mut splitting = Splitting::new(alloc, size)?;
    let marked = marked_nodes(alloc, graph, marks)?;
    splitting.split(alloc, size, marked.as_slice())?;
    for round in 0..size as usize {
        if round >= splitting.queue.len() {
            return Ok(splitting.class_of);
        }
        let class = splitting.queue[round];
        splitting.split_by_class(alloc, graph, inverses.as_slice(), class)?;
    }
    Ok(splitting.class_of)
}
