//! A list of nodes that grows, in which equal nodes stand once.
ghost use Rattle.std.specs.Prelude.{◌≡◌, ◌<◌, ◌^◌, ℕ, length, slice_index, IfOk, None, Some, All};
ghost use Rattle.star_free_theory.specs.Construction.{opening, put, place, take, join, join_pairs};
ghost use Rattle.star_free_theory.specs.Construction.{join_all, join_finals, free, opened};
ghost use Rattle.local_divisors.specs.Building.{Answers, ArePairsWithin, neutral, joined_finals};
ghost use Rattle.star_free_lists.specs.SfList.{IsSfList};

use crate::faults::SfFault;
use crate::grouping::Pairs;
use indexmap::IndexSet;
use star_free_lists::SfList;
use star_free_theory::SfNode;
use std::alloc::Global;
use std::marker::Model;
use syn_words::Memory;

/// The nodes so far. The calls that may put one more are told the most that there may be.
#[derive(Drop)]
pub(crate) struct Builder {
    nodes: IndexSet<SfNode>,
}

impl Model for Builder {
    ghost use Rattle.std.specs.Prelude.{◌<◌, ◌^◌, List, length};
    ghost use Rattle.star_free_theory.specs.declared.nodes.SfNode.{SfNode};

    ghost Value = { List SfNode };

    ghost view = { λ b. b.nodes.keys };

    ghost invariant = { λ b. length b.nodes.keys < 2 ^ 32 };
}

impl Builder {
    /// The list that each construction begins with: no word, all words, and the empty word.
    pub(crate) fn opening(alloc: Global) -> Result<Builder, Memory>
        ensures { IfOk result (λ b. b ≡ opening) }
    {
        let mut nodes = IndexSet::new(alloc);
        nodes.insert(SfNode::Empty)?;
        nodes.insert(SfNode::Not(0))?;
        nodes.insert(SfNode::Eps)?;
        Ok(Builder { nodes })
    }

    /// The list with one of its nodes as the root. Condition: it is a list.
    pub(crate) fn with_root(&self, alloc: Global, root: u32) -> Result<SfList, Memory>
        requires { IsSfList (record { nodes = self.now; root = root }) }
        ensures { IfOk result (λ l. l ≡ record { nodes = self.now; root = root }) }
    {
        let list = SfList::of(alloc, self.nodes.as_slice(), root)?;
        Ok(list)
    }

    /// The number of a node that is there, or of this one, which is then put behind the list.
    fn put(&mut self, most: u32, node: SfNode) -> Result<u32, SfFault>
        ensures { Answers (put (Some most) (place node self.old) self.old node) self.new result }
    {
        if self.nodes.len() >= most as usize {
            let Some(place) = self.nodes.get_index_of(&node) else {
                return Err(SfFault::Nodes);
            };
            return Ok(place as u32);
        }
        let (place, _) = self.nodes.insert_full(node)?;
        Ok(place as u32)
    }

    /// Takes a node: the number of one that says the same.
    pub(crate) fn take(&mut self, most: u32, node: SfNode) -> Result<u32, SfFault>
        ensures { Answers (take (Some most) self.old node) self.new result }
    {
        if let Some(part) = neutral(node) {
            return Ok(part);
        }
        let number = self.put(most, node)?;
        Ok(number)
    }

    /// Joins one more node, if there was one before.
    pub(crate) fn join(&mut self, most: u32, joined: Option<u32>, node: u32) -> Result<u32, SfFault>
        ensures { Answers (join (Some most) joined self.old node) self.new result }
    {
        match joined {
            None => Ok(node),
            Some(before) => {
                let number = self.take(most, SfNode::Or(before, node))?;
                Ok(number)
            }
        }
    }

    /// Joins the concatenations of the nodes of each pair as they come. Condition: there is a node for each number of a
    /// pair.
    pub(crate) fn join_pairs(
        &mut self,
        most: u32,
        first: &[u32],
        second: &[u32],
        start: Option<u32>,
        pairs: Pairs<'_>,
    ) -> Result<Option<u32>, SfFault>
        requires { ArePairsWithin (length first.now) (length second.now) pairs }
        ensures { Answers (join_pairs (Some most) (slice_index first.now) (slice_index second.now)
            start pairs.entry self.old) self.new result }
    {
        let mut joined = start;
        let mut rest = pairs;
        while let Some((left, right)) = rest.next() {
            let cat = self.take(
                most,
                SfNode::Cat(first[left as usize], second[right as usize]),
            )?;
            let number = self.join(most, joined, cat)?;
            joined = Some(number);
        }
        Ok(joined)
    }

    /// The node of what is joined; that of no word where nothing is.
    pub(crate) fn join_all(
        &mut self,
        most: u32,
        first: &[u32],
        second: &[u32],
        start: Option<u32>,
        pairs: Pairs<'_>,
    ) -> Result<u32, SfFault>
        requires { ArePairsWithin (length first.now) (length second.now) pairs }
        ensures { Answers (join_all (Some most) (slice_index first.now)
            (slice_index second.now) start pairs.entry self.old) self.new result }
    {
        let joined = self.join_pairs(most, first, second, start, pairs)?;
        match joined {
            None => Ok(0),
            Some(number) => Ok(number),
        }
    }

    /// Joins the nodes of some elements. Condition: each has one.
    fn join_elements(
        &mut self,
        most: u32,
        nodes: &[u32],
        elements: &[u32],
    ) -> Result<Option<u32>, SfFault>
        requires { All (λ p. p < length nodes.now) elements.now }
        ensures { Answers (join_finals (Some most) (slice_index nodes.now) elements.now None
            self.old) self.new result }
    {
        let mut joined = None;
        for &element in elements {
            let number = self.join(most, joined, nodes[element as usize])?;
            joined = Some(number);
        }
        Ok(joined)
    }

    /// The node of some elements' nodes, joined; that of no word where there is none. Condition: each has one.
    pub(crate) fn join_finals(
        &mut self,
        most: u32,
        nodes: &[u32],
        finals: &[u32],
    ) -> Result<u32, SfFault>
        requires { All (λ p. p < length nodes.now) finals.now }
        ensures { Answers (joined_finals (Some most) (slice_index nodes.now) finals.now self.old)
            self.new result }
    {
        let joined = self.join_elements(most, nodes, finals)?;
        match joined {
            None => Ok(0),
            Some(number) => Ok(number),
        }
    }

    /// The words of the universe without a word of a node; where `alone`, the empty word.
    pub(crate) fn free(
        &mut self,
        most: u32,
        alone: bool,
        node: u32,
        universe: u32,
    ) -> Result<u32, SfFault>
        ensures { Answers (free (Some most) alone self.old node universe) self.new result }
    {
        if alone {
            return Ok(2);
        }
        let before = self.take(most, SfNode::Cat(universe, node))?;
        let around = self.take(most, SfNode::Cat(before, universe))?;
        let outside = self.take(most, SfNode::Not(around))?;
        let free = self.take(most, SfNode::And(universe, outside))?;
        Ok(free)
    }

    /// The empty word, and the words of the universe that begin with one of a node; where `alone`, all of them.
    pub(crate) fn opened(
        &mut self,
        most: u32,
        alone: bool,
        node: u32,
        universe: u32,
    ) -> Result<u32, SfFault>
        ensures { Answers (opened (Some most) alone self.old node universe) self.new result }
    {
        if alone {
            return Ok(universe);
        }
        let begun = self.take(most, SfNode::Cat(node, universe))?;
        let opened = self.take(most, SfNode::Or(begun, 2))?;
        Ok(opened)
    }
}

/// Where one part of a node says nothing, the other part.
fn neutral(node: SfNode) -> Option<u32>
    ensures { result ≡ neutral node }
{
    match node {
        SfNode::Cat(left, right) => {
            if left == 2 {
                Some(right)
            } else if right == 2 {
                Some(left)
            } else {
                None
            }
        }
        SfNode::And(left, right) => { if left == 1 { Some(right) } else { None } }
        _ => None,
    }
}
