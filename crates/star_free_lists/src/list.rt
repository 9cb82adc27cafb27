//! Star-free lists as values of the program.
ghost use Rattle.std.specs.Prelude.{◌≡◌, ◌<◌, ◌≤◌, length, IfOk};
ghost use Rattle.star_free_theory.specs.StarFree.{IsStarFreeList};
ghost use Rattle.star_free_theory.specs.Pruning.{node_at};
ghost use Rattle.star_free_lists.specs.SfList.{most_nodes, IsSfList};

use star_free_theory::SfNode;
use std::alloc::Global;
use std::marker::Model;
use syn_words::Memory;

/// The largest number of nodes of a list.
pub const MOST_NODES: u32 = 1_000_000;

/// A star-free list: 1 to 1,000,000 nodes, each of which names earlier ones only, with one of them as the root. Its
/// value is the record `StarFreeList`: the nodes and the root.
#[derive(Debug, Drop)]
pub struct SfList {
    nodes: Vec<SfNode>,
    root: u32,
}

impl Model for SfList {
    ghost use Rattle.star_free_lists.specs.SfList.{StarFreeList, IsSfList};

    ghost Value = { StarFreeList };

    ghost view = { λ l. record { nodes = l.nodes.items; root = l.root } };

    ghost invariant = { λ l. IsSfList (record { nodes = l.nodes.items; root = l.root }) };
}

/// The largest number of nodes of a list.
pub fn the_limits()
    ensures nodes { MOST_NODES ≡ 1000000 }
    ensures list { most_nodes ≡ 1000000 }
{}

impl SfList {
    /// The list of these nodes, with this root. Condition: there are 1 to 1,000,000 nodes, each names earlier ones only,
    /// and the root is one of them.
    pub fn of(alloc: Global, nodes: &[SfNode], root: u32) -> Result<SfList, Memory>
        requires { IsSfList (record { nodes = nodes.now; root = root }) }
        ensures { IfOk result (λ l. l ≡ record { nodes = nodes.now; root = root }) }
    {
        let nodes = Vec::from_slice(alloc, nodes)?;
        Ok(SfList { nodes, root })
    }

    /// The list of nodes that stand in a vector. Condition: that of `of`.
    pub(crate) fn from_nodes(nodes: Vec<SfNode>, root: u32) -> SfList
        requires { IsSfList (record { nodes = nodes.items; root = root }) }
        ensures { result ≡ record { nodes = nodes.items; root = root } }
    {
        SfList { nodes, root }
    }

    /// The number of nodes, from 1 to 1,000,000.
    pub fn len(&self) -> u32
        ensures len { result ≡ length self.now.nodes }
        ensures some { 1 ≤ result }
        ensures few { result ≤ most_nodes }
        ensures list { IsStarFreeList self.now.nodes self.now.root }
    {
        self.nodes.len() as u32
    }

    /// The node with a number. Condition: it is in range.
    pub fn node(&self, n: u32) -> SfNode
        requires { n < length self.now.nodes }
        ensures { result ≡ node_at self.now.nodes n }
    {
        self.nodes[n as usize]
    }

    /// All nodes.
    pub(crate) fn nodes(&self) -> &[SfNode]
        ensures nodes { result.now ≡ self.now.nodes }
        ensures list { IsSfList self.now }
    {
        self.nodes.as_slice()
    }

    /// The allocator that the list keeps.
    pub(crate) fn allocator(&self) -> Global {
        *self.nodes.allocator()
    }

    /// The number of the root.
    pub fn root(&self) -> u32
        ensures root { result ≡ self.now.root }
        ensures within { result < length self.now.nodes }
    {
        self.root
    }
}
