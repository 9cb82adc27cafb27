//! The edges of a letter, backwards.
ghost use Rattle.std.specs.Prelude.{◌≡◌, ◌<◌, ◌+◌, ℕ, length, All, IfOk, OnOk};
ghost use Rattle.language_theory.specs.ShortlexGraph.{IsGraph};
ghost use Rattle.refinement.specs.Splitting.{IsInverse, IsInverseOf, AreSources, Adds};

use exploration::ShortlexGraph;
use std::alloc::Global;
use syn_words::Memory;

/// The sources of each node by one letter, as chains that go down: `heads` has for each node one more than its greatest
/// source, and `nexts` for each node one more than the next smaller node with the same target; 0 ends a chain.
#[derive(Drop)]
pub(crate) struct Inverse {
    letter: u8,
    heads: Vec<u32>,
    nexts: Vec<u32>,
}

impl Inverse {
    fn of(alloc: Global, graph: &ShortlexGraph, letter: u8) -> Result<Inverse, Memory>
        requires { letter < graph.now.letters }
        ensures { IfOk result (λ r. IsInverseOf graph.now r) }
    {
        let mut heads = vec![in alloc; 0; graph.size() as usize]?;
        let mut nexts = Vec::with_capacity(alloc, graph.size() as usize)?;
        for node in 0..graph.size() {
            let target = graph.step(node, letter) as usize;
            nexts.push(heads[target])?;
            heads[target] = node + 1;
        }
        Ok(Inverse {
            letter,
            heads,
            nexts,
        })
    }

    /// Puts the sources of a node behind what is there.
    fn push_sources(
        &self,
        graph: &ShortlexGraph,
        node: u32,
        into: &mut Vec<u32>,
    ) -> Result<(), Memory>
        requires inverse { IsInverseOf graph.now self.now }
        requires node { node < graph.now.size }
        requires within { All (λ i. i < graph.now.size) into.old.items }
        ensures adds { OnOk result
            (Adds graph.now self.now.letter node into.old.items into.new.items) }
        ensures within { OnOk result (All (λ i. i < graph.now.size) into.new.items) }
    {
        let mut rest = self.heads[node as usize];
        while rest > 0 {
            into.push(rest - 1)?;
            rest = self.nexts[rest as usize - 1];
        }
        Ok(())
    }

    /// The nodes from which the letter leads to one of these nodes.
    pub(crate) fn sources(
        &self,
        alloc: Global,
        graph: &ShortlexGraph,
        nodes: &[u32],
    ) -> Result<Vec<u32>, Memory>
        requires inverse { IsInverseOf graph.now self.now }
        requires nodes { All (λ i. i < graph.now.size) nodes.now }
        ensures { IfOk result (λ v. AreSources graph.now self.now.letter nodes.now v.items) }
    {
        let mut sources = Vec::new(alloc);
        for node in nodes {
            self.push_sources(graph, *node, &mut sources)?;
        }
        Ok(sources)
    }
}

/// The inverse of each letter.
pub(crate) fn inverses(alloc: Global, graph: &ShortlexGraph) -> Result<Vec<Inverse>, Memory>
    ensures { IfOk result (λ v. All (IsInverseOf graph.now) v.items) }
{
    let mut inverses = Vec::new(alloc);
    for letter in 0..graph.letters() {
        inverses.push(Inverse::of(alloc, graph, letter)?)?;
    }
    Ok(inverses)
}
