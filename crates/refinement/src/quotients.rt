//! The graph whose nodes are the classes of a partition.
ghost use Rattle.std.specs.Prelude.{◌≡◌, ◌<◌, ℕ, length, slice_index, IfOk};
ghost use Rattle.language_theory.specs.ShortlexGraph.{IsPartition, IsQuotient};
ghost use Rattle.refinement.specs.Refinement.{AreFirstNodes};

use crate::coarsest::{Partition, push_target_classes};
use exploration::ShortlexGraph;
use std::alloc::Global;
use syn_words::Memory;

/// The least node of each class, in the order of the classes. Condition: the partition is one of the graph's nodes that
/// every letter keeps, numbered in the order in which its classes first occur.
pub fn first_nodes(
    alloc: Global,
    graph: &ShortlexGraph,
    partition: &Partition,
) -> Result<Vec<u32>, Memory>
    requires { IsPartition graph.now partition.now.count partition.now.classes }
    ensures { IfOk result (λ v. AreFirstNodes partition.now.count partition.now.classes v.items) }
{
    let mut firsts = Vec::new(alloc);
    for node in 0..graph.size() {
        if partition.class_of(node) as usize == firsts.len() {
            firsts.push(node)?;
        }
    }
    Ok(firsts)
}

/// The quotient: its nodes are the classes, and a letter leads from a class to the class that its members lead to. The
/// least node of each class is the one in `firsts`. Condition: as of `first_nodes`, and `firsts` are those nodes.
pub fn quotient(
    alloc: Global,
    graph: &ShortlexGraph,
    partition: &Partition,
    firsts: &[u32],
) -> Result<ShortlexGraph, Memory>
    requires partition { IsPartition graph.now partition.now.count partition.now.classes }
    requires firsts { AreFirstNodes partition.now.count partition.now.classes firsts.now }
    ensures { IfOk result (λ q. IsQuotient graph.now partition.now.count partition.now.classes q) }
{
    // Its contract tells that this is a graph.
    let _size = graph.size();
    let mut targets = Vec::new(alloc);
    for first in firsts {
        push_target_classes(graph, partition.classes(), *first, &mut targets)?;
    }
    Ok(ShortlexGraph::new(partition.count(), graph.letters(), targets))
}
