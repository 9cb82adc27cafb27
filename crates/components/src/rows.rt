//! Two graphs over the same nodes as one.

ghost use Rattle.std.specs.Prelude.{◌+◌, ◌^◌, ◌<◌, IfOk};
ghost use Rattle.components.specs.Components.{IsGraph};
ghost use Rattle.components.specs.Beside.{AreBoth};

use std::alloc::Global;
use syn_words::Memory;

/// The graph in which each node has its edges in the first graph, and then those in the second.
pub fn side_by_side(
    alloc: Global,
    nodes: u32,
    degree: u32,
    first: &[u32],
    degree_of_second: u32,
    second: &[u32],
) -> Result<Vec<u32>, Memory>
    requires first { IsGraph nodes degree first.now }
    requires second { IsGraph nodes degree_of_second second.now }
    ensures { IfOk result (λ both. AreBoth nodes degree degree_of_second first.now second.now
        both.items) }
{
    let mut both = Vec::new(alloc);
    let mut left = first;
    let mut right = second;
    for node in 0..nodes {
        let (row, rest) = left.split_at(degree as usize);
        both.extend_from_slice(row)?;
        left = rest;
        let (row_of_second, rest_of_second) = right.split_at(degree_of_second as usize);
        both.extend_from_slice(row_of_second)?;
        right = rest_of_second;
    }
    Ok(both)
}
