//! The search over the states of a table, the coarsest partition and the quotient. What a test compares is made by
//! functions of its own, so that each is proved by itself.
ghost use Rattle.std.specs.Prelude.{◌≡◌, ◌<◌, ◌-◌, ◌^◌, [], length, IfSome};
ghost use Rattle.automata_tests.specs.Table.{IsTable};

use crate::table::TableStates;
use exploration::{ExploreFault, ShortlexGraph, explore};
use refinement::{first_nodes, quotient, refine};
use std::alloc::Global;
use std::test::Fail;
use syn_words::Memory;

/// `(ab)*` over ab, with two states for "accepts" (2 and 3), a state for "a was read" (4), a sink (1), and a state
/// that no word reaches (0).
const AB_STAR: [u32; 10] = [0, 2, 1, 1, 4, 1, 4, 1, 1, 3];

/// A table of states, where the targets are complete and in range.
fn table(
    alloc: Global,
    states: u32,
    letters: u8,
    start: u32,
    targets: &[u32],
) -> Option<TableStates<'_>>
    ensures { IfSome result (λ t. IsTable t × (length t.seen ≡ 0)) }
{
    let complete = targets.len() == states as usize * letters as usize;
    if complete && start < states && targets.iter().all(|target| *target < states) {
        return Some(TableStates::new(alloc, states, letters, start, targets));
    }
    None
}

/// The graph of a table; the limit where there is no table.
fn explored(
    alloc: Global,
    states: u32,
    letters: u8,
    start: u32,
    targets: &[u32],
    most: u32,
) -> Result<ShortlexGraph, ExploreFault>
    requires { most < 2 ^ 32 - 1 }
{
    match table(alloc, states, letters, start, targets) {
        None => Err(ExploreFault::Limit),
        Some(mut states) => explore(alloc, &mut states, most),
    }
}

fn targets_of(alloc: Global, graph: &ShortlexGraph) -> Result<Vec<u32>, Memory> {
    let mut targets = Vec::new(alloc);
    for node in 0..graph.size() {
        for letter in 0..graph.letters() {
            targets.push(graph.step(node, letter))?;
        }
    }
    Ok(targets)
}

/// The least words of the nodes of a table's graph, as the digits of their letters, each with a `.` behind it.
fn words_text(
    alloc: Global,
    states: u32,
    letters: u8,
    start: u32,
    targets: &[u32],
) -> Result<Vec<u8>, ExploreFault> {
    let mut text = Vec::new(alloc);
    if let Some(mut states) = table(alloc, states, letters, start, targets) {
        let graph = explore(alloc, &mut states, 90)?;
        for word in graph.least_words(alloc)?.iter() {
            for letter in word.letters() {
                text.push(letter.wrapping_add(b'0'))?;
            }
            text.push(b'.')?;
        }
    }
    Ok(text)
}

/// The targets of the quotient of a graph by the classes of its marks; none where a mark is missing.
fn quotient_targets(
    alloc: Global,
    graph: &ShortlexGraph,
    marks: &[bool],
) -> Result<Vec<u32>, Memory> {
    if marks.len() != graph.size() as usize {
        return Ok(Vec::new(alloc));
    }
    let partition = refine(alloc, graph, marks)?;
    let firsts = first_nodes(alloc, graph, &partition)?;
    let minimal = quotient(alloc, graph, &partition, firsts.as_slice())?;
    targets_of(alloc, &minimal)
}

/// The classes of the nodes of a graph by marks; none where a mark is missing.
fn classes(alloc: Global, graph: &ShortlexGraph, marks: &[bool]) -> Result<Vec<u32>, Memory> {
    if marks.len() != graph.size() as usize {
        return Ok(Vec::new(alloc));
    }
    let partition = refine(alloc, graph, marks)?;
    Ok(Vec::from_slice(alloc, partition.classes())?)
}

#[test]
fn explores_ab_star(rt: HostRuntime) -> Result<(), Fail> {
    let alloc = rt.alloc();
    let graph = explored(alloc, 5, 2, 2, &AB_STAR, 4)?;
    let targets = targets_of(alloc, &graph)?;
    assert_eq!(rt; targets.as_slice(), [1, 2, 2, 3, 2, 2, 1, 2].as_slice());
    let words = words_text(alloc, 5, 2, 2, &AB_STAR)?;
    assert_eq!(rt; words.as_slice(), b".0.1.01.".as_slice());
    Ok(())
}

#[test]
fn stops_at_the_limit(rt: HostRuntime) {
    let fault = explored(rt.alloc(), 5, 2, 2, &AB_STAR, 3).err();
    assert_eq!(rt; fault, Some(ExploreFault::Limit));
}

#[test]
fn minimises_ab_star(rt: HostRuntime) -> Result<(), Fail> {
    let alloc = rt.alloc();
    let graph = explored(alloc, 5, 2, 2, &AB_STAR, 90)?;
    let marks = [true, false, false, true];
    let classes = classes(alloc, &graph, &marks)?;
    assert_eq!(rt; classes.as_slice(), [0, 1, 2, 0].as_slice());
    let targets = quotient_targets(alloc, &graph, &marks)?;
    assert_eq!(rt; targets.as_slice(), [1, 2, 2, 0, 2, 2].as_slice());
    Ok(())
}

#[test]
fn refines_in_several_rounds(rt: HostRuntime) -> Result<(), Fail> {
    let alloc = rt.alloc();
    let graph = explored(alloc, 5, 1, 0, &[1, 2, 3, 4, 4], 5)?;
    let classes = classes(alloc, &graph, &[false, false, false, false, true])?;
    assert_eq!(rt; classes.as_slice(), [0, 1, 2, 3, 4].as_slice());
    Ok(())
}

/// The targets of a chain of nodes by the first letter, each back to its first node by the second.
fn chain(alloc: Global, size: u32) -> Result<Vec<u32>, Memory> {
    let mut targets = Vec::new(alloc);
    for node in 1..=size {
        targets.push(if node < size {
            node
        } else {
            size.wrapping_sub(1)
        })?;
        targets.push(0)?;
    }
    Ok(targets)
}

/// Marks of which the last alone is set.
fn last_marked(alloc: Global, size: u32) -> Result<Vec<bool>, Memory> {
    let mut marks = Vec::new(alloc);
    for node in 1..=size {
        marks.push(node == size)?;
    }
    Ok(marks)
}

/// A chain of 64,000 nodes whose last one is marked: each node is a class of its own. Moore's rounds alone, one for each
/// node, would take longer than a test may.
#[test]
fn refines_a_long_chain(rt: HostRuntime) -> Result<(), Fail> {
    let alloc = rt.alloc();
    let chain = chain(alloc, 64_000)?;
    let graph = explored(alloc, 64_000, 2, 0, chain.as_slice(), 64_000)?;
    let marks = last_marked(alloc, 64_000)?;
    let classes = classes(alloc, &graph, marks.as_slice())?;
    assert_eq!(rt; classes.len(), 64_000);
    assert_eq!(rt; classes.last(), Some(&63_999));
    Ok(())
}
