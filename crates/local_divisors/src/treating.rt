//! The steps of the construction that give each of some elements a node.
ghost use Rattle.std.specs.Prelude.{◌≡◌, ◌<◌, ℕ, [], length, slice_index, slice_index_or};
ghost use Rattle.std.specs.Prelude.{replicate, Some, None, IfOk, All};
ghost use Rattle.star_free_theory.specs.Construction.{take, each, join_all};
ghost use Rattle.star_free_theory.specs.declared.nodes.SfNode.TheVariants as node;
ghost use Rattle.local_divisors.specs.Building.{AnswersTable, CanJoin};
ghost use Rattle.local_divisors.specs.Finishing.{finished, AreStarts, CanFinish};

use crate::building::Builder;
use crate::choice::Choice;
use crate::faults::SfFault;
use crate::grouping::{Groups, ends, grouped};
use crate::instances::Product;
use star_free_theory::SfNode;
use std::alloc::Global;
use syn_words::Memory;

/// The nodes of the submonoid's elements, of the letters of the second instance, and of its elements.
#[derive(Drop)]
pub(crate) struct Nodes<'a> {
    pub(crate) first: &'a [u32],
    pub(crate) letters: &'a [u32],
    pub(crate) second: &'a [u32],
}

/// A node for each of the letters: a word of one node, and one of the letter's node behind it. Condition: there is a
/// node for each letter.
pub(crate) fn behind(
    list: &mut Builder,
    alloc: Global,
    most: u32,
    before: u32,
    nodes: &[u32],
    letters: &[u32],
) -> Result<Vec<u32>, SfFault>
    requires { All (λ t. t < length nodes.now) letters.now }
    ensures table { AnswersTable (λ v. v.items)
        (each (λ ys t. take (Some most) ys (node.Cat before (slice_index nodes.now t))) letters.now
        (λ p. 0) list.old) list.new result }
    ensures long { IfOk result (λ v. length v.items ≡ length nodes.now) }
{
    let mut table = vec![in alloc; 0; nodes.len()]?;
    for &letter in letters {
        let number = list.take(most, SfNode::Cat(before, nodes[letter as usize]))?;
        table[letter as usize] = number;
    }
    Ok(table)
}

/// A node for each of the elements: what the pairs of its group come to, joined, with the node that it starts with, if
/// there is one. Condition: each element has a place, and each number of a pair a node.
pub(crate) fn join_groups(
    list: &mut Builder,
    alloc: Global,
    most: u32,
    first: &[u32],
    second: &[u32],
    starts: &[Option<u32>],
    groups: &Groups,
    elements: &[u32],
) -> Result<Vec<u32>, SfFault>
    requires { CanJoin (length first.now) (length second.now) (length starts.now)
        groups.now elements.now }
    ensures table { AnswersTable (λ v. v.items)
        (each (λ ys u. join_all (Some most) (slice_index first.now) (slice_index second.now)
        (slice_index_or starts.now u None) (slice_index_or groups.now u []) ys)
        elements.now (λ p. 0) list.old) list.new result }
    ensures long { IfOk result (λ v. length v.items ≡ length starts.now) }
{
    let mut table = vec![in alloc; 0; starts.len()]?;
    for &element in elements {
        let start = starts[element as usize];
        let pairs = groups.pairs(element);
        let number = list.join_all(most, first, second, start, pairs)?;
        table[element as usize] = number;
    }
    Ok(table)
}

/// What the joins of the elements of a submonoid start with: their nodes, and none for other elements.
fn starts(alloc: Global, submonoid: &[u32], first: &[u32]) -> Result<Vec<Option<u32>>, Memory>
    requires { All (λ t. t < length first.now) submonoid.now }
    ensures { IfOk result (λ v. AreStarts submonoid.now first.now v.items) }
{
    let mut starts = no_starts(alloc, first.len())?;
    for &element in submonoid {
        starts[element as usize] = Some(first[element as usize]);
    }
    Ok(starts)
}

/// No start for each of a number of elements.
fn no_starts(alloc: Global, count: usize) -> Result<Vec<Option<u32>>, Memory>
    ensures { IfOk result (λ v. v.items ≡ replicate count None) }
{
    let mut starts = Vec::with_capacity(alloc, count)?;
    starts.resize(count, None)?;
    Ok(starts)
}

/// A node for each element, from the nodes that both instances gave. Condition: the tables have a place for each
/// element.
pub(crate) fn finish(
    list: &mut Builder,
    alloc: Global,
    most: u32,
    product: &Product<'_>,
    elements: &[u32],
    choice: &Choice,
    nodes: &Nodes<'_>,
) -> Result<Vec<u32>, SfFault>
    requires { CanFinish product.now.table.side elements.now choice.now.submonoid.items
        choice.now.divisor.items nodes.now.first.now nodes.now.letters.now nodes.now.second.now }
    ensures table { AnswersTable (λ v. v.items) (finished (Some most) product.now elements.now
        choice.now.submonoid.items choice.now.divisor.items nodes.now.first.now
        nodes.now.letters.now nodes.now.second.now list.old) list.new result }
    ensures long { IfOk result (λ v. length v.items ≡ product.now.table.side) }
{
    let submonoid = choice.submonoid.as_slice();
    let last = grouped(alloc, product, choice.divisor.as_slice(), submonoid)?;
    let ends = ends(alloc, &last, elements)?;
    let none = no_starts(alloc, product.side() as usize)?;
    let behind = join_groups(
        list,
        alloc,
        most,
        nodes.second,
        nodes.letters,
        none.as_slice(),
        &last,
        ends.as_slice(),
    )?;
    let whole = grouped(alloc, product, submonoid, ends.as_slice())?;
    let starts = starts(alloc, submonoid, nodes.first)?;
    let table = join_groups(
        list,
        alloc,
        most,
        nodes.first,
        behind.as_slice(),
        starts.as_slice(),
        &whole,
        elements,
    )?;
    Ok(table)
}
