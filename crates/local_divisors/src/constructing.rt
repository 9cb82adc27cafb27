//! The construction of a star-free list from the table of products of a finite aperiodic monoid.
ghost use Rattle.std.specs.Prelude.{◌≡◌, ◌<◌, ◌≤◌, length, IfOk, Some, All};
ghost use Rattle.star_free_theory.specs.StarFree.{IsStarFreeList};
ghost use Rattle.star_free_theory.specs.Construction.{count_from, construction, take, each};
ghost use Rattle.star_free_theory.specs.Construction.{DenotesFinals};
ghost use Rattle.star_free_theory.specs.declared.nodes.SfNode.TheVariants as node;
ghost use Rattle.local_divisors.specs.Building.{AnswersTable};
ghost use Rattle.local_divisors.specs.Instances.{IsMultiplication};
ghost use Rattle.star_free_lists.specs.SfList.{AreLettersBelow};
ghost use Rattle.star_free_lists.specs.Pruning.{AreDistinct};
ghost use Rattle.local_divisors.specs.Constructing.{most_depth, algebra_of, CanConstruct};
ghost use Rattle.local_divisors.specs.Constructing.{IsAnswer};
ghost use Rattle.syn_words.specs.Alphabet.{most_letters};

use crate::building::Builder;
use crate::choice::Task;
use crate::faults::SfFault;
use crate::instances::Product;
use crate::recursion::treat;
use parallel_table::Table;
use star_free_lists::SfList;
use star_free_theory::SfNode;
use std::alloc::Global;
use syn_words::Memory;

/// How deep instances are treated.
pub const MOST_DEPTH: u32 = 400;

/// The star-free list of the words whose value is among the finals, by local divisors (Schützenberger's theorem), with
/// a letter for each image; it names no other letter. `Depth` comes where an instance more than 400 deep would be treated, and `Nodes` where a
/// node would be put behind `max_nodes` of them, whichever is first. No two nodes are equal. Condition: the table is that of an aperiodic
/// monoid with identity 0 that the images generate, there are at most 60 of these, the finals are in range, and
/// `max_nodes <= 1000000`.
pub fn construct(
    alloc: Global,
    table: &Table,
    images: &[u32],
    finals: &[u32],
    max_nodes: u32,
) -> Result<SfList, SfFault>
    requires { CanConstruct table.now images.now finals.now max_nodes }
    ensures answer { IsAnswer (construction (Some max_nodes) most_depth (length images.now)
        (algebra_of table.now images.now) finals.now) result }
    ensures words { IfOk result (λ l. DenotesFinals (length images.now)
        (algebra_of table.now images.now) finals.now l.nodes l.root) }
    ensures list { IfOk result (λ l. IsStarFreeList l.nodes l.root) }
    ensures distinct { IfOk result (λ l. AreDistinct l.nodes) }
    ensures letters { IfOk result (λ l. AreLettersBelow (length images.now) l.nodes) }
{
    let mut list = Builder::opening(alloc)?;
    let letters = numbers(alloc, images.len() as u32)?;
    let nodes = letter_nodes(&mut list, alloc, max_nodes, letters.as_slice())?;
    let product = whole_product(alloc, table)?;
    let task = whole_task(alloc, table, letters, images, nodes)?;
    let table = treat(&mut list, alloc, max_nodes, MOST_DEPTH, &product, &task)?;
    let root = list.join_finals(max_nodes, table.as_slice(), finals)?;
    let made = list.with_root(alloc, root)?;
    Ok(made)
}

/// How deep instances are treated.
pub fn the_limits()
    ensures depth { MOST_DEPTH ≡ 400 }
    ensures construction { most_depth ≡ 400 }
{}

/// The numbers below a bound, in order.
fn numbers(alloc: Global, count: u32) -> Result<Vec<u32>, Memory>
    ensures { IfOk result (λ v. v.items ≡ count_from 0 count) }
{
    let mut numbers = Vec::with_capacity(alloc, count as usize)?;
    for number in 0..count {
        numbers.push(number)?;
    }
    Ok(numbers)
}

/// A node for each letter. Condition: there are at most 60, each below their number.
fn letter_nodes(
    list: &mut Builder,
    alloc: Global,
    most: u32,
    letters: &[u32],
) -> Result<Vec<u32>, SfFault>
    requires few { length letters.now ≤ most_letters }
    requires within { All (λ a. a < length letters.now) letters.now }
    ensures table { AnswersTable (λ v. v.items)
        (each (λ ys a. take (Some most) ys (node.Letter a)) letters.now (λ a. 0) list.old) list.new
        result }
    ensures long { IfOk result (λ v. length v.items ≡ length letters.now) }
{
    let mut table = vec![in alloc; 0; letters.len()]?;
    for &letter in letters {
        let number = list.take(most, SfNode::Letter(letter as u8))?;
        table[letter as usize] = number;
    }
    Ok(table)
}

/// The product of a table. Condition: its cells are numbers of rows.
fn whole_product<'a>(alloc: Global, table: &'a Table) -> Result<Product<'a>, Memory>
    requires { IsMultiplication
        (record { table = table.now; factors = count_from 0 table.now.side }) }
    ensures { IfOk result
        (λ p. p ≡ record { table = table.now; factors = count_from 0 table.now.side }) }
{
    let factors = numbers(alloc, table.side())?;
    let product = Product::new(table, factors);
    Ok(product)
}

/// The whole monoid as an instance: its universe is all words.
fn whole_task(
    alloc: Global,
    table: &Table,
    letters: Vec<u32>,
    images: &[u32],
    nodes: Vec<u32>,
) -> Result<Task, Memory>
    ensures { IfOk result (λ t. t ≡ record {
      elements = count_from 0 table.now.side;
      identity = 0;
      letters = letters.items;
      images = images.now;
      nodes = nodes.items;
      universe = 1;
    }) }
{
    let elements = numbers(alloc, table.side())?;
    let images = Vec::from_slice(alloc, images)?;
    Ok(Task {
        elements,
        identity: 0,
        letters,
        images,
        nodes,
        universe: 1,
    })
}
