//! The recursion of the construction: an instance is treated by the two instances made from it.
ghost use Rattle.std.specs.Prelude.{◌≡◌, ◌<◌, ℕ, length, slice_index, replicate, IfOk, Some};
ghost use Rattle.star_free_theory.specs.Construction.{free, is_none_left, treat_within};
ghost use Rattle.local_divisors.specs.Building.{AnswersAs, AnswersTable};
ghost use Rattle.local_divisors.specs.Tasks.{Flat, IsReady, AreShown, task_with};
ghost use Rattle.local_divisors.specs.Recursion.{CanDivide, first_flat, second_nodes};
ghost use Rattle.local_divisors.specs.Recursion.{AreSecondNodes, IsSecond};

use crate::building::Builder;
use crate::choice::{Choice, Task, choose, is_alone};
use crate::faults::SfFault;
use crate::instances::{Product, local_factors, middles};
use crate::treating::{Nodes, behind, finish};
use std::alloc::Global;
use syn_words::Memory;

/// The nodes of the letters of a second instance, and its universe.
#[derive(Drop)]
struct Letters {
    nodes: Vec<u32>,
    universe: u32,
}

/// A second instance, and its product.
#[derive(Drop)]
struct Second<'a> {
    product: Product<'a>,
    task: Task,
}

/// A node for each element of an instance, at most so deep. Each number of the table has a place.
pub(crate) fn treat(
    list: &mut Builder,
    alloc: Global,
    most: u32,
    depth: u32,
    product: &Product<'_>,
    task: &Task,
) -> Result<Vec<u32>, SfFault>
    requires { IsReady product.now task.now }
    ensures table { (mul : ℕ → ℕ → ℕ) (img nod : ℕ → ℕ) → AreShown product.now task.now mul img nod
        → AnswersTable (λ v. v.items)
        (treat_within (Some most) depth list.old (task_with task.now mul img nod)) list.new result }
    ensures long { IfOk result (λ v. length v.items ≡ product.now.table.side) }
{
    if depth == 0 {
        return Err(SfFault::Depth);
    }
    let side = product.side();
    if task.is_single() {
        let table = everywhere(alloc, side, task.universe())?;
        return Ok(table);
    }
    let below = depth - 1;
    let choice = choose(alloc, product, task)?;
    let instance = first_instance(list, alloc, most, product, task, &choice)?;
    let first = treat(list, alloc, most, below, product, &instance)?;
    let letters = second_letters(list, alloc, most, product, task, &choice, first.as_slice())?;
    let local = second_instance(alloc, product, task, &choice, &letters)?;
    let second = treat(list, alloc, most, below, &local.product, &local.task)?;
    let nodes = Nodes {
        first: first.as_slice(),
        letters: letters.nodes.as_slice(),
        second: second.as_slice(),
    };
    let table = finish(list, alloc, most, product, task.elements(), &choice, &nodes)?;
    Ok(table)
}

/// A table with one node everywhere.
fn everywhere(alloc: Global, side: u32, node: u32) -> Result<Vec<u32>, Memory>
    ensures { IfOk result (λ v. v.items ≡ replicate side node) }
{
    let table = vec![in alloc; node; side as usize]?;
    Ok(table)
}

/// The first instance: the other letters with their submonoid, and the words of the universe without the chosen letter.
fn first_instance(
    list: &mut Builder,
    alloc: Global,
    most: u32,
    product: &Product<'_>,
    task: &Task,
    choice: &Choice,
) -> Result<Task, SfFault>
    requires { CanDivide product.now task.now choice.now.letter choice.now.others.items
        choice.now.submonoid.items choice.now.divisor.items }
    ensures { AnswersAs
        (λ v u. v ≡ first_flat task.now choice.now.others.items choice.now.submonoid.items u)
        (free (Some most) (is_none_left choice.now.others.items) list.old
        (slice_index task.now.nodes choice.now.letter) task.now.universe) list.new result }
{
    let node = task.node(choice.letter);
    let universe = list.free(most, is_alone(choice), node, task.universe())?;
    let first = first_task(alloc, task, choice, universe)?;
    Ok(first)
}

/// The first instance with a universe.
fn first_task(alloc: Global, task: &Task, choice: &Choice, universe: u32) -> Result<Task, Memory>
    ensures { IfOk result (λ v. v
        ≡ first_flat task.now choice.now.others.items choice.now.submonoid.items universe) }
{
    let elements = Vec::from_slice(alloc, choice.submonoid.as_slice())?;
    let letters = Vec::from_slice(alloc, choice.others.as_slice())?;
    let images = Vec::from_slice(alloc, task.images.as_slice())?;
    let nodes = Vec::from_slice(alloc, task.nodes.as_slice())?;
    Ok(Task {
        elements,
        identity: task.identity,
        letters,
        images,
        nodes,
        universe,
    })
}

/// The nodes of the letters of the second instance, and its universe: the empty word, and the words of the universe
/// that begin with the chosen letter. Condition: the submonoid's elements have nodes.
fn second_letters(
    list: &mut Builder,
    alloc: Global,
    most: u32,
    product: &Product<'_>,
    task: &Task,
    choice: &Choice,
    first: &[u32],
) -> Result<Letters, SfFault>
    requires divides { CanDivide product.now task.now choice.now.letter choice.now.others.items
        choice.now.submonoid.items choice.now.divisor.items }
    requires long { length first.now ≡ product.now.table.side }
    ensures { AnswersAs (λ v r. AreSecondNodes product.now v.nodes.items v.universe r)
        (second_nodes (Some most) task.now choice.now.letter choice.now.others.items
        choice.now.submonoid.items first.now list.old) list.new result }
{
    let node = task.node(choice.letter);
    let universe = list.opened(most, is_alone(choice), node, task.universe())?;
    let nodes = behind(list, alloc, most, node, first, choice.submonoid.as_slice())?;
    Ok(Letters { nodes, universe })
}

/// The second instance and its product, for such letters.
fn second_instance<'a>(
    alloc: Global,
    product: &Product<'a>,
    task: &Task,
    choice: &Choice,
    letters: &Letters,
) -> Result<Second<'a>, Memory>
    requires { CanDivide product.now task.now choice.now.letter choice.now.others.items
        choice.now.submonoid.items choice.now.divisor.items }
    ensures { IfOk result (λ v. IsSecond product.now task.now choice.now.letter
        choice.now.submonoid.items choice.now.divisor.items letters.now.nodes.items
        letters.now.universe v.product v.task) }
{
    let m = task.image(choice.letter);
    let factors = local_factors(alloc, product, task.elements(), m)?;
    let local = product.with(factors);
    let middles = middles(alloc, product, m)?;
    let instance = second_task(alloc, choice, m, middles, letters)?;
    Ok(Second {
        product: local,
        task: instance,
    })
}

/// The second instance with the images of its letters.
fn second_task(
    alloc: Global,
    choice: &Choice,
    identity: u32,
    images: Vec<u32>,
    letters: &Letters,
) -> Result<Task, Memory>
    ensures { IfOk result (λ v. v ≡ record {
      elements = choice.now.divisor.items;
      identity = identity;
      letters = choice.now.submonoid.items;
      images = images.items;
      nodes = letters.now.nodes.items;
      universe = letters.now.universe;
    }) }
{
    let elements = Vec::from_slice(alloc, choice.divisor.as_slice())?;
    let own = Vec::from_slice(alloc, choice.submonoid.as_slice())?;
    let nodes = Vec::from_slice(alloc, letters.nodes.as_slice())?;
    Ok(Task {
        elements,
        identity,
        letters: own,
        images,
        nodes,
        universe: letters.universe,
    })
}
