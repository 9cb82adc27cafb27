//! Whether a language is star-free, with a list that denotes it.
ghost use Rattle.std.specs.Prelude.{◌≡◌, ◌<◌, ◌≤◌, true, is_some, option_map, IfSome, IfOk};
ghost use Rattle.language_theory.specs.Congruence.{Syntactic as SyntacticCongruence};
ghost use Rattle.monoid_theory.specs.Powers.{IsAperiodic};
ghost use Rattle.parallel_table.specs.ProductTables.{IsTableOf};
ghost use Rattle.syntactic_monoid.specs.SyntacticMonoid.{recognised};
ghost use Rattle.star_free_lists.specs.SfList.{most_nodes};
ghost use Rattle.star_free.specs.Answer.{IsStarFreeAnswer, Tells, images_of, finals_of};

use crate::deciding::{Powers, decide};
use answers::SfAnswer;
use local_divisors::{SfFault, construct};
use parallel_table::Table;
use std::alloc::Global;
use syn_words::Memory;
use syntactic_monoid::Syntactic;

/// Whether the language of a syntactic monoid is star-free.
///
/// `No` comes exactly where the monoid is not aperiodic (Schützenberger 1965). Else `TableLimit` comes exactly where no
/// table is given. Else `Depth` or `Nodes` comes exactly where the construction by local divisors meets that limit
/// first. Else `Yes` has its pruned list, which denotes the language.
///
/// Conditions: a given table is filled for the monoid, and `max_nodes <= 1000000`.
pub fn star_free(
    alloc: Global,
    monoid: &Syntactic,
    table: Option<&Table>,
    max_nodes: u32,
) -> Result<SfAnswer, Memory>
    requires table { IfSome (option_map (λ t. t.now) table) (λ t. IsTableOf monoid.now.graphs t) }
    requires nodes { max_nodes ≤ most_nodes }
    ensures answer { IfOk result (IsStarFreeAnswer monoid.now.graphs.right.letters
        (recognised monoid.now) monoid.now max_nodes (is_some table.entry)) }
    ensures tells { IfOk result (Tells monoid.now.graphs.right.letters (recognised monoid.now)) }
{
    // Its contract tells that this is the syntactic monoid of the language that it recognises.
    let _elements = monoid.cayley();
    match decide(alloc, monoid)? {
        Powers::Loops(found) => Ok(SfAnswer::No(found)),
        Powers::Aperiodic => match table {
            None => Ok(SfAnswer::TableLimit),
            Some(table) => {
                let answer = constructed(alloc, monoid, table, max_nodes)?;
                Ok(answer)
            }
        },
    }
}

/// The pruned list of the construction, or the limit that it meets first. Conditions: the monoid is aperiodic, and the
/// table is filled for it.
fn constructed(
    alloc: Global,
    monoid: &Syntactic,
    table: &Table,
    max_nodes: u32,
) -> Result<SfAnswer, Memory>
    requires aperiodic { IsAperiodic monoid.now.graphs.right.letters
        (SyntacticCongruence monoid.now.graphs.right.letters (recognised monoid.now)) }
    requires table { IsTableOf monoid.now.graphs table.now }
    requires nodes { max_nodes ≤ most_nodes }
    ensures answer { IfOk result (IsStarFreeAnswer monoid.now.graphs.right.letters
        (recognised monoid.now) monoid.now max_nodes true) }
    ensures tells { IfOk result (Tells monoid.now.graphs.right.letters (recognised monoid.now)) }
{
    // Their contracts tell that this is a syntactic monoid, and how many cells a table has.
    let _elements = monoid.cayley();
    let _side = table.side();
    let images = images(alloc, monoid)?;
    let finals = finals(alloc, monoid)?;
    match construct(
        alloc,
        table,
        images.as_slice(),
        finals.as_slice(),
        max_nodes,
    ) {
        Ok(list) => {
            let pruned = list.prune(alloc)?;
            // Its contract tells that this is a list.
            let _len = pruned.len();
            Ok(SfAnswer::Yes(pruned))
        }
        Err(SfFault::Depth) => Ok(SfAnswer::Depth),
        Err(SfFault::Nodes) => Ok(SfAnswer::Nodes),
        Err(SfFault::Memory) => Err(Memory),
    }
}

/// The elements of the letters, in order.
fn images(alloc: Global, monoid: &Syntactic) -> Result<Vec<u32>, Memory>
    ensures { IfOk result (λ v. v.items ≡ images_of monoid.now) }
{
    let cayley = monoid.cayley();
    // Its contract tells that there is an element.
    let _len = cayley.len();
    let mut images = Vec::new(alloc);
    for letter in 0..cayley.letters() {
        images.push(cayley.right(0, letter as u8))?;
    }
    Ok(images)
}

/// The elements whose words are in the language, in order.
fn finals(alloc: Global, monoid: &Syntactic) -> Result<Vec<u32>, Memory>
    ensures { IfOk result (λ v. v.items ≡ finals_of monoid.now) }
{
    let mut finals = Vec::new(alloc);
    for element in 0..monoid.cayley().len() {
        if monoid.accepts(element) {
            finals.push(element)?;
        }
    }
    Ok(finals)
}
