//! The local work: the sum of the squares of the sizes of the local submonoids.
ghost use Rattle.std.specs.Prelude.{◌<◌, ◌≤◌, IfOk};
ghost use Rattle.parallel_table.specs.ProductTables.{IsTableOf};
ghost use Rattle.local_submonoids.specs.LocalTables.{IsSizeHere, IsWorkBelow};

use crate::submonoids::{first_elements, is_idempotent};
use parallel_table::{MOST_SIDE, Table};
use std::alloc::Global;
use syn_words::Memory;
use syntactic_monoid::Syntactic;

/// The local work of a monoid. It takes time in the number of idempotents times that of elements.
pub fn local_work(alloc: Global, monoid: &Syntactic, table: &Table) -> Result<u64, Memory>
    requires { IsTableOf monoid.now.graphs table.now }
    ensures { IfOk result (λ work. IsWorkBelow monoid.now table.now table.now.side work) }
{
    let mut work = 0;
    for e in 0..table.side() {
        let size = u64::from(local_size(alloc, monoid, table, e)?);
        work += size * size;
    }
    Ok(work)
}

/// The number of elements of the local submonoid of an idempotent class of nonempty words, and 0 for another element.
/// Conditions: the table is that of the monoid and no greater than a table can be, and the element is in range.
fn local_size(alloc: Global, monoid: &Syntactic, table: &Table, e: u32) -> Result<u32, Memory>
    requires table { IsTableOf monoid.now.graphs table.now }
    requires few { table.now.side ≤ MOST_SIDE }
    requires element { e < table.now.side }
    ensures size { IfOk result (λ n. IsSizeHere monoid.now table.now e n) }
    ensures few { IfOk result (λ n. n ≤ MOST_SIDE) }
{
    if !is_idempotent(monoid, table, e) {
        return Ok(0);
    }
    let firsts = first_elements(alloc, table, e)?;
    Ok(firsts.len() as u32)
}
