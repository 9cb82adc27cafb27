//! All products of the monoid of `(ab)*`, by few and by many workers.
ghost use Rattle.std.specs.Prelude.{◌≤◌};

use crate::counting::CountingGate;
use crate::worked;
use cayley_tables::Cayley;
use parallel_table::{Table, TableFault, fill, new_table};
use std::alloc::Global;
use std::test::Fail;
use std::thread::Threads;
use syn_outside::OpenGate;
use syn_words::Memory;

/// The cells, row by row.
fn cells(alloc: Global, table: &Table) -> Result<Vec<u32>, Memory> {
    let mut cells = Vec::new(alloc);
    for row in 0..table.side() {
        for column in 0..table.side() {
            cells.push(table.at(row, column))?;
        }
    }
    Ok(cells)
}

/// The cells of the table of at most six elements, filled by workers.
fn filled<R: Threads + Sync>(
    rt: &R,
    alloc: Global,
    cayley: &Cayley,
    workers: u32,
) -> Result<Vec<u32>, TableFault>
    requires some { 1 ≤ workers }
    requires few { workers ≤ 64 }
{
    let mut table = new_table(alloc, cayley, 6)?;
    fill(rt, cayley, &mut table, workers, &OpenGate);
    let Ok(cells) = cells(alloc, &table) else {
        return Err(TableFault::Memory);
    };
    Ok(cells)
}

/// Whether the table has these cells, by whatever number of workers.
fn is_filled<R: Threads + Sync>(
    rt: &R,
    alloc: Global,
    cayley: &Cayley,
    expected: &[u32],
) -> Result<bool, TableFault> {
    for workers in [1, 2, 7, 64] {
        let cells = filled(rt, alloc, cayley, workers)?;
        if cells.as_slice() != expected {
            return Ok(false);
        }
    }
    Ok(true)
}

#[test]
fn ab_star(rt: HostRuntime) -> Result<(), Fail> {
    let cayley = worked::ab_star(rt.alloc())?;
    let expected = [
        0, 1, 2, 3, 4, 5, 1, 3, 4, 3, 3, 1, 2, 5, 3, 3, 2, 3, 3, 3, 3, 3, 3, 3, 4, 1, 3, 3, 4, 3,
        5, 3, 2, 3, 3, 5,
    ];
    assert!(rt; is_filled(&rt, rt.alloc(), &cayley, &expected)?);
    Ok(())
}

/// 64 workers of six rows are six.
#[test]
fn six_parts_of_six_rows(rt: HostRuntime) -> Result<(), Fail> {
    let cayley = worked::ab_star(rt.alloc())?;
    let gate = CountingGate::new();
    let mut table = new_table(rt.alloc(), &cayley, 6)?;
    fill(&rt, &cayley, &mut table, 64, &gate);
    assert!(rt; gate.is_six_once());
    Ok(())
}

#[test]
fn keeps_the_limit(rt: HostRuntime) -> Result<(), Fail> {
    let small = new_table(rt.alloc(), &worked::ab_star(rt.alloc())?, 5);
    assert_eq!(rt; small.err(), Some(TableFault::TableLimit));
    Ok(())
}
