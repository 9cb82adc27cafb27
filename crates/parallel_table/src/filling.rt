//! The rows of a table of products, filled by workers that each own a run of whole rows.
ghost use Rattle.std.specs.Prelude.{◌≡◌, ◌<◌, ◌≤◌, ◌+◌, ◌*◌, length};
ghost use Rattle.std.specs.Thread.{IsSync};
ghost use Rattle.cayley_tables.specs.CayleyGraphs.{AreCayleyGraphs};
ghost use Rattle.parallel_table.specs.ProductTables.{IsTableOf};
ghost use Rattle.parallel_table.specs.Runs.{first_row, rows_of, AreHalves, CanFill, IsProductRow, AreProductRows, AreRowsOf};

use crate::table::{MOST_SIDE, Table};
use cayley_tables::{Cayley, MOST_WORKERS};
use std::thread::{Threads, join_mut};
use syn_outside::Gate;

/// The parts that share a run of rows: the first of them and their number, and how many parts share
/// the whole table.
#[derive(Clone, Copy, Debug, PartialEq, Eq)]
struct Parts {
    first: u32,
    count: u32,
    all: u32,
}

/// Fills a table with the products of all elements. As many parts as there are workers, but no more
/// than rows, share it: of `parts` parts, part p has the rows from `p * side / parts` on, and
/// passes the gate with its number once, before its first row. It takes no memory and is not
/// refused. Conditions: the table has a row for each element, and `1 <= workers <= MOST_WORKERS`.
pub fn fill<R: Threads + Sync, G: Gate + Sync>(
    rt: &R,
    cayley: &Cayley,
    table: &mut Table,
    workers: u32,
    gate: &G,
)
    requires side { table.old.side ≡ length cayley.now.words }
    requires some { 1 ≤ workers }
    requires few { workers ≤ MOST_WORKERS }
    ensures { IsTableOf cayley.now table.new }
{
    let count = workers.min(cayley.len());
    let parts = Parts {
        first: 0,
        count,
        all: count,
    };
    fill_parts(rt, gate, cayley, table.cells.as_mut_slice(), parts);
}

/// Fills the rows of these parts, each part by a run of its own.
#[cycle(fill_parts)]
fn fill_parts<R: Threads + Sync, G: Gate + Sync>(
    rt: &R,
    gate: &G,
    cayley: &Cayley,
    cells: &mut [u32],
    parts: Parts,
)
    requires { CanFill cayley.now parts (length cells.old) }
    ensures { AreRowsOf cayley.now parts cells.new }
{
    let side = cayley.len();
    if parts.count <= 1 {
        gate.enter(u64::from(parts.first));
        fill_rows(
            cayley,
            first_row(side, parts.all, parts.first),
            rows_of(side, parts),
            cells,
        );
        return;
    }
    let (left, right) = halves(parts);
    let rows = rows_of(side, left);
    let (front, back) = cells.split_at_mut(rows as usize * side as usize);
    join_mut(
        rt,
        &mut ||
            requires { IsSync R.row × IsSync G.row × CanFill cayley.now left (length front.now) }
            ensures { AreRowsOf cayley.entry.now left front.exit.now }
        { fill_parts(rt, gate, cayley, front, left) },
        &mut ||
            requires { IsSync R.row × IsSync G.row × CanFill cayley.now right (length back.now) }
            ensures { AreRowsOf cayley.entry.now right back.exit.now }
        { fill_parts(rt, gate, cayley, back, right) },
    );
}

/// The parts in two halves.
fn halves(parts: Parts) -> (Parts, Parts)
    requires two { 2 ≤ parts.count }
    requires within { parts.first + parts.count ≤ parts.all }
    ensures { AreHalves parts result.0 result.1 }
{
    let half = parts.count / 2;
    let left = Parts {
        first: parts.first,
        count: half,
        all: parts.all,
    };
    let right = Parts {
        first: parts.first + half,
        count: parts.count - half,
        all: parts.all,
    };
    (left, right)
}

/// The first row of a part; behind the last part, the number of rows.
fn first_row(side: u32, all: u32, part: u32) -> u32
    requires side { side ≤ MOST_SIDE }
    requires some { 1 ≤ all }
    requires few { all ≤ MOST_WORKERS }
    requires part { part ≤ all }
    ensures row { result ≡ first_row side all part }
    ensures within { result ≤ side }
{
    part * side / all
}

/// The number of rows of these parts.
fn rows_of(side: u32, parts: Parts) -> u32
    requires side { side ≤ MOST_SIDE }
    requires some { 1 ≤ parts.count }
    requires within { parts.first + parts.count ≤ parts.all }
    requires few { parts.all ≤ MOST_WORKERS }
    ensures rows { result ≡ rows_of side parts }
    ensures within { result ≤ side }
{
    first_row(side, parts.all, parts.first + parts.count) - first_row(side, parts.all, parts.first)
}

/// Fills `count` whole rows, the first of which is that of the element `first`.
fn fill_rows(cayley: &Cayley, first: u32, count: u32, cells: &mut [u32])
    requires graphs { AreCayleyGraphs cayley.now }
    requires within { first + count ≤ length cayley.now.words }
    requires long { length cells.old ≡ count * length cayley.now.words }
    ensures { AreProductRows cayley.now first count cells.new }
{
    let side = cayley.len() as usize;
    for row in 0..count {
        let start = row as usize * side;
        fill_row(cayley, first + row, &mut cells[start..start + side]);
    }
}

/// Fills the row of an element: its products with each element, in order.
fn fill_row(cayley: &Cayley, element: u32, row: &mut [u32])
    requires graphs { AreCayleyGraphs cayley.now }
    requires element { element < length cayley.now.words }
    requires long { length row.old ≡ length cayley.now.words }
    ensures { IsProductRow cayley.now element row.new }
{
    row[0] = element;
    for by in 1..cayley.len() {
        let before = row[cayley.prefix(by) as usize];
        row[by as usize] = cayley.right(before, cayley.last(by));
    }
}
