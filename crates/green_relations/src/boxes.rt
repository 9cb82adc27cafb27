//! The egg-box diagram of a finite monoid.
ghost use Rattle.std.specs.Prelude.{◌≡◌, ◌<◌, ◌≤◌, ◌+◌, ◌*◌, ◌^◌, ℕ, length, slice_index, IfOk};
ghost use Rattle.green_relations.specs.EggBoxes.{AreBoxesOf, box_at, row_at, cell_at};
ghost use Rattle.green_relations.specs.Numbering.{part};
ghost use Rattle.green_relations.specs.Layout.{ArePlaces, AreCells, AreCorners, LieInBoxes};

use crate::classes::Green;
use crate::listing::list_members;
use crate::numbering::{Numbering, number_classes, starts_of};
use cayley_tables::MOST_ELEMENTS;
use std::alloc::Global;
use std::marker::Model;
use syn_words::Memory;

/// The egg-box diagram of a finite monoid. Its value is the list of its boxes: a box is a list of
/// rows, a row a list of cells, and a cell the rising list of its elements, which is never empty.
#[derive(Debug, Drop)]
pub struct Boxes {
    rows: Vec<usize>,
    columns: Vec<usize>,
    corners: Vec<usize>,
    starts: Vec<usize>,
    members: Vec<u32>,
}

impl Model for Boxes {
    ghost use Rattle.std.specs.Prelude.{ℕ, List};
    ghost use Rattle.green_relations.specs.Layout.{layout, laid_boxes, IsLayout};

    ghost Value = { List (List (List (List ℕ))) };

    ghost view = { λ b. laid_boxes
        (layout b.rows.items b.columns.items b.corners.items b.starts.items b.members.items) };

    ghost invariant = { λ b. IsLayout
        (layout b.rows.items b.columns.items b.corners.items b.starts.items b.members.items) };
}

impl Boxes {
    /// The number of boxes.
    pub fn len(&self) -> u32
        ensures { result ≡ length self.now }
    {
        self.rows.len() as u32
    }

    /// The number of rows of a box, at least 1. Condition: the box is in range.
    pub fn rows(&self, n: u32) -> u32
        requires { n < length self.now }
        ensures rows { result ≡ length (box_at self.now n) }
        ensures some { 1 ≤ result }
    {
        self.rows[n as usize] as u32
    }

    /// The number of columns of a box, at least 1. Condition: the box is in range.
    pub fn columns(&self, n: u32) -> u32
        requires { n < length self.now }
        ensures columns { (row : ℕ) → row < length (box_at self.now n)
            → result ≡ length (row_at (box_at self.now n) row) }
        ensures some { 1 ≤ result }
    {
        self.columns[n as usize] as u32
    }

    /// The elements of a cell, at least one, in rising order. Condition: the box, the row and the
    /// column are in range.
    pub fn cell(&self, n: u32, row: u32, column: u32) -> &[u32]
        requires number { n < length self.now }
        requires row { row < length (box_at self.now n) }
        requires column { column < length (row_at (box_at self.now n) row) }
        ensures cell { result.now ≡ cell_at (row_at (box_at self.now n) row) column }
        ensures some { 0 < length result.now }
    {
        let cell = cell_number(
            self.corners.as_slice(),
            self.columns.as_slice(),
            n as usize,
            row as usize,
            column as usize,
        );
        part_of(self.starts.as_slice(), self.members.as_slice(), cell)
    }
}

/// The number of a cell: those of a box are numbered row by row.
fn cell_number(corners: &[usize], columns: &[usize], n: usize, row: usize, column: usize) -> usize
    requires corner { n < length corners.now }
    requires width { n < length columns.now }
    requires small { slice_index corners.now n + (row * slice_index columns.now n + column)
        < 2 ^ 63 }
    ensures { result ≡ slice_index corners.now n + (row * slice_index columns.now n + column) }
{
    corners[n] + (row * columns[n] + column)
}

/// The members of a cell.
fn part_of<'a>(starts: &[usize], members: &'a [u32], cell: usize) -> &'a [u32]
    requires cell { cell + 1 < length starts.now }
    requires rise { slice_index starts.now cell ≤ slice_index starts.now (cell + 1) }
    requires inside { slice_index starts.now (cell + 1) ≤ length members.now }
    ensures { result.now ≡ part starts.now members.now cell }
{
    &members[starts[cell]..starts[cell + 1]]
}

/// The box, the row and the column of each element.
#[derive(Drop)]
struct Places {
    boxes: Numbering,
    rows: Numbering,
    columns: Numbering,
}

/// The egg-box diagram of the monoid that has these classes: boxes, rows and columns stand in order
/// of their least elements. Takes a time that is linear in the number of elements and cells.
pub fn boxes_of(alloc: Global, green: &Green) -> Result<Boxes, Memory>
    ensures boxes { IfOk result (λ b. AreBoxesOf green.now b) }
{
    let places = places_of(alloc, green)?;
    let boxes = places.boxes;
    let rows = places.rows;
    let columns = places.columns;
    let corners = corners_of(alloc, rows.counts.as_slice(), columns.counts.as_slice())?;
    let cells = cells_of(
        alloc,
        boxes.numbers.as_slice(),
        rows.numbers.as_slice(),
        columns.numbers.as_slice(),
        columns.counts.as_slice(),
        corners.as_slice(),
    )?;
    let count = corners[rows.counts.len()];
    let listing = list_members(alloc, cells.as_slice(), count)?;
    Ok(Boxes {
        rows: rows.counts,
        columns: columns.counts,
        corners,
        starts: listing.starts,
        members: listing.members,
    })
}

/// Numbers the boxes, and the rows and the columns of each box.
fn places_of(alloc: Global, green: &Green) -> Result<Places, Memory>
    ensures { IfOk result (λ p. ArePlaces green.now p.boxes.counts.items p.boxes.numbers.items
        p.rows.numbers.items p.columns.numbers.items p.rows.counts.items p.columns.counts.items) }
{
    let group = vec![in alloc; 0; green.len() as usize]?;
    let boxes = number_classes(alloc, green.j_labels(), group.as_slice(), 1)?;
    let count = boxes.counts[0];
    let rows = number_classes(alloc, green.r_labels(), boxes.numbers.as_slice(), count)?;
    let columns = number_classes(alloc, green.l_labels(), boxes.numbers.as_slice(), count)?;
    Ok(Places {
        boxes,
        rows,
        columns,
    })
}

/// The first cell of each box, and the number of all cells.
fn corners_of(alloc: Global, rows: &[usize], columns: &[usize]) -> Result<Vec<usize>, Memory>
    requires few { length rows.now ≤ MOST_ELEMENTS }
    requires long { length columns.now ≡ length rows.now }
    requires high { (b : ℕ) → b < length rows.now → slice_index rows.now b ≤ MOST_ELEMENTS }
    requires wide { (b : ℕ) → b < length rows.now → slice_index columns.now b ≤ MOST_ELEMENTS }
    ensures { IfOk result (λ corners. AreCorners rows.now columns.now corners.items) }
{
    let mut areas = Vec::with_capacity(alloc, rows.len())?;
    for index in 0..rows.len() {
        areas.push(rows[index] * columns[index])?;
    }
    starts_of(alloc, areas.as_slice())
}

/// The number of each element's cell: the cells of a box are numbered row by row.
fn cells_of(
    alloc: Global,
    boxes: &[usize],
    rows: &[usize],
    columns: &[usize],
    wide: &[usize],
    corners: &[usize],
) -> Result<Vec<usize>, Memory>
    requires { LieInBoxes boxes.now rows.now columns.now wide.now corners.now }
    ensures { IfOk result (λ cells. AreCells boxes.now rows.now columns.now wide.now corners.now
        (length boxes.now) cells.items) }
{
    let mut cells = Vec::with_capacity(alloc, boxes.len())?;
    for element in 0..boxes.len() {
        let index = boxes[element];
        let before = rows[element] * wide[index];
        cells.push(corners[index] + (before + columns[element]))?;
    }
    Ok(cells)
}
