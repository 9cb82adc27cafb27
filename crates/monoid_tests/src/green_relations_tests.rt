//! The classes, idempotents and boxes of small monoids.
ghost use Rattle.std.specs.Prelude.{◌<◌, length};
ghost use Rattle.green_relations.specs.EggBoxes.{box_at};

use crate::worked;
use cayley_tables::Cayley;
use green_relations::{Boxes, Green, boxes_of, green_of};
use std::alloc::Global;
use std::test::Fail;
use syn_words::Memory;

/// The least elements of each element's classes of R, L, J and H, and 1 if it is idempotent.
fn classes(alloc: Global, green: &Green) -> Result<Vec<u32>, Memory> {
    let mut numbers = Vec::new(alloc);
    for i in 0..green.len() {
        numbers.push(green.r_class(i))?;
        numbers.push(green.l_class(i))?;
        numbers.push(green.j_class(i))?;
        numbers.push(green.h_class(i))?;
        numbers.push(u32::from(green.is_idempotent(i)))?;
    }
    Ok(numbers)
}

/// Puts the box, the row and the column of each member of a row behind the numbers, with the member.
fn push_row(boxes: &Boxes, n: u32, row: u32, numbers: &mut Vec<u32>) -> Result<(), Memory>
    requires number { n < length boxes.now }
    requires row { row < length (box_at boxes.now n) }
{
    for column in 0..boxes.columns(n) {
        for member in boxes.cell(n, row, column) {
            numbers.push(n)?;
            numbers.push(row)?;
            numbers.push(column)?;
            numbers.push(*member)?;
        }
    }
    Ok(())
}

/// Puts the box, the row and the column of each member behind the numbers, with the member, cell by cell.
fn push_members(boxes: &Boxes, numbers: &mut Vec<u32>) -> Result<(), Memory> {
    for n in 0..boxes.len() {
        for row in 0..boxes.rows(n) {
            push_row(boxes, n, row, numbers)?;
        }
    }
    Ok(())
}

/// The classes of each element, and then the place of each member of the boxes.
fn numbers(alloc: Global, cayley: &Cayley) -> Result<Vec<u32>, Memory> {
    let green = green_of(alloc, cayley)?;
    let boxes = boxes_of(alloc, &green)?;
    let mut numbers = classes(alloc, &green)?;
    push_members(&boxes, &mut numbers)?;
    Ok(numbers)
}

#[test]
fn even_length(rt: HostRuntime) -> Result<(), Fail> {
    let cayley = worked::even_length(rt.alloc())?;
    let numbers = numbers(rt.alloc(), &cayley)?;
    assert_eq!(rt;
        numbers.as_slice(),
        [0, 0, 0, 0, 1, 0, 0, 0, 0, 0, 0, 0, 0, 0, 0, 0, 0, 1].as_slice()
    );
    Ok(())
}

#[test]
fn ab_star(rt: HostRuntime) -> Result<(), Fail> {
    let cayley = worked::ab_star(rt.alloc())?;
    let numbers = numbers(rt.alloc(), &cayley)?;
    assert_eq!(rt;
        numbers.as_slice(),
        [
            0, 0, 0, 0, 1, 1, 1, 1, 1, 0, 2, 2, 1, 2, 0, 3, 3, 3, 3, 1, 1, 2, 1, 4, 1, 2, 1, 1, 5,
            1, 0, 0, 0, 0, 1, 0, 0, 1, 1, 0, 1, 4, 1, 1, 0, 5, 1, 1, 1, 2, 2, 0, 0, 3
        ]
        .as_slice()
    );
    Ok(())
}
