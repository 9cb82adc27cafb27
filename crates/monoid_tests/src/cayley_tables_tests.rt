//! Every look-up of every element.
use crate::worked;
use cayley_tables::Cayley;
use std::alloc::Global;
use std::test::Fail;
use syn_words::Memory;

/// Puts the targets of each element by each letter behind the numbers: in the right and in the left graph.
fn push_targets(cayley: &Cayley, numbers: &mut Vec<u32>) -> Result<(), Memory> {
    for element in 0..cayley.len() {
        for letter in 0..cayley.letters() {
            numbers.push(cayley.right(element, letter as u8))?;
            numbers.push(cayley.left(letter as u8, element))?;
        }
    }
    Ok(())
}

/// Puts the product of each element with each behind the numbers, row by row.
fn push_products(cayley: &Cayley, numbers: &mut Vec<u32>) -> Result<(), Memory> {
    for left in 0..cayley.len() {
        for right in 0..cayley.len() {
            numbers.push(cayley.product(left, right))?;
        }
    }
    Ok(())
}

/// Puts the prefix, the last letter, the first letter and the suffix of each element but the first behind the numbers.
fn push_links(cayley: &Cayley, numbers: &mut Vec<u32>) -> Result<(), Memory> {
    for element in 1..cayley.len() {
        numbers.push(cayley.prefix(element))?;
        numbers.push(u32::from(cayley.last(element)))?;
        numbers.push(u32::from(cayley.first(element)))?;
        numbers.push(cayley.suffix(element))?;
    }
    Ok(())
}

/// Puts the element of the word of each element behind the numbers.
fn push_found(cayley: &Cayley, numbers: &mut Vec<u32>) -> Result<(), Memory> {
    for element in 0..cayley.len() {
        let word = cayley.word(element)?;
        numbers.push(cayley.find(&word))?;
    }
    Ok(())
}

/// The numbers of elements and of letters, both lists of targets, and every look-up.
fn numbers(alloc: Global, cayley: &Cayley) -> Result<Vec<u32>, Memory> {
    let mut numbers = Vec::new(alloc);
    numbers.push(cayley.len())?;
    numbers.push(cayley.letters())?;
    numbers.extend_from_slice(cayley.right_targets())?;
    numbers.extend_from_slice(cayley.left_targets())?;
    push_targets(cayley, &mut numbers)?;
    push_products(cayley, &mut numbers)?;
    push_links(cayley, &mut numbers)?;
    push_found(cayley, &mut numbers)?;
    Ok(numbers)
}

#[test]
fn even_length(rt: HostRuntime) -> Result<(), Fail> {
    let cayley = worked::even_length(rt.alloc())?;
    let numbers = numbers(rt.alloc(), &cayley)?;
    assert_eq!(rt;
        numbers.as_slice(),
        [2, 1, 1, 0, 1, 0, 1, 1, 0, 0, 0, 1, 1, 0, 0, 0, 0, 0, 0, 1].as_slice()
    );
    Ok(())
}

#[test]
fn ab_star(rt: HostRuntime) -> Result<(), Fail> {
    let cayley = worked::ab_star(rt.alloc())?;
    let numbers = numbers(rt.alloc(), &cayley)?;
    assert_eq!(rt;
        numbers.as_slice(),
        [
            6, 2, 1, 2, 3, 4, 5, 3, 3, 3, 1, 3, 3, 2, 1, 2, 3, 5, 4, 3, 3, 3, 3, 2, 1, 3, 1, 1, 2,
            2, 3, 3, 4, 5, 5, 4, 3, 3, 3, 3, 3, 3, 1, 3, 3, 2, 3, 1, 2, 3, 0, 1, 2, 3, 4, 5, 1, 3,
            4, 3, 3, 1, 2, 5, 3, 3, 2, 3, 3, 3, 3, 3, 3, 3, 4, 1, 3, 3, 4, 3, 5, 3, 2, 3, 3, 5, 0,
            0, 0, 0, 0, 1, 1, 0, 1, 0, 0, 1, 1, 1, 0, 2, 2, 0, 1, 1, 0, 1, 2, 3, 4, 5
        ]
        .as_slice()
    );
    Ok(())
}
