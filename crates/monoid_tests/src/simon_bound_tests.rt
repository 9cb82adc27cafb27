//! The longest chains of small monoids, and the levels of Simon's theorem.
use crate::worked;
use cayley_tables::Cayley;
use froidure_pin::{Generators, enumerate};
use green_relations::green_of;
use simon_bound::{j_trivial, longest_chain, simon_level};
use std::alloc::Global;
use std::test::Fail;
use syn_outside::OpenGate;
use syn_words::Memory;

/// The elements of the longest chain, then the level, and 1 if the monoid is J-trivial.
fn numbers(alloc: Global, cayley: &Cayley) -> Result<Vec<u32>, Memory> {
    let green = green_of(alloc, cayley)?;
    let chain = longest_chain(alloc, cayley, &green)?;
    let mut numbers = Vec::new(alloc);
    for place in 0..chain.len() {
        numbers.push(chain.at(place))?;
    }
    numbers.push(simon_level(&chain))?;
    numbers.push(u32::from(j_trivial(cayley, &green)))?;
    Ok(numbers)
}

/// The monoid of the words over ab that have a subword ab: 1, a, b, ab (which is 0) and ba, as maps of three states.
fn a_before_b(alloc: Global) -> Result<Generators, Memory> {
    let mut generators = Generators::new(alloc, 3, 2)?;
    generators.set(0, 0, 1);
    generators.set(1, 1, 2);
    Ok(generators)
}

/// The monoid of the empty word alone over one letter: 1 and a (which is 0), as maps of two states.
fn empty_word(alloc: Global) -> Result<Generators, Memory> {
    let mut generators = Generators::new(alloc, 2, 1)?;
    generators.set(0, 0, 1);
    Ok(generators)
}

#[test]
fn chain_of_a_before_b(rt: HostRuntime) -> Result<(), Fail> {
    let generators = a_before_b(rt.alloc())?;
    let all = enumerate(&rt, rt.alloc(), &generators, 5, 1, &OpenGate)?;
    let numbers = numbers(rt.alloc(), &all.cayley)?;
    assert_eq!(rt; numbers.as_slice(), [0, 1, 4, 3, 7, 1].as_slice());
    Ok(())
}

#[test]
fn chain_of_the_empty_word(rt: HostRuntime) -> Result<(), Fail> {
    let generators = empty_word(rt.alloc())?;
    let all = enumerate(&rt, rt.alloc(), &generators, 2, 1, &OpenGate)?;
    let numbers = numbers(rt.alloc(), &all.cayley)?;
    assert_eq!(rt; numbers.as_slice(), [0, 1, 3, 1].as_slice());
    Ok(())
}

#[test]
fn chain_of_ab_star(rt: HostRuntime) -> Result<(), Fail> {
    let cayley = worked::ab_star(rt.alloc())?;
    let numbers = numbers(rt.alloc(), &cayley)?;
    assert_eq!(rt; numbers.as_slice(), [0, 1, 3, 5, 0].as_slice());
    Ok(())
}

#[test]
fn chain_of_all_words(rt: HostRuntime) -> Result<(), Fail> {
    let cayley = worked::all_words(rt.alloc())?;
    let numbers = numbers(rt.alloc(), &cayley)?;
    assert_eq!(rt; numbers.as_slice(), [0, 1, 1].as_slice());
    Ok(())
}

#[test]
fn chain_of_even_length(rt: HostRuntime) -> Result<(), Fail> {
    let cayley = worked::even_length(rt.alloc())?;
    let numbers = numbers(rt.alloc(), &cayley)?;
    assert_eq!(rt; numbers.as_slice(), [0, 1, 0].as_slice());
    Ok(())
}

/// Its classes of R have one element each, one of its classes of J has two.
#[test]
fn chain_of_begins_with_a(rt: HostRuntime) -> Result<(), Fail> {
    let cayley = worked::begins_with_a(rt.alloc())?;
    let numbers = numbers(rt.alloc(), &cayley)?;
    assert_eq!(rt; numbers.as_slice(), [0, 1, 3, 0].as_slice());
    Ok(())
}
