//! The rules of four monoids, and a word that they rewrite.
ghost use Rattle.std.specs.Prelude.{◌<◌, length};

use crate::worked;
use cayley_tables::Cayley;
use presentation::{Rules, rewrite, rules_of};
use std::alloc::Global;
use std::test::Fail;
use syn_words::Memory;

/// Writes a rule: the letters of its left side from `a` on, the last digit of its right side, and a
/// space.
fn write_rule(rules: &Rules, n: u32, text: &mut Vec<u8>) -> Result<(), Memory>
    requires { n < length rules.now }
{
    for letter in rules.left(n).letters() {
        text.push(b'a'.wrapping_add(*letter))?;
    }
    text.push(b'0' + (rules.right(n) % 10) as u8)?;
    text.push(b' ')?;
    Ok(())
}

/// The monoids of `(ab)*`, of the words of even length, of all words, and of the words that begin with a.
fn monoid(alloc: Global, number: u8) -> Result<Cayley, Memory> {
    match number {
        0 => worked::ab_star(alloc),
        1 => worked::even_length(alloc),
        2 => worked::all_words(alloc),
        _ => worked::begins_with_a(alloc),
    }
}

/// Writes the rules of a monoid, and a slash.
fn write_rules(alloc: Global, number: u8, text: &mut Vec<u8>) -> Result<(), Memory> {
    let cayley = monoid(alloc, number)?;
    let rules = rules_of(alloc, &cayley)?;
    for n in 0..rules.len() {
        write_rule(&rules, n, text)?;
    }
    text.push(b'/')?;
    Ok(())
}

/// The rules of the four monoids.
fn texts(alloc: Global) -> Result<Vec<u8>, Memory> {
    let mut text = Vec::new(alloc);
    for number in 0..4 {
        write_rules(alloc, number, &mut text)?;
    }
    Ok(text)
}

#[test]
fn rules_of_four_monoids(rt: HostRuntime) -> Result<(), Fail> {
    let text = texts(rt.alloc())?;
    assert_eq!(rt;
        text.as_slice(),
        b"bb3 aaa3 aab3 aba1 baa3 bab2 /aa0 /a0 b0 /aa1 ab1 ba2 bb2 /".as_slice()
    );
    Ok(())
}

/// In the monoid of `(ab)*` the word babba is rewritten to aa.
#[test]
fn babba_is_rewritten(rt: HostRuntime) -> Result<(), Fail> {
    let alloc = rt.alloc();
    let cayley = worked::ab_star(alloc)?;
    let rules = rules_of(alloc, &cayley)?;
    let reduced = rewrite(&cayley, &rules, &worked::babba(alloc)?)?;
    assert_eq!(rt; reduced.letters(), [0, 0].as_slice());
    Ok(())
}
