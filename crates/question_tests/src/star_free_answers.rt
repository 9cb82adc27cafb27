//! Whether the powers of two languages settle, and their star-free lists, with values found by hand.
ghost use Rattle.std.specs.Prelude.{◌≤◌};
ghost use Rattle.star_free_lists.specs.SfList.{most_nodes};

use crate::languages::{AB_STAR, dfa_of, monoid_of};
use crate::star_free_nodes::word_of;
use parallel_table::{fill, new_table};
use star_free::{Powers, SfAnswer, decide, star_free};
use std::alloc::Global;
use std::test::Fail;
use std::thread::Threads;
use syn_outside::OpenGate;
use syn_words::{Memory, Word};
use syntactic_monoid::Syntactic;

/// The words of even length over a.
const EVEN_LENGTH: &[u8] = b"synmon 1\nalphabet a\nexpr (aa)*\n";

/// Puts a word behind a text, with its letters from `a` on, and a line's end.
fn push_word(text: &mut Vec<u8>, word: &Word) -> Result<(), Memory> {
    for letter in word.letters() {
        text.push(letter.wrapping_add(b'a'))?;
    }
    text.push(b'\n')?;
    Ok(())
}

/// The words that never settle, the index and the period as digits, and a star if the first word is in the language;
/// nothing where all powers settle.
fn powers_text(alloc: Global, powers: &Powers) -> Result<Vec<u8>, Memory> {
    let mut text = Vec::new(alloc);
    if let Powers::Loops(found) = powers {
        push_word(&mut text, &found.u)?;
        push_word(&mut text, &found.x)?;
        push_word(&mut text, &found.v)?;
        text.push(b'0' + (found.index % 10) as u8)?;
        text.push(b'0' + (found.period % 10) as u8)?;
        text.push(if found.first_in { b'*' } else { b' ' })?;
    }
    Ok(text)
}

#[test]
fn even_length_never_settles(rt: HostRuntime) -> Result<(), Fail> {
    let monoid = monoid_of(&rt, rt.alloc(), &dfa_of(rt.alloc(), EVEN_LENGTH)?)?;
    let text = powers_text(rt.alloc(), &decide(rt.alloc(), &monoid)?)?;
    assert_eq!(rt; text.as_slice(), b"\na\n\n02*".as_slice());
    Ok(())
}

#[test]
fn ab_star_settles(rt: HostRuntime) -> Result<(), Fail> {
    let monoid = monoid_of(&rt, rt.alloc(), &dfa_of(rt.alloc(), AB_STAR)?)?;
    let text = powers_text(rt.alloc(), &decide(rt.alloc(), &monoid)?)?;
    assert_eq!(rt; text.as_slice(), b"".as_slice());
    Ok(())
}

/// The star-free answer of a monoid of at most six elements, with the table of its products.
fn answer_of<R: Threads + Sync>(
    rt: &R,
    alloc: Global,
    monoid: &Syntactic,
    most: u32,
) -> Result<SfAnswer, Memory>
    requires { most ≤ most_nodes }
{
    let Ok(mut table) = new_table(alloc, monoid.cayley(), 6) else {
        return Err(Memory);
    };
    fill(rt, monoid.cayley(), &mut table, 1, &OpenGate);
    star_free(alloc, monoid, Some(&table), most)
}

/// The number of nodes of a list, and whether it denotes a word; none where the answer is no list.
fn told_by(
    alloc: Global,
    answer: &SfAnswer,
    letters: &[u8],
) -> Result<Option<(u32, bool)>, Memory> {
    let SfAnswer::Yes(list) = answer else {
        return Ok(None);
    };
    let word = word_of(alloc, letters)?;
    Ok(Some((list.len(), list.accepts(&word)?)))
}

#[test]
fn ab_star_has_a_list(rt: HostRuntime) -> Result<(), Fail> {
    let alloc = rt.alloc();
    let monoid = monoid_of(&rt, alloc, &dfa_of(alloc, AB_STAR)?)?;
    let answer = answer_of(&rt, alloc, &monoid, 60)?;
    assert_eq!(rt;
        told_by(alloc, &answer, b"\x00\x01\x00\x01")?,
        Some((24, true))
    );
    assert_eq!(rt;
        told_by(alloc, &answer, b"\x00\x01\x00")?,
        Some((24, false))
    );
    let few = answer_of(&rt, alloc, &monoid, 59)?;
    assert!(rt; matches!(few, SfAnswer::Nodes));
    let none = star_free(alloc, &monoid, None, 60)?;
    assert!(rt; matches!(none, SfAnswer::TableLimit));
    Ok(())
}

#[test]
fn even_length_has_no_list(rt: HostRuntime) -> Result<(), Fail> {
    let monoid = monoid_of(&rt, rt.alloc(), &dfa_of(rt.alloc(), EVEN_LENGTH)?)?;
    let answer = star_free(rt.alloc(), &monoid, None, 1)?;
    assert!(rt; matches!(answer, SfAnswer::No(_)));
    Ok(())
}
