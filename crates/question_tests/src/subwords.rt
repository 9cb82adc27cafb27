//! What is answered of short subwords and of letters that commute.
ghost use Rattle.std.specs.Prelude.{IfOk};
ghost use Rattle.language_theory.specs.ShortlexGraph.{SameNode};
ghost use Rattle.green_relations.specs.GreenClasses.{AreGreens};

use crate::languages::{
    A_BEFORE_B, AB_STAR, BEGINS_WITH_A, EMPTY_LANGUAGE, EMPTY_WORD, EVEN_AS, ONE_A, dfa_of,
    monoid_of,
};
use answers::{CWitness, PtAnswer, PtWitness, Side};
use green_relations::{Green, green_of};
use level_search::{BeginFault, MOST_LEVEL, MOST_PAIRS, Quotient};
use piecewise_testable::{Subwords, commutative, piecewise, r_trivial};
use std::alloc::Global;
use std::test::Fail;
use std::thread::Threads;
use syn_words::{Memory, Word};
use syntactic_monoid::Syntactic;

/// Green's classes of a monoid.
fn classes_of(alloc: Global, monoid: &Syntactic) -> Result<Green, Memory>
    ensures { IfOk result (λ g. AreGreens monoid.now.graphs.right.letters
        (SameNode monoid.now.graphs.right) monoid.now.graphs.words g) }
{
    let green = green_of(alloc, monoid.cayley())?;
    Ok(green)
}

/// A word as letters from `a` on, and `1` for the empty word.
fn say_word(text: &mut Vec<u8>, word: &Word) -> Result<(), Memory> {
    if word.len() == 0 {
        text.push(b'1')?;
    }
    for letter in word.letters() {
        text.push(letter.wrapping_add(b'a'))?;
    }
    text.push(b' ')?;
    Ok(())
}

/// Whether the first word of a witness is in the language, as a sign.
fn sign(first_in: bool) -> u8 {
    if first_in { b'+' } else { b'-' }
}

/// The side of a witness, its words u, s, the letter, y and v, and whether the first word is in the language.
fn witness_text(alloc: Global, witness: &PtWitness) -> Result<Vec<u8>, Memory> {
    let mut text = Vec::new(alloc);
    text.push(if witness.side == Side::Right {
        b'R'
    } else {
        b'L'
    })?;
    text.push(b' ')?;
    say_word(&mut text, &witness.u)?;
    say_word(&mut text, &witness.s)?;
    text.push(witness.letter.wrapping_add(b'a'))?;
    text.push(b' ')?;
    say_word(&mut text, &witness.y)?;
    say_word(&mut text, &witness.v)?;
    text.push(sign(witness.first_in))?;
    Ok(text)
}

/// A letter for the kind of an answer, and its level.
fn level_text(alloc: Global, kind: u8, level: u32) -> Result<Vec<u8>, Memory> {
    let mut text = Vec::new(alloc);
    text.push(kind)?;
    text.push(b'0'.wrapping_add((level % 10) as u8))?;
    Ok(text)
}

fn answer_text(alloc: Global, answer: &PtAnswer) -> Result<Vec<u8>, Memory> {
    match answer {
        PtAnswer::Yes(level) => level_text(alloc, b'Y', *level),
        PtAnswer::No(witness) => witness_text(alloc, witness),
        PtAnswer::Wide(level) => level_text(alloc, b'W', *level),
        PtAnswer::Pairs(level) => level_text(alloc, b'P', *level),
        PtAnswer::NoneTo(level) => level_text(alloc, b'N', *level),
    }
}

/// What `piecewise` answers for the language of a file.
fn piecewise_text<R: Threads + Sync>(
    rt: &R,
    alloc: Global,
    file: &[u8],
    max_level: u32,
    max_pairs: u32,
) -> Result<Vec<u8>, Memory> {
    if max_level > MOST_LEVEL || max_pairs > MOST_PAIRS {
        return Err(Memory);
    }
    let dfa = dfa_of(alloc, file)?;
    // Its contract tells that the automaton is minimal.
    let _states = dfa.len();
    let monoid = monoid_of(rt, alloc, &dfa)?;
    let green = classes_of(alloc, &monoid)?;
    let answer = piecewise(alloc, &monoid, &green, &dfa, max_level, max_pairs)?;
    answer_text(alloc, &answer)
}

/// What `r_trivial` answers for such a language; `Y0` for yes.
fn r_trivial_text<R: Threads + Sync>(
    rt: &R,
    alloc: Global,
    file: &[u8],
) -> Result<Vec<u8>, Memory> {
    let dfa = dfa_of(alloc, file)?;
    let monoid = monoid_of(rt, alloc, &dfa)?;
    let green = classes_of(alloc, &monoid)?;
    match r_trivial(alloc, &monoid, &green)? {
        Some(witness) => witness_text(alloc, &witness),
        None => level_text(alloc, b'Y', 0),
    }
}

/// The letters of a witness, its words u and v, and whether the first word is in the language.
fn swap_text(alloc: Global, witness: &CWitness) -> Result<Vec<u8>, Memory> {
    let mut text = Vec::new(alloc);
    text.push(witness.a.wrapping_add(b'a'))?;
    text.push(witness.b.wrapping_add(b'a'))?;
    text.push(b' ')?;
    say_word(&mut text, &witness.u)?;
    say_word(&mut text, &witness.v)?;
    text.push(sign(witness.first_in))?;
    Ok(text)
}

/// What `commutative` answers for such a language.
fn swap_of<R: Threads + Sync>(
    rt: &R,
    alloc: Global,
    file: &[u8],
) -> Result<Option<CWitness>, Memory> {
    let dfa = dfa_of(alloc, file)?;
    let monoid = monoid_of(rt, alloc, &dfa)?;
    commutative(alloc, &monoid)
}

/// The same as a text; `Y0` for yes.
fn commutative_text<R: Threads + Sync>(
    rt: &R,
    alloc: Global,
    file: &[u8],
) -> Result<Vec<u8>, Memory> {
    let Some(witness) = swap_of(rt, alloc, file)? else {
        return level_text(alloc, b'Y', 0);
    };
    swap_text(alloc, &witness)
}

/// Files with limits on the levels and on the pairs, and what is answered. `a(ba)^n` is not in `(ab)*`, and `a(ba)^n b`
/// is; `(ab)^n a` begins with a, and `b(ab)^n a` does not. Level 0 of `b*ab*` has three pairs, those of the three
/// states.
const PIECEWISE: [(&[u8], u32, u32, &[u8]); 8] = [
    (AB_STAR, 8, 1000, b"R 1 a b a 1 -"),
    (BEGINS_WITH_A, 8, 1000, b"L 1 a b a 1 +"),
    (EMPTY_LANGUAGE, 8, 1000, b"Y0"),
    (EMPTY_WORD, 8, 1000, b"Y1"),
    (A_BEFORE_B, 8, 1000, b"Y2"),
    (A_BEFORE_B, 1, 1000, b"N1"),
    (ONE_A, 8, 2, b"P0"),
    (ONE_A, 8, 1000, b"Y2"),
];

#[test]
fn levels_and_witnesses_of_short_subwords(rt: HostRuntime) -> Result<(), Fail> {
    for (file, max_level, max_pairs, want) in PIECEWISE {
        let text = piecewise_text(&rt, rt.alloc(), file, max_level, max_pairs)?;
        assert_eq!(rt; text.as_slice(), want);
    }
    Ok(())
}

/// Files, and what is answered of R-triviality.
const TRIVIAL: [(&[u8], &[u8]); 2] = [(EVEN_AS, b"R 1 1 a a 1 +"), (BEGINS_WITH_A, b"Y0")];

#[test]
fn even_as_is_not_r_trivial_and_begins_with_a_is(rt: HostRuntime) -> Result<(), Fail> {
    for (file, want) in TRIVIAL {
        let text = r_trivial_text(&rt, rt.alloc(), file)?;
        assert_eq!(rt; text.as_slice(), want);
    }
    Ok(())
}

/// Files, and what is answered of letters that commute.
const COMMUTATIVE: [(&[u8], &[u8]); 2] = [(EVEN_AS, b"Y0"), (BEGINS_WITH_A, b"ab 1 1 +")];

#[test]
fn even_as_is_commutative_and_begins_with_a_is_not(rt: HostRuntime) -> Result<(), Fail> {
    for (file, want) in COMMUTATIVE {
        let text = commutative_text(&rt, rt.alloc(), file)?;
        assert_eq!(rt; text.as_slice(), want);
    }
    Ok(())
}

/// Over three letters there are 29,524 words of at most nine letters, and 88,573 of at most ten.
#[test]
fn level_ten_of_three_letters_is_too_wide(rt: HostRuntime) -> Result<(), Fail> {
    let mut subwords = Subwords::new(rt.alloc());
    assert_eq!(rt; subwords.begin(3, 9).ok(), Some(0));
    assert_eq!(rt; subwords.begin(3, 10).err(), Some(BeginFault::Wide));
    Ok(())
}

/// Over one letter at level 2 the keys of 1, a and aa are different, and that of aaa is that of aa.
#[test]
fn longer_words_get_old_keys(rt: HostRuntime) -> Result<(), Fail> {
    let mut subwords = Subwords::new(rt.alloc());
    let mut key = subwords.begin(1, 2)?;
    key = subwords.step(key, 0)?;
    key = subwords.step(key, 0)?;
    key = subwords.step(key, 0)?;
    assert_eq!(rt; key, 2);
    assert_eq!(rt; subwords.len(), 3);
    Ok(())
}
