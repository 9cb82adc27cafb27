//! The syntactic monoids of two languages: elements, membership, words and contexts.
ghost use Rattle.std.specs.Prelude.{◌≤◌, IfOk};
ghost use Rattle.language_theory.specs.Words.{Over};

use automata::Nfa;
use std::alloc::Global;
use std::test::Fail;
use std::thread::Threads;
use subset_minimal::minimal;
use syn_outside::OpenGate;
use syn_words::{Memory, Word};
use syntactic_enumeration::{SynFault, syntactic_of};
use syntactic_monoid::{Pair, Syntactic};

/// An automaton of `(ab)*` over ab; the minimal one has three states.
fn ab_star(alloc: Global) -> Result<Nfa, Memory> {
    let mut nfa = Nfa::new(alloc, 2, 2)?;
    nfa.set_initial(0);
    nfa.set_final(0);
    nfa.add_step(0, 0, 1)?;
    nfa.add_step(1, 1, 0)?;
    Ok(nfa)
}

/// An automaton of `b*ab*` over ab; the minimal one has three states.
fn one_a(alloc: Global) -> Result<Nfa, Memory> {
    let mut nfa = Nfa::new(alloc, 2, 2)?;
    nfa.set_initial(0);
    nfa.set_final(1);
    nfa.add_step(0, 0, 1)?;
    nfa.add_step(0, 1, 0)?;
    nfa.add_step(1, 1, 1)?;
    Ok(nfa)
}

/// The syntactic monoid of an automaton that reaches at most three state sets, by seven workers.
fn monoid_of<R: Threads + Sync>(
    rt: &R,
    alloc: Global,
    nfa: &Nfa,
    max_elements: u32,
) -> Result<Syntactic, SynFault>
    requires { max_elements ≤ 50000 }
{
    // The limit of three is kept, so only memory can be wanting.
    let Ok(dfa) = minimal(alloc, nfa, 3) else {
        return Err(SynFault::Memory);
    };
    syntactic_of(rt, alloc, &dfa, max_elements, 7, &OpenGate)
}

/// For each element the last digits of its targets in the right graph, and a star if it is accepted
/// and else a space.
fn elements_text(alloc: Global, monoid: &Syntactic) -> Result<Vec<u8>, Memory> {
    let mut text = Vec::new(alloc);
    for element in 0..monoid.cayley().len() {
        for letter in 0..monoid.cayley().letters() as u8 {
            text.push(b'0' + (monoid.cayley().right(element, letter) % 10) as u8)?;
        }
        text.push(if monoid.accepts(element) { b'*' } else { b' ' })?;
    }
    Ok(text)
}

/// The word of those of the letters of a text from `a` on that are in range.
#[tactic(auto, using(language_theory::proofs::Shortlex::over_last))]
fn word(alloc: Global, monoid: &Syntactic, text: &[u8]) -> Result<Word, Memory>
    ensures { IfOk result (λ w. Over monoid.now.graphs.right.letters w) }
{
    let mut word = Word::new(alloc);
    for sign in text {
        let letter = sign.wrapping_sub(b'a');
        if u32::from(letter) < monoid.cayley().letters() {
            word.push(letter)?;
        }
    }
    Ok(word)
}

/// The letters of both words of a context with a line between them.
fn pair_text(alloc: Global, pair: &Pair) -> Result<Vec<u8>, Memory> {
    let mut text = Vec::new(alloc);
    text.extend_from_slice(pair.u.letters())?;
    text.push(b'_')?;
    text.extend_from_slice(pair.v.letters())?;
    Ok(text)
}

/// The text of the least separating context of the words of two texts, or nothing where they are congruent.
fn context_text(alloc: Global, monoid: &Syntactic, s: &[u8], t: &[u8]) -> Result<Vec<u8>, Memory> {
    let s = word(alloc, monoid, s)?;
    let t = word(alloc, monoid, t)?;
    match monoid.separate(&s, &t)? {
        Some(pair) => pair_text(alloc, &pair),
        None => Ok(Vec::new(alloc)),
    }
}

/// The least word of the identity that is not empty, or the empty word where there is none.
fn identity_word(alloc: Global, monoid: &Syntactic) -> Result<Word, Memory> {
    // The length tells that element 0 is in range.
    if monoid.cayley().len() > 0 && monoid.in_semigroup(0) {
        monoid.nonempty_word(0)
    } else {
        Ok(Word::new(alloc))
    }
}

/// The syntactic monoid of `(ab)*`, where it has no more elements than the limit.
fn ab_star_monoid<R: Threads + Sync>(
    rt: &R,
    alloc: Global,
    max_elements: u32,
) -> Result<Syntactic, SynFault>
    requires { max_elements ≤ 50000 }
{
    let nfa = ab_star(alloc)?;
    monoid_of(rt, alloc, &nfa, max_elements)
}

#[test]
fn ab_star_has_six_elements(rt: HostRuntime) -> Result<(), Fail> {
    let monoid = ab_star_monoid(&rt, rt.alloc(), 6)?;
    let text = elements_text(rt.alloc(), &monoid)?;
    assert_eq!(rt; text.as_slice(), b"12*34 53 33 13*32 ".as_slice());
    Ok(())
}

#[test]
fn ab_star_has_more_than_five_elements(rt: HostRuntime) -> Result<(), Fail> {
    let few = ab_star_monoid(&rt, rt.alloc(), 5);
    assert_eq!(rt; few.err(), Some(SynFault::ElementLimit));
    Ok(())
}

/// In the monoid of `(ab)*` both bb and aaa are the zero.
#[test]
fn ab_star_does_not_separate_zeros(rt: HostRuntime) -> Result<(), Fail> {
    let monoid = ab_star_monoid(&rt, rt.alloc(), 6)?;
    let text = context_text(rt.alloc(), &monoid, b"bb", b"aaa")?;
    assert_eq!(rt; text.as_slice(), b"".as_slice());
    Ok(())
}

/// The word ab is in `(ab)*` and a is not.
#[test]
fn ab_star_separates_a_and_ab(rt: HostRuntime) -> Result<(), Fail> {
    let monoid = ab_star_monoid(&rt, rt.alloc(), 6)?;
    let text = context_text(rt.alloc(), &monoid, b"a", b"ab")?;
    assert_eq!(rt; text.as_slice(), b"_".as_slice());
    Ok(())
}

/// In the monoid of `b*ab*` the identity is the element of b.
#[test]
fn one_a_identity_has_the_word_b(rt: HostRuntime) -> Result<(), Fail> {
    let nfa = one_a(rt.alloc())?;
    let monoid = monoid_of(&rt, rt.alloc(), &nfa, 3)?;
    let word = identity_word(rt.alloc(), &monoid)?;
    assert_eq!(rt; word.letters(), [1].as_slice());
    Ok(())
}
