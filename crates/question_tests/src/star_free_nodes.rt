//! Small star-free lists, with values found by hand.
use star_free_lists::SfList;
use star_free_lists::SfNode::{self, And, Cat, Empty, Eps, Letter, Not, Or};
use std::alloc::Global;
use std::test::Fail;
use syn_words::{Memory, Word};

/// The word with these letters.
pub(crate) fn word_of(alloc: Global, letters: &[u8]) -> Result<Word, Memory> {
    let mut word = Word::new(alloc);
    for &letter in letters {
        word.push(letter)?;
    }
    Ok(word)
}

/// The nodes of a list, as they are looked up.
fn nodes_of(alloc: Global, list: &SfList) -> Result<Vec<SfNode>, Memory> {
    let mut nodes = Vec::new(alloc);
    for n in 0..list.len() {
        nodes.push(list.node(n))?;
    }
    Ok(nodes)
}

/// The words of `(ab)*`: the empty one, and those that begin with a, end with b, and have neither aa nor bb in them.
#[test]
fn ab_star(rt: HostRuntime) -> Result<(), Fail> {
    let alloc = rt.alloc();
    let nodes = [
        Empty,
        Not(0),
        Eps,
        Letter(0),
        Letter(1),
        Cat(3, 1),
        Cat(1, 4),
        And(5, 6),
        Cat(3, 3),
        Cat(4, 4),
        Or(8, 9),
        Cat(1, 10),
        Cat(11, 1),
        Not(12),
        And(7, 13),
        Or(2, 14),
    ];
    let list = SfList::of(alloc, &nodes, 15)?;
    assert_eq!(rt; list.root(), 15);
    assert_eq!(rt; nodes_of(alloc, &list)?.as_slice(), nodes.as_slice());
    for (letters, want) in [
        ([].as_slice(), true),
        ([0].as_slice(), false),
        ([1].as_slice(), false),
        ([0, 1].as_slice(), true),
        ([1, 0].as_slice(), false),
        ([0, 0, 1].as_slice(), false),
        ([0, 1, 0].as_slice(), false),
        ([0, 1, 0, 1].as_slice(), true),
        ([0, 1, 1, 0, 1].as_slice(), false),
    ] {
        let word = word_of(alloc, letters)?;
        assert_eq!(rt; list.accepts(&word)?, want, "at {letters:?}");
    }
    Ok(())
}

/// The words that end with a: any word, and then a.
#[test]
fn ends_with_a(rt: HostRuntime) -> Result<(), Fail> {
    let alloc = rt.alloc();
    let list = SfList::of(alloc, &[Empty, Not(0), Letter(0), Cat(1, 2)], 3)?;
    assert!(rt; list.accepts(&word_of(alloc, &[1, 0])?)?);
    assert!(rt; !list.accepts(&word_of(alloc, &[0, 1])?)?);
    Ok(())
}

/// Words that begin with a, from a list with three nodes too many.
#[test]
fn begins_with_a(rt: HostRuntime) -> Result<(), Fail> {
    let alloc = rt.alloc();
    let nodes = [
        Eps,
        Empty,
        Letter(1),
        Letter(0),
        Not(1),
        Cat(3, 4),
        Or(0, 2),
    ];
    let list = SfList::of(alloc, &nodes, 5)?.prune(alloc)?;
    assert_eq!(rt; list.root(), 3);
    let want = [Empty, Letter(0), Not(0), Cat(1, 2)];
    assert_eq!(rt; nodes_of(alloc, &list)?.as_slice(), want.as_slice());
    Ok(())
}
