//! Words and alphabets.
use indexmap::IndexSet;
use std::alloc::Global;
use std::cmp::Ordering;
use std::test::Fail;
use syn_words::{Alphabet, AlphabetFault, Memory, Word, shortlex};

/// The word of some letters.
pub fn word(alloc: Global, letters: &[u8]) -> Result<Word, Memory> {
    let mut word = Word::new(alloc);
    for letter in letters {
        word.push(*letter)?;
    }
    Ok(word)
}

#[test]
fn orders_words(rt: HostRuntime) -> Result<(), Fail> {
    let ordered: [&[u8]; 6] = [b"", b"\x01", b"\x02", b"\x00\x00", b"\x00\x01", b"\x01\x00"];
    for (i, first) in ordered.iter().enumerate() {
        for (j, second) in ordered.iter().enumerate() {
            let (u, v) = (word(rt.alloc(), first)?, word(rt.alloc(), second)?);
            assert_eq!(rt; shortlex(&u, &v), i.cmp(&j), "words {i} and {j}");
        }
    }
    Ok(())
}

#[test]
fn copies_and_finds_words(rt: HostRuntime) -> Result<(), Fail> {
    let long = word(rt.alloc(), &[7; 40])?;
    let copy = long.copy()?;
    assert_eq!(rt; copy.len(), 40);
    assert!(rt; copy == long);
    let mut words = IndexSet::new(rt.alloc());
    assert_eq!(rt; words.insert_full(word(rt.alloc(), b"")?)?.0, 0);
    assert_eq!(rt; words.insert_full(long)?.0, 1);
    assert_eq!(rt; words.get_index_of(&copy), Some(1));
    Ok(())
}

#[test]
fn reads_alphabets(rt: HostRuntime) -> Result<(), Fail> {
    for text in [&b"ab"[..], b"ba", b"abcdefghijklmnopqrstuvwxyz"] {
        let alphabet = Alphabet::from_text(rt.alloc(), text)?;
        assert_eq!(rt; alphabet.letters(), text);
        for (place, byte) in text.iter().enumerate() {
            assert_eq!(rt; alphabet.number(*byte).map(usize::from), Some(place));
        }
    }
    for text in [
        &b""[..],
        b"aa",
        b"aba",
        b"A",
        b"a b",
        b"abcdefghijklmnopqrstuvwxyza",
        b"{",
        b"`",
    ] {
        let fault = Alphabet::from_text(rt.alloc(), text).err();
        assert_eq!(rt; fault, Some(AlphabetFault::Bad));
    }
    assert_eq!(rt; Alphabet::from_text(rt.alloc(), b"ba")?.number(b'c'), None);
    Ok(())
}
