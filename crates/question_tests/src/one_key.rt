//! A quotient with one key, and what a search through its levels answers.
ghost use Rattle.std.specs.Prelude.{◌≡◌, ◌*◌, ℕ, Option};
ghost use Rattle.question_tests.specs.OneKey.{one_key_congruence, one_key_numbered};

use crate::languages::{EMPTY_LANGUAGE, EMPTY_WORD, dfa_of};
use level_search::{BeginFault, Level, MOST_LEVEL, MOST_PAIRS, Quotient, search};
use std::alloc::Global;
use std::test::Fail;
use subset_minimal::MinDfa;
use syn_words::Memory;

/// One key for all words. The levels from 4 on are too wide.
#[derive(Drop)]
pub(crate) struct OneKey {
    letters: u32,
    level: u32,
    keys: u32,
}

impl Quotient for OneKey {
    ghost least = { 0 };

    ghost width = { λ _ n. n * 10000 };

    ghost same = { λ _ _ _ _. Unit {0} };

    ghost letters_of = { λ q. q.letters };

    ghost level_of = { λ q. q.level };

    ghost number = { λ _ _. Option.Some 0 };

    ghost count = { λ q. q.keys };

    ghost is_sound = { λ q. q.keys ≡ 1 };

    ghost congruence = { λ k n _. one_key_congruence k };

    ghost numbered = { λ q one. one_key_numbered q.letters q.keys one };

    fn begin(&mut self, letters: u32, level: u32) -> Result<u32, BeginFault> {
        self.letters = letters;
        self.level = level;
        self.keys = u32::from(level < 4);
        if level >= 4 {
            return Err(BeginFault::Wide);
        }
        Ok(0)
    }

    fn step(&mut self, _state: u32, _letter: u8) -> Result<u32, Memory> {
        Ok(0)
    }

    fn len(&self) -> u32 {
        self.keys
    }
}

/// What the search with one key answers for the language of an automaton, from level 0 on.
fn answer(alloc: Global, dfa: &MinDfa, max_level: u32, max_pairs: u32) -> Result<Level, Memory> {
    if max_level > MOST_LEVEL || max_pairs > MOST_PAIRS {
        return Err(Memory);
    }
    let mut quotient = OneKey {
        letters: 0,
        level: 0,
        keys: 0,
    };
    let level = search(alloc, dfa, &mut quotient, 0, max_level, max_pairs)?;
    Ok(level)
}

/// The greatest levels and the limits on the pairs, with what is answered for the empty language over two letters, and
/// with what is answered for the language of the empty word over one letter.
const ANSWERS: [(u32, u32, Level, Level); 5] = [
    (3, 10, Level::Yes(0), Level::NoneTo(3)),
    (3, 2, Level::Yes(0), Level::NoneTo(3)),
    (3, 1, Level::Yes(0), Level::Pairs(0)),
    (3, 0, Level::Pairs(0), Level::Pairs(0)),
    (5, 10, Level::Yes(0), Level::Wide(4)),
];

#[test]
fn one_key_for_all_words(rt: HostRuntime) -> Result<(), Fail> {
    let alloc = rt.alloc();
    let empty_language = dfa_of(alloc, EMPTY_LANGUAGE)?;
    let empty_word = dfa_of(alloc, EMPTY_WORD)?;
    for (max_level, max_pairs, of_language, of_word) in ANSWERS {
        assert_eq!(rt;
            answer(alloc, &empty_language, max_level, max_pairs)?,
            of_language
        );
        assert_eq!(rt; answer(alloc, &empty_word, max_level, max_pairs)?, of_word);
    }
    Ok(())
}
