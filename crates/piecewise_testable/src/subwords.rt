//! The rows of short subwords, numbered as they are first seen.
ghost use Rattle.std.specs.Prelude.{◌≡◌, ◌<◌, ◌≤◌, ◌-◌, ◌^◌, ◌↔◌, [], length, IsTrue, IfOk, OnOk, OnErr};
ghost use Rattle.std.specs.Bool.{beq};
ghost use Rattle.std.specs.List.{position_or_len};
ghost use Rattle.std.specs.Cmp.Lexicographic.{pointwise};
ghost use Rattle.indexmap.specs.IndexSet.{insert_key};
ghost use Rattle.level_search.specs.Levels.{IsWide};
ghost use Rattle.subword_theory.specs.ShortSubwords.{SameSubwords};
ghost use Rattle.subword_theory.specs.SubwordRows.{width, next_row};
ghost use Rattle.subword_theory.proofs.SameWords.{same_right_congruence};
ghost use Rattle.piecewise_testable.specs.SubwordKeys.{SubwordKeys, AreSubwordKeys, number_of, row_at, subwords_numbered, IsWidthWithin};
ghost use Rattle.syn_words.specs.Alphabet.{most_letters};

use crate::rows::{first_row, next_row};
use indexmap::IndexSet;
use level_search::{BeginFault, MOST_WIDTH, Quotient};
use number_set::NumberSet;
use std::alloc::Global;
use std::marker::Model;
use syn_words::Memory;

/// The quotient whose key of a word is the set of its subwords of length at most the level. A key is kept as a row of
/// marks, with a place for each word of such a length in shortlex order: at most 4 KB, since the width of a level is at
/// most `MOST_WIDTH`.
#[derive(Drop)]
pub struct Subwords {
    alloc: Global,
    letters: u32,
    level: u32,
    rows: IndexSet<NumberSet>,
}

impl Model for Subwords {
    ghost use Rattle.std.specs.Prelude.{◌<◌, ◌^◌, length};
    ghost use Rattle.piecewise_testable.specs.SubwordKeys.{SubwordKeys};

    ghost Value = { SubwordKeys };

    ghost view = { λ s. record { letters = s.letters; level = s.level; rows = s.rows.keys } };

    ghost invariant = { λ s. length s.rows.keys < 2 ^ 32 };
}

impl Subwords {
    /// The quotient, with no level begun. It takes no memory.
    pub fn new(alloc: Global) -> Subwords
        ensures { result.rows ≡ [] }
    {
        Subwords {
            alloc,
            letters: 0,
            level: 0,
            rows: IndexSet::new(alloc),
        }
    }

    /// Takes another number of letters and another level, with no key seen.
    fn restart(&mut self, letters: u32, level: u32)
        ensures { self.new ≡ record { letters = letters; level = level; rows = [] } }
    {
        self.letters = letters;
        self.level = level;
        self.rows = IndexSet::new(self.alloc);
    }

    /// The row that has a number. Condition: it was seen.
    fn row(&self, number: u32) -> &NumberSet
        requires { number < length self.now.rows }
        ensures { result.now ≡ row_at self.now number }
    {
        &self.rows[number as usize]
    }

    /// The row to which a letter leads from the row that has a number. Conditions: the row was seen, and the letter is
    /// in range.
    fn next(&self, number: u32, letter: u8) -> Result<NumberSet, Memory>
        requires sound { AreSubwordKeys self.now }
        requires number { number < length self.now.rows }
        requires letter { letter < self.now.letters }
        ensures { IfOk result (λ row. row
            ≡ next_row self.now.letters letter (row_at self.now number)) }
    {
        let next = next_row(self.row(number), self.letters, letter)?;
        Ok(next)
    }

    /// Sees a row, if it was not seen before, and answers its number.
    fn see(&mut self, row: NumberSet) -> Result<u32, Memory>
        requires room { length self.old.rows < 2 ^ 32 - 1 }
        ensures seen { OnOk result (self.new
            ≡ record self.old { rows = insert_key (pointwise beq) self.old.rows row }) }
        ensures number { IfOk result (λ n. n ≡ position_or_len (pointwise beq row) self.old.rows) }
        ensures err { OnErr result (self.new ≡ self.old) }
    {
        let (number, _) = self.rows.insert_full(row)?;
        Ok(number as u32)
    }
}

impl Quotient for Subwords {
    ghost least = { 0 };

    ghost width = { width };

    ghost same = { λ _ n. SameSubwords n };

    ghost letters_of = { λ s. s.letters };

    ghost level_of = { λ s. s.level };

    ghost number = { number_of };

    ghost count = { λ s. length s.rows };

    ghost is_sound = { AreSubwordKeys };

    ghost congruence = { λ k n _. same_right_congruence k n };

    ghost numbered = { subwords_numbered };

    fn begin(&mut self, letters: u32, level: u32) -> Result<u32, BeginFault> {
        self.restart(letters, level);
        let Some(width) = width_within(letters, level) else {
            return Err(BeginFault::Wide);
        };
        let Ok(first) = first_row(self.alloc, width) else {
            return Err(BeginFault::Memory);
        };
        match self.see(first) {
            Ok(number) => Ok(number),
            Err(Memory) => Err(BeginFault::Memory),
        }
    }

    fn step(&mut self, state: u32, letter: u8) -> Result<u32, Memory> {
        let next = self.next(state, letter)?;
        let number = self.see(next)?;
        Ok(number)
    }

    fn len(&self) -> u32 {
        self.rows.len() as u32
    }
}

/// The number of words of a length or less over some letters, if it is at most `MOST_WIDTH`. Condition: 1 to 60
/// letters.
fn width_within(letters: u32, level: u32) -> Option<u32>
    requires some_letters { 1 ≤ letters }
    requires few_letters { letters ≤ most_letters }
    ensures { IsWidthWithin letters level result }
{
    let mut width = 1;
    for _ in 0..level {
        width = width * letters + 1;
        if width > MOST_WIDTH {
            return None;
        }
    }
    Some(width)
}
