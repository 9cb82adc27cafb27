//! Rows of marks for the short subwords of words.
ghost use Rattle.std.specs.Prelude.{◌≡◌, ◌<◌, ◌≤◌, false, true, length, replicate, slice_set, IfOk};
ghost use Rattle.subword_theory.specs.SubwordRows.{next_row};
ghost use Rattle.syn_words.specs.Alphabet.{most_letters};

use level_search::MOST_WIDTH;
use number_set::NumberSet;
use std::alloc::Global;
use syn_words::Memory;

/// The row of the empty word. Condition: the width is not 0.
pub(crate) fn first_row(alloc: Global, width: u32) -> Result<NumberSet, Memory>
    requires { 1 ≤ width }
    ensures { IfOk result (λ row. row ≡ slice_set (replicate width false) 0 true) }
{
    let mut row = NumberSet::empty(alloc, width)?;
    row.insert(0);
    Ok(row)
}

/// The row of a word with a letter behind it. Conditions: the row is not wider than `MOST_WIDTH`, there are at most 60
/// letters, and the letter is in range.
///
/// The places of words with the letter behind them rise with those of the words, so the walk ends with the first place
/// beyond the row.
pub(crate) fn next_row(row: &NumberSet, letters: u32, letter: u8) -> Result<NumberSet, Memory>
    requires narrow { length row.now ≤ MOST_WIDTH }
    requires few_letters { letters ≤ most_letters }
    requires letter { letter < letters }
    ensures { IfOk result (λ next. next ≡ next_row letters letter row.now) }
{
    let size = row.size();
    let mut next = row.copy()?;
    let mut members = row.members();
    while let Some(place) = members.next() {
        let child = place * letters + u32::from(letter) + 1;
        if child >= size {
            return Ok(next);
        }
        next.insert(child);
    }
    Ok(next)
}
