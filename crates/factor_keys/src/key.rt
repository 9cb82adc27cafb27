//! Keys of words: prefix, suffix and factors.
ghost use Rattle.std.specs.Prelude.{◌≡◌, ◌<◌, ◌≤◌, ◌++◌, ◌∷◌, [], length, IfOk};
ghost use Rattle.factor_keys.specs.Keys.{prefix, suffix};
ghost use Rattle.factor_keys.specs.FactorKeys.{empty_key, next_key, next_factors, place, HasNext};

use crate::factor_set::FactorSet;
use level_search::MOST_WIDTH;
use std::alloc::Global;
use syn_words::{Memory, Word};

/// The key of a word at a level: the prefix and the suffix of one letter fewer than the level, or the whole word where
/// it has fewer, and the set of the factors that have as many letters as the level. A word shorter than the level has
/// no such factor, and is its own prefix.
#[derive(Drop, PartialEq, Eq, Hash)]
pub(crate) struct Key {
    prefix: Word,
    suffix: Word,
    factors: FactorSet,
}

impl Key {
    /// The key of the empty word.
    pub(crate) fn empty(alloc: Global) -> Key
        ensures { result ≡ empty_key }
    {
        Key {
            prefix: Word::new(alloc),
            suffix: Word::new(alloc),
            factors: FactorSet::new(alloc),
        }
    }

    /// The key of a word with a letter behind it.
    pub(crate) fn next(
        &self,
        alloc: Global,
        letters: u32,
        level: u32,
        letter: u8,
    ) -> Result<Key, Memory>
        requires { HasNext letters level self.now letter }
        ensures { IfOk result (λ key. key ≡ next_key letters level self.now letter) }
    {
        let most = level as usize - 1;
        let seen = longer(&self.suffix, letter)?;
        let factors = self.next_factors(letters, level, &seen)?;
        let prefix = next_prefix(&self.prefix, letter, most)?;
        let suffix = last_letters(alloc, &seen, most)?;
        Ok(Key {
            prefix,
            suffix,
            factors,
        })
    }

    /// The factors after the last letters that were seen.
    fn next_factors(&self, letters: u32, level: u32, seen: &Word) -> Result<FactorSet, Memory>
        requires letters { 1 ≤ letters }
        requires small { length seen.now ≡ level → place letters seen.now < MOST_WIDTH }
        ensures { IfOk result (λ s. s ≡ next_factors letters level self.now.factors seen.now) }
    {
        if seen.len() == level as usize {
            let factors = self.factors.with(place(letters, seen))?;
            return Ok(factors);
        }
        let factors = self.factors.copy()?;
        Ok(factors)
    }
}

/// The prefix of a word with a letter behind it, which has at most `most` letters.
fn next_prefix(word: &Word, letter: u8, most: usize) -> Result<Word, Memory>
    requires { length word.now ≤ most }
    ensures { IfOk result (λ w. w ≡ prefix most (word.now ++ letter ∷ [])) }
{
    if word.len() < most {
        let next = longer(word, letter)?;
        return Ok(next);
    }
    let next = word.copy()?;
    Ok(next)
}

/// The word with a letter behind it.
fn longer(word: &Word, letter: u8) -> Result<Word, Memory>
    ensures { IfOk result (λ w. w ≡ word.now ++ letter ∷ []) }
{
    let mut longer = word.copy()?;
    longer.push(letter)?;
    Ok(longer)
}

/// The last letters of a word, at most `most` of them.
fn last_letters(alloc: Global, word: &Word, most: usize) -> Result<Word, Memory>
    ensures { IfOk result (λ w. w ≡ suffix most word.now) }
{
    let (_, last) = word.letters().split_at(word.len().saturating_sub(most));
    let mut suffix = Word::new(alloc);
    for letter in last {
        suffix.push(*letter)?;
    }
    Ok(suffix)
}

/// The place of a word among those of its length over some letters. Condition: it is a small number.
fn place(letters: u32, word: &Word) -> u32
    requires letters { 1 ≤ letters }
    requires small { place letters word.now < MOST_WIDTH }
    ensures { result ≡ place letters word.now }
{
    let mut place = 0;
    for letter in word.letters() {
        place = place * letters + u32::from(*letter);
    }
    place
}
