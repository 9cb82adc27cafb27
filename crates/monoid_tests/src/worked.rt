//! Monoids and words for several tests.
ghost use Rattle.std.specs.Prelude.{◌≡◌, ◌∷◌, [], IfOk};

use cayley_tables::Cayley;
use std::alloc::Global;
use syn_words::{Memory, Word};

/// The syntactic monoid of `(ab)*`: 1, a, b, aa (which is 0), ab and ba.
pub(crate) fn ab_star(alloc: Global) -> Result<Cayley, Memory>
    ensures { IfOk result (λ c. c.right.letters ≡ 2) }
{
    Cayley::from_right(alloc, 2, &[1, 2, 3, 4, 5, 3, 3, 3, 1, 3, 3, 2])
}

/// The words of even length and those of odd length over one letter: a group of two elements.
pub(crate) fn even_length(alloc: Global) -> Result<Cayley, Memory> {
    Cayley::from_right(alloc, 1, &[1, 0])
}

/// The monoid of all words over two letters, with one element.
pub(crate) fn all_words(alloc: Global) -> Result<Cayley, Memory> {
    Cayley::from_right(alloc, 2, &[0, 0])
}

/// The monoid of the words over ab that begin with a.
pub(crate) fn begins_with_a(alloc: Global) -> Result<Cayley, Memory> {
    Cayley::from_right(alloc, 2, &[1, 2, 1, 1, 2, 2])
}

/// The word babba.
pub(crate) fn babba(alloc: Global) -> Result<Word, Memory>
    ensures { IfOk result (λ w. w ≡ 1 ∷ 0 ∷ 1 ∷ 1 ∷ 0 ∷ []) }
{
    let mut word = Word::new(alloc);
    word.push(1)?;
    word.push(0)?;
    word.push(1)?;
    word.push(1)?;
    word.push(0)?;
    Ok(word)
}
