//! Words and their shortlex order.
ghost use Rattle.std.specs.Prelude.{◌≡◌, ◌<◌, ◌↔◌, ◌++◌, ℕ, List, [], ◌∷◌, length, slice_index, nat_eq, IsTrue, IfOk, OnOk, OnErr};
ghost use Rattle.std.specs.Cmp.Lexicographic.{pointwise, lists_per, lists_equiv};
ghost use Rattle.std.specs.Hash as fed;
ghost use Rattle.std.specs.Hash.{items_Alike};
ghost use Rattle.std.proofs.Common.{rules};
ghost use Rattle.language_theory.specs.Words.{shortlex};

use crate::Memory;
use smallvec::SmallVec;
use std::alloc::Global;
use std::cmp::Ordering;
use std::hash::{Hash, Hasher};
use std::marker::Model;

/// A word: its letters are numbers, counted from 0 in the order of the alphabet. A contract sees the list of them.
///
/// Up to 24 letters stand in the value itself and take no memory.
#[derive(Drop)]
pub struct Word {
    letters: SmallVec<u8, 24>,
}

impl Model for Word {
    ghost use Rattle.std.specs.Prelude.{List, ℕ};

    ghost Value = { List ℕ };

    ghost view = { λ w. w.letters.items };
}

impl Word {
    /// The empty word. It takes no memory.
    pub fn new(alloc: Global) -> Word
        ensures { result ≡ [] }
    {
        Word {
            letters: SmallVec::new(alloc),
        }
    }

    /// Puts a letter behind the word. After `Memory` the word is as it was.
    pub fn push(&mut self, letter: u8) -> Result<(), Memory>
        ensures ok { OnOk result (self.new ≡ self.old ++ letter ∷ []) }
        ensures err { OnErr result (self.new ≡ self.old) }
    {
        self.letters.push(letter)?;
        Ok(())
    }

    /// An equal word of its own.
    pub fn copy(&self) -> Result<Word, Memory>
        ensures { IfOk result (λ w. w ≡ self.now) }
    {
        let letters = SmallVec::from_slice(*self.letters.allocator(), self.letters.as_slice())?;
        Ok(Word { letters })
    }

    /// The number of letters.
    pub fn len(&self) -> usize
        ensures { result ≡ length self.now }
    {
        self.letters.len()
    }

    /// Whether this is the empty word.
    pub fn is_empty(&self) -> bool
        ensures { IsTrue result ↔ (self.now ≡ []) }
    {
        self.letters.is_empty()
    }

    /// The letter at a place, counted from 0. Condition: `place < len`.
    pub fn letter(&self, place: usize) -> u8
        requires { place < length self.now }
        ensures { result ≡ slice_index self.now place }
    {
        self.letters[place]
    }

    /// The letters, in order.
    pub fn letters(&self) -> &[u8]
        ensures { result.now ≡ self.now }
    {
        self.letters.as_slice()
    }
}

impl PartialEq for Word {
    ghost eq = { pointwise nat_eq };

    ghost laws = { lists_per (Prim.search rules) };

    fn eq(&self, other: &Word) -> bool {
        self.letters.as_slice() == other.letters.as_slice()
    }
}

impl Eq for Word {
    ghost laws = { lists_equiv (Prim.search rules) };
}

impl Hash for Word {
    ghost hash_input = { fed.slice fed.u8 };

    ghost respects_eq = { (items_Alike {F = fed.u8} (record { fed = Prim.search rules })).fed };

    fn hash<H: Hasher>(&self, state: &mut H) {
        self.letters.hash(state);
    }
}

/// Compares two words in shortlex order: by length, and words of one length by the first letter that differs.
pub fn shortlex(u: &Word, v: &Word) -> Ordering
    ensures { result ≡ shortlex u.now v.now }
{
    u.len()
        .cmp(&v.len())
        .then_with(|| u.letters().cmp(v.letters()))
}
