//! Alphabets of lower-case letters.
ghost use Rattle.std.specs.Prelude.{◌≡◌, ◌<◌, ◌↔◌, ℕ, List, length, slice_index, IfOk, IfSome, IsNone, IsErrOf, IsTrue, Contains};
ghost use Rattle.syn_words.specs.Alphabet.{IsAlphabet, AreDistinct};

use crate::Memory;
use std::alloc::Global;
use std::marker::Model;
use thiserror::Error;

/// Why a text gave no alphabet.
#[derive(Debug, PartialEq, Eq, Drop, Error)]
pub enum AlphabetFault {
    /// The text is not 1 to 26 distinct lower-case letters.
    #[error("not 1 to 26 distinct lower-case letters")]
    Bad,
    /// The system gave no memory.
    #[error("out of memory")]
    Memory,
}

/// An alphabet: 1 to 26 distinct lower-case letters. A contract sees the list of their bytes, in order.
#[derive(Drop)]
pub struct Alphabet {
    letters: Vec<u8>,
}

impl Model for Alphabet {
    ghost use Rattle.std.specs.Prelude.{List, ℕ};
    ghost use Rattle.syn_words.specs.Alphabet.{IsAlphabet};

    ghost Value = { List ℕ };

    ghost view = { λ a. a.letters.items };

    ghost invariant = { λ a. IsAlphabet a.letters.items };
}

impl Alphabet {
    /// The alphabet that a text spells: its letters, in the order in which they are written.
    ///
    /// `Bad` comes exactly where the text is not 1 to 26 distinct lower-case letters.
    pub fn from_text(alloc: Global, text: &[u8]) -> Result<Alphabet, AlphabetFault>
        ensures ok { IfOk result (λ alphabet. alphabet ≡ text.now) }
        ensures alphabet { IfOk result (λ alphabet. IsAlphabet alphabet) }
        ensures bad { IsErrOf result AlphabetFault.Bad ↔ (¬ IsAlphabet text.now) }
    {
        if !is_alphabet(text) {
            return Err(AlphabetFault::Bad);
        }
        let letters = Vec::from_slice(alloc, text).map_err(|_| AlphabetFault::Memory)?;
        Ok(Alphabet { letters })
    }

    /// The number of letters.
    pub fn len(&self) -> u32
        ensures len { result ≡ length self.now }
        ensures alphabet { IsAlphabet self.now }
    {
        self.letters.len() as u32
    }

    /// The bytes that the letters are written as, in order.
    pub fn letters(&self) -> &[u8]
        ensures letters { result.now ≡ self.now }
        ensures alphabet { IsAlphabet self.now }
    {
        self.letters.as_slice()
    }

    /// The number of the letter that is written as `byte`, and `None` exactly where no letter is.
    pub fn number(&self, byte: u8) -> Option<u8>
        ensures none { IsNone result ↔ (¬ Contains self.now byte) }
        ensures some { IfSome result (λ n. (n < length self.now) × (slice_index self.now n ≡ byte)) }
    {
        let place = self.letters.iter().position(|letter| *letter == byte)?;
        Some(place as u8)
    }

    /// The byte that a letter is written as. Condition: `letter < len`.
    pub fn sign(&self, letter: u8) -> u8
        requires { letter < length self.now }
        ensures { result ≡ slice_index self.now letter }
    {
        self.letters[letter as usize]
    }
}

/// Whether a text is 1 to 26 distinct lower-case letters.
fn is_alphabet(text: &[u8]) -> bool
    ensures { IsTrue result ↔ IsAlphabet text.now }
{
    (1..=26).contains(&text.len())
        && text.iter().all(|byte| byte.is_ascii_lowercase())
        && are_distinct(text)
}

/// Whether no byte stands twice in a text.
fn are_distinct(text: &[u8]) -> bool
    ensures { IsTrue result ↔ AreDistinct text.now }
{
    for (i, byte) in text.iter().enumerate() {
        if text[..i].contains(byte) {
            return false;
        }
    }
    true
}
