//! What is answered of a language's short subwords.
use syn_words::Word;

/// The side on which words are put beside another one.
#[derive(Clone, Copy, Debug, PartialEq, Eq)]
pub enum Side {
    /// Behind it: products on the right, whose classes are those of R.
    Right,
    /// Before it: products on the left, whose classes are those of L.
    Left,
}

/// Words of a language that is not piecewise testable. For every n the two words `u s (a y)^n v` and
/// `u s (a y)^n a v`, or on the left `u (y a)^n s v` and `u a (y a)^n s v`, have the same subwords of length at most n,
/// and exactly one of them is in the language; a is the letter. Whether the first one is in the language is
/// `first_in`.
#[derive(Drop)]
pub struct PtWitness {
    pub side: Side,
    pub u: Word,
    pub s: Word,
    pub letter: u8,
    pub y: Word,
    pub v: Word,
    pub first_in: bool,
}

/// Whether a language is piecewise testable: whether words with the same short subwords are both words of the language
/// or both not.
#[derive(Drop)]
pub enum PtAnswer {
    /// Subwords of at most this length suffice, and those of no smaller length do.
    Yes(u32),
    /// The monoid is not J-trivial, and no length suffices.
    No(PtWitness),
    /// There are too many words of at most this length.
    Wide(u32),
    /// There are too many pairs of a Nerode class and a set of subwords of at most this length.
    Pairs(u32),
    /// No length up to this one suffices.
    NoneTo(u32),
}
