//! What is answered of a language's factors.
use syn_words::Word;

/// The greatest local work that is done.
pub const MOST_WORK: u64 = 200_000_000;

/// What fails in a local submonoid.
#[derive(Clone, Copy, Debug, PartialEq, Eq)]
pub enum LtKind {
    /// An element is not idempotent.
    Repeat,
    /// Two elements do not commute.
    Swap,
}

/// The words of a language that is not locally testable. For every n from 1 on the two words have the same key at each
/// level from 1 to n, and exactly one of them is in the language: `u x^n y x^n v` and `u x^n y x^n y x^n v` of a
/// repeat, where z is empty; `u x^n y x^n z x^n v` and `u x^n z x^n y x^n v` of a swap. Whether the first one is in the
/// language is `first_in`.
#[derive(Drop)]
pub struct LtWitness {
    pub kind: LtKind,
    pub u: Word,
    pub x: Word,
    pub y: Word,
    pub z: Word,
    pub v: Word,
    pub first_in: bool,
}

/// Whether a language is locally testable, within limits.
#[derive(Drop)]
pub enum LtAnswer {
    /// This level suffices, and no smaller one from 1 on does.
    Yes(u32),
    /// The language is not locally testable: its local submonoids are not all idempotent and commutative.
    No(LtWitness),
    /// There is no table of products.
    TableLimit,
    /// The local work is greater than `MOST_WORK`.
    WorkLimit,
    /// This level is too wide, and no smaller one suffices.
    Wide(u32),
    /// This level has too many pairs of a Nerode class and a key, and no smaller one suffices.
    Pairs(u32),
    /// No level up to this one suffices.
    NoneTo(u32),
}
