//! Words that show that a monoid is not commutative.
use syn_words::Word;

/// Letters of a language whose monoid is not commutative: exactly one of `u a b v` and `u b a v` is in the language.
/// Whether the first one is in it is `first_in`.
#[derive(Drop)]
pub struct CWitness {
    pub a: u8,
    pub b: u8,
    pub u: Word,
    pub v: Word,
    pub first_in: bool,
}
