//! What is answered of the powers of a language's words.
use star_free_lists::SfList;
use syn_words::Word;

/// Words whose powers never settle for a language: for each exponent, `u x^n v` is in the language for some greater n
/// and not in it for some other (Schützenberger 1965). x is the least word of the least element whose period is greater
/// than 1, with its index and its period; u and v are the least context that separates `x^index` from `x^(index + 1)`,
/// and `first_in` tells whether `u x^index v` is in the language.
#[derive(Drop)]
pub struct Loop {
    pub u: Word,
    pub x: Word,
    pub v: Word,
    pub index: u32,
    pub period: u32,
    pub first_in: bool,
}

/// Whether a language is star-free, within limits.
#[derive(Drop)]
pub enum SfAnswer {
    /// This list denotes the language.
    Yes(SfList),
    /// No star-free list denotes the language: the powers of these words never settle.
    No(Loop),
    /// There is no table of products.
    TableLimit,
    /// The construction comes to an instance that is deeper than `MOST_DEPTH`.
    Depth,
    /// The construction comes to a node more than the limit.
    Nodes,
}
