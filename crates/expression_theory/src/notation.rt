//! Polish notation: the nodes of an expression.

/// A node of an expression without its parts.
#[derive(Clone, Copy)]
pub enum Node {
    /// No word.
    Zero,
    /// The empty word.
    One,
    /// The word of one letter, which is given by its number.
    Letter(u8),
    /// The words of either part.
    Or,
    /// A word of the first part, and a word of the second behind it.
    Cat,
    /// Any number of words of the part.
    Star,
    /// Once or more.
    Plus,
    /// Once or not.
    Opt,
}
