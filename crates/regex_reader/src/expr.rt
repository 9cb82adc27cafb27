//! Expressions.

/// A rational expression over letters that are numbered from 0.
#[derive(Drop)]
pub enum Expr {
    /// No word.
    Zero,
    /// The empty word.
    One,
    /// The word of one letter.
    Letter(u8),
    /// The words of either part.
    Or(Box<Expr>, Box<Expr>),
    /// A word of the first part, and a word of the second behind it.
    Cat(Box<Expr>, Box<Expr>),
    /// Any number of words of the part.
    Star(Box<Expr>),
    /// Once or more.
    Plus(Box<Expr>),
    /// Once or not.
    Opt(Box<Expr>),
}
