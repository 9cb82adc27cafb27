//! The signs of a text that spells an expression, and what each byte of it is.

/// A sign that is a part of its own.
#[derive(Clone, Copy)]
pub enum Leaf {
    /// `0`: no word.
    Zero,
    /// `1`: the empty word.
    One,
    /// The letter with this number.
    Letter(u8),
}

/// A postfix sign.
#[derive(Clone, Copy)]
pub enum Quantifier {
    /// `*`: any number of times.
    Star,
    /// `+`: once or more.
    Plus,
    /// `?`: once or not.
    Opt,
}

/// A sign of an expression.
#[derive(Clone, Copy)]
pub enum Sign {
    Operand(Leaf),
    /// `|`
    Bar,
    Postfix(Quantifier),
    /// `(`
    Open,
    /// `)`
    Close,
}

/// What a byte is.
#[derive(Clone, Copy)]
pub enum Class {
    /// A space or a tab.
    Skipped,
    /// A lower-case letter that is not in the alphabet.
    Unknown,
    /// No sign.
    Strange,
    Good(Sign),
}
