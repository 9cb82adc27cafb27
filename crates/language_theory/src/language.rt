//! What a law over every language, relation or property is stated at: a type with no more than that.
ghost use Rattle.std.specs.Prelude.{ℕ, List};

/// A language: the words for which `has` holds.
pub trait Language {
    ghost has: { List ℕ → Type 0 };
}

/// A relation between words.
pub trait Relation {
    ghost same: { List ℕ → List ℕ → Type 0 };
}

/// A property of numbers, such as nodes and places.
pub trait Property {
    ghost holds: { ℕ → Type 0 };
}
