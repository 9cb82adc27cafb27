//! Laws of syntactic monoids.
ghost use Rattle.std.specs.Prelude.{◌≡◌, ℕ};
ghost use Rattle.language_theory.specs.Languages.{HaveSameWords};
ghost use Rattle.syntactic_monoid.specs.SyntacticMonoid.{SyntacticMonoid, IsSyntacticMonoid};

use language_theory::language::Language;

/// A language has one syntactic monoid.
pub fn one_syntactic_monoid<L: Language>()
    ensures { (k : ℕ) (m n : SyntacticMonoid) → IsSyntacticMonoid k L.has m
        → IsSyntacticMonoid k L.has n → m ≡ n }
{}

/// Languages with the same words over k letters have the same syntactic monoids.
pub fn languages_with_the_same_words_have_one_monoid<L: Language, M: Language>()
    ensures { (k : ℕ) (m : SyntacticMonoid) → HaveSameWords k L.has M.has
        → IsSyntacticMonoid k L.has m → IsSyntacticMonoid k M.has m }
{}
