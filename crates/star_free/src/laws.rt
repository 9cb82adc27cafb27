//! Laws of the answers: a language has one, and so have languages with the same words.
ghost use Rattle.std.specs.Prelude.{◌≡◌, ℕ, Bool};
ghost use Rattle.language_theory.specs.Languages.{HaveSameWords};
ghost use Rattle.syntactic_monoid.specs.SyntacticMonoid.{SyntacticMonoid, IsSyntacticMonoid};
ghost use Rattle.star_free.specs.declared.deciding.Powers.{Powers};
ghost use Rattle.answers.specs.declared.powers.SfAnswer.{SfAnswer};
ghost use Rattle.star_free.specs.Loops.{AreDecided};
ghost use Rattle.star_free.specs.Answer.{IsStarFreeAnswer, Tells};

use language_theory::language::Language;

/// What the powers do in the syntactic monoid of a language has one answer.
pub fn one_answer_on_powers<L: Language>()
    ensures { (k : ℕ) (p q : Powers) → AreDecided k L.has p → AreDecided k L.has q → p ≡ q }
{}

/// A language has one answer within given limits, and so one star-free list.
pub fn the_answer_is_unique<L: Language>()
    ensures { (k : ℕ) (m : SyntacticMonoid) (most : ℕ) (has_table : Bool) (a b : SfAnswer)
        → IsSyntacticMonoid k L.has m → IsStarFreeAnswer k L.has m most has_table a
        → IsStarFreeAnswer k L.has m most has_table b → a ≡ b }
{}

/// Languages with the same words over k letters have the same answers.
pub fn languages_with_the_same_words_have_one_answer<L: Language, M: Language>()
    ensures powers { (k : ℕ) (p : Powers) → HaveSameWords k L.has M.has → AreDecided k L.has p
        → AreDecided k M.has p }
    ensures answer { (k : ℕ) (m : SyntacticMonoid) (most : ℕ) (has_table : Bool) (a : SfAnswer)
        → HaveSameWords k L.has M.has → IsStarFreeAnswer k L.has m most has_table a
        → IsStarFreeAnswer k M.has m most has_table a }
    ensures tells { (k : ℕ) (a : SfAnswer) → HaveSameWords k L.has M.has → Tells k L.has a
        → Tells k M.has a }
{}
