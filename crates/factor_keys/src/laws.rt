//! Laws of the keys of prefixes, suffixes and factors.
ghost use Rattle.std.specs.Prelude.{◌<◌, ◌≤◌, ◌↔◌, ℕ, List, length};
ghost use Rattle.language_theory.specs.Congruence.{IsRightCongruence};
ghost use Rattle.factor_keys.specs.Keys.{SameParts, SameKey};
ghost use Rattle.factor_keys.specs.Walls.{with_one, with_two};

/// To have the same key is a right congruence. Two words have the same key exactly where they have the same prefix, the
/// same suffix and the same factors, whatever their lengths: a word shorter than the level is its own prefix and has no
/// factor.
pub fn keys_are_a_right_congruence()
    ensures congruence { (k n : ℕ) → 1 ≤ n → IsRightCongruence k (SameKey n) }
    ensures parts { (n : ℕ) (u v : List ℕ) → SameKey n u v ↔ SameParts n u v }
{}

/// `u x^n y x^n v` and `u x^n y x^n y x^n v` have the same key at each level up to n, and so have
/// `u x^n y x^n z x^n v` and `u x^n z x^n y x^n v`, whatever the lengths of the words; x is not empty.
pub fn powers_are_walls()
    ensures repeat { (n k : ℕ) (u x y v : List ℕ) → 0 < length x → k ≤ n
        → SameKey k (with_one n u x y v) (with_two n u x y y v) }
    ensures swap { (n k : ℕ) (u x y z v : List ℕ) → 0 < length x → k ≤ n
        → SameKey k (with_two n u x y z v) (with_two n u x z y v) }
{}
