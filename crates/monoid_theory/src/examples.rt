//! Worked examples: the monoid of (ab)* over the letters a = 0 and b = 1, and that of the words of even length.

ghost use Rattle.std.specs.Prelude.{◌∷◌, [], ℕ};
ghost use Rattle.language_theory.specs.Congruence.{Syntactic};
ghost use Rattle.language_theory.specs.ShortlexGraph.{IsGraphOf};
ghost use Rattle.language_theory.specs.Examples.{IsAbStar};
ghost use Rattle.monoid_theory.specs.Presentation.{AreRules};
ghost use Rattle.monoid_theory.specs.Green.{IsR, IsL, IsJ, IsH, IsIdempotent};
ghost use Rattle.monoid_theory.specs.Powers.{IsIndexAndPeriod, NeverSettle};
ghost use Rattle.monoid_theory.specs.Examples.{ab_star_monoid, ab_star_elements, ab_star_rules, IsEven};

/// The syntactic monoid of (ab)* has the elements 1, a, b, aa, ab and ba.
pub fn ab_star_has_six_elements()
    ensures { IsGraphOf 2 (Syntactic 2 IsAbStar) ab_star_monoid ab_star_elements }
{}

/// Its rules are bb to aa, aaa to aa, aab to aa, aba to a, baa to aa and bab to b, and no others.
pub fn ab_star_has_six_rules()
    ensures { AreRules 2 (Syntactic 2 IsAbStar) ab_star_elements ab_star_rules }
{}

/// Its J-classes are {1}, {a, ab, b, ba} and {aa}; a and ab are in one R-class, a and ba in one L-class, and a and ab in
/// different H-classes.
pub fn ab_star_has_three_boxes()
    ensures a_ab { IsR 2 (Syntactic 2 IsAbStar) (0 ∷ []) (0 ∷ 1 ∷ []) }
    ensures b_ba { IsR 2 (Syntactic 2 IsAbStar) (1 ∷ []) (1 ∷ 0 ∷ []) }
    ensures a_ba { IsL 2 (Syntactic 2 IsAbStar) (0 ∷ []) (1 ∷ 0 ∷ []) }
    ensures b_ab { IsL 2 (Syntactic 2 IsAbStar) (1 ∷ []) (0 ∷ 1 ∷ []) }
    ensures a_b { IsJ 2 (Syntactic 2 IsAbStar) (0 ∷ []) (1 ∷ []) }
    ensures a_aa { ¬ IsJ 2 (Syntactic 2 IsAbStar) (0 ∷ []) (0 ∷ 0 ∷ []) }
    ensures one_a { ¬ IsJ 2 (Syntactic 2 IsAbStar) [] (0 ∷ []) }
    ensures one_aa { ¬ IsJ 2 (Syntactic 2 IsAbStar) [] (0 ∷ 0 ∷ []) }
    ensures cells { ¬ IsH 2 (Syntactic 2 IsAbStar) (0 ∷ []) (0 ∷ 1 ∷ []) }
    ensures idempotent { IsIdempotent (Syntactic 2 IsAbStar) (0 ∷ 1 ∷ []) }
{}

/// For the words of even length over one letter a, the powers of a have the index 0 and the period 2, and never settle.
pub fn even_length_never_settles()
    ensures period { IsIndexAndPeriod (Syntactic 1 IsEven) (0 ∷ []) 0 2 }
    ensures settle { NeverSettle IsEven [] (0 ∷ []) [] }
{}

/// For the words of even length over one letter a, a a a is congruent to a, and a is not idempotent.
pub fn even_length_has_a_cube()
    ensures cube { Syntactic 1 IsEven (0 ∷ 0 ∷ 0 ∷ []) (0 ∷ []) }
    ensures square { ¬ IsIdempotent (Syntactic 1 IsEven) (0 ∷ []) }
{}
