//! Worked examples over the letters a = 0 and b = 1.

ghost use Rattle.std.specs.Prelude.{◌∷◌, []};
ghost use Rattle.language_theory.specs.Words.{◌⊏◌};
ghost use Rattle.language_theory.specs.Links.{IsPrefixLink, IsSuffixLink};
ghost use Rattle.language_theory.specs.Congruence.{Syntactic};
ghost use Rattle.language_theory.specs.Nerode.{Nerode, IsMinimal};
ghost use Rattle.language_theory.specs.Examples.{IsAbStar, ab_star};

/// The words over two letters begin with 1, a, b, aa, ab, ba, bb, aaa.
pub fn first_words_of_two_letters()
    ensures a { [] ⊏ (0 ∷ []) }
    ensures b { (0 ∷ []) ⊏ (1 ∷ []) }
    ensures aa { (1 ∷ []) ⊏ (0 ∷ 0 ∷ []) }
    ensures ab { (0 ∷ 0 ∷ []) ⊏ (0 ∷ 1 ∷ []) }
    ensures ba { (0 ∷ 1 ∷ []) ⊏ (1 ∷ 0 ∷ []) }
    ensures bb { (1 ∷ 0 ∷ []) ⊏ (1 ∷ 1 ∷ []) }
    ensures aaa { (1 ∷ 1 ∷ []) ⊏ (0 ∷ 0 ∷ 0 ∷ []) }
{}

/// In the list of 1, a, b, aa and ab, the word ab is a followed by its last letter b, and its first letter a followed by
/// b.
pub fn ab_has_a_prefix_and_a_suffix()
    ensures prefix { IsPrefixLink ([] ∷ (0 ∷ []) ∷ (1 ∷ []) ∷ (0 ∷ 0 ∷ []) ∷ (0 ∷ 1 ∷ []) ∷ []) 4 1
        1 }
    ensures suffix { IsSuffixLink ([] ∷ (0 ∷ []) ∷ (1 ∷ []) ∷ (0 ∷ 0 ∷ []) ∷ (0 ∷ 1 ∷ []) ∷ []) 4 0
        2 }
{}

/// The minimal automaton of (ab)* has the nodes of 1, a and b.
pub fn ab_star_has_three_nodes()
    ensures { IsMinimal 2 IsAbStar ab_star }
{}

/// For (ab)*, aba is syntactically congruent to a; bb and b are Nerode equivalent, and not congruent.
pub fn ab_star_has_a_shorter_word()
    ensures aba { Syntactic 2 IsAbStar (0 ∷ 1 ∷ 0 ∷ []) (0 ∷ []) }
    ensures bb { Nerode 2 IsAbStar (1 ∷ 1 ∷ []) (1 ∷ []) }
    ensures apart { ¬ Syntactic 2 IsAbStar (1 ∷ 1 ∷ []) (1 ∷ []) }
{}
