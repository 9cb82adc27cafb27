//! Worked examples over the letters a = 0 and b = 1, in the alphabet that is written `ab`.

ghost use Rattle.std.specs.Prelude.{◌≡◌, ◌↔◌, ◌⊎◌, ◌+◌, ℕ, true, Some, List, [], ◌∷◌, codes, replicate};
ghost use Rattle.language_theory.specs.Examples.{IsAbStar};
ghost use Rattle.expression_theory.specs.Expression.{Tree, Zero, One, Letter, Or, Cat, Star, Plus, Opt, Means, nodes, most_nodes};
ghost use Rattle.expression_theory.specs.Positions.{PositionWord, Begins, Follows, Ends, numbered, IsPositions};
ghost use Rattle.expression_theory.specs.FirstLast.{has_empty, firsts, lasts};
ghost use Rattle.expression_theory.specs.Frames.{tree_read};
ghost use Rattle.expression_theory.specs.Scan.{classes, signs_in, nodes_from, most_open, Unexpected, UnknownLetter, TooDeep, TooLarge, IsAccepted, IsFault, SpellsTree};
ghost use Rattle.expression_theory.specs.Examples.{ab_star_positions};

/// The text `(ab)*` spells the star of a concatenation, and is accepted.
pub fn ab_star_is_spelled()
    ensures tree { SpellsTree (classes (codes "ab") (codes "(ab)*"))
        (Star (Cat (Letter 0) (Letter 1))) }
    ensures accepted { IsAccepted (classes (codes "ab") (codes "(ab)*")) }
{}

/// The number of a letter is its place in the alphabet: a is 0 in `ab`, and 1 in `ba`.
pub fn letters_are_numbered_by_the_alphabet()
    ensures ab { SpellsTree (classes (codes "ab") (codes "a")) (Letter 0) }
    ensures ba { SpellsTree (classes (codes "ba") (codes "a")) (Letter 1) }
{}

/// A postfix sign belongs to the piece before it, and juxtaposition binds tighter than `|`.
/// Both group to the left.
/// Spaces and tabs are skipped.
pub fn postfix_signs_bind_tightest()
    ensures levels { SpellsTree (classes (codes "ab") (codes "ab*|b"))
        (Or (Cat (Letter 0) (Star (Letter 1))) (Letter 1)) }
    ensures space { SpellsTree (classes (codes "ab") (codes "a b")) (Cat (Letter 0) (Letter 1)) }
    ensures tab { SpellsTree (classes (codes "ab") (codes "a\tb")) (Cat (Letter 0) (Letter 1)) }
    ensures products { SpellsTree (classes (codes "ab") (codes "abb"))
        (Cat (Cat (Letter 0) (Letter 1)) (Letter 1)) }
    ensures read { tree_read (signs_in (classes (codes "ab") (codes "abb")))
        ≡ Some (Cat (Cat (Letter 0) (Letter 1)) (Letter 1)) }
    ensures unions { SpellsTree (classes (codes "ab") (codes "a|b|a"))
        (Or (Or (Letter 0) (Letter 1)) (Letter 0)) }
    ensures postfixes { SpellsTree (classes (codes "ab") (codes "a+?")) (Opt (Plus (Letter 0))) }
    ensures constants { SpellsTree (classes (codes "ab") (codes "0|1")) (Or Zero One) }
{}

/// A text has its first fault at the first byte where a test fails, or at its end.
pub fn texts_have_their_first_fault()
    ensures letter { IsFault (classes (codes "ab") (codes "(ac)*")) UnknownLetter 2 }
    ensures empty { IsFault (classes (codes "ab") (codes "")) Unexpected 0 }
    ensures star { IsFault (classes (codes "ab") (codes "*a")) Unexpected 0 }
    ensures first_bar { IsFault (classes (codes "ab") (codes "|a")) Unexpected 0 }
    ensures last_bar { IsFault (classes (codes "ab") (codes "a|")) Unexpected 2 }
    ensures open { IsFault (classes (codes "ab") (codes "(a")) Unexpected 2 }
    ensures inside { IsFault (classes (codes "ab") (codes "()")) Unexpected 1 }
    ensures close { IsFault (classes (codes "ab") (codes "a)")) Unexpected 1 }
    ensures capital { IsFault (classes (codes "ab") (codes "A")) Unexpected 0 }
    ensures last_letter { IsFault (classes (codes "ab") (codes "az")) UnknownLetter 1 }
    ensures brace { IsFault (classes (codes "ab") (codes "a{")) Unexpected 1 }
    ensures newline { IsFault (classes (codes "ab") (codes "a\nb")) Unexpected 1 }
{}

/// 200 open parentheses and 4,000 nodes are allowed, and one more is not.
pub fn limits_are_exact()
    ensures depth { IsFault (classes (codes "ab") (replicate (most_open + 1) 40)) TooDeep most_open }
    ensures size { IsFault (classes (codes "ab") (97 ∷ replicate most_nodes 42)) TooLarge
        most_nodes }
{}

/// The words of (ab)*, a+, a? and 0.
pub fn words_of_expressions()
    ensures empty { Means (Star (Cat (Letter 0) (Letter 1))) [] }
    ensures computed { has_empty (Star (Cat (Letter 0) (Letter 1))) ≡ true }
    ensures twice { Means (Star (Cat (Letter 0) (Letter 1))) (0 ∷ 1 ∷ 0 ∷ 1 ∷ []) }
    ensures half { ¬ Means (Star (Cat (Letter 0) (Letter 1))) (0 ∷ []) }
    ensures once { Means (Plus (Letter 0)) (0 ∷ []) }
    ensures none { ¬ Means (Plus (Letter 0)) [] }
    ensures with { Means (Opt (Letter 0)) (0 ∷ []) }
    ensures without { Means (Opt (Letter 0)) [] }
    ensures two { ¬ Means (Opt (Letter 0)) (0 ∷ 0 ∷ []) }
    ensures zero { (w : List ℕ) → ¬ Means Zero w }
{}

/// The words of (ab)* are ab, some number of times.
pub fn ab_star_is_ab_repeated()
    ensures { (w : List ℕ) → Means (Star (Cat (Letter 0) (Letter 1))) w ↔ IsAbStar w }
{}

/// A star is once or more, and the empty word.
pub fn star_is_plus_or_empty()
    ensures { (t : Tree) (w : List ℕ) → Means (Star t) w ↔ ((w ≡ []) ⊎ Means (Plus t) w) }
{}

/// Once or not is the union with the empty word.
pub fn opt_is_union_with_one()
    ensures { (t : Tree) (w : List ℕ) → Means (Opt t) w ↔ Means (Or One t) w }
{}

/// The position automaton of (ab)* has the states 0, a and b; b follows a, a follows b, and 0 and b are final.
pub fn ab_star_has_three_positions()
    ensures { IsPositions (Star (Cat (Letter 0) (Letter 1))) 2 ab_star_positions }
{}

/// In `a0|b` the position of a begins no word, follows no position, is followed by none, and ends no
/// word. The position of b begins a word and ends one.
pub fn a_dead_position_has_no_step()
    ensures text { SpellsTree (classes (codes "ab") (codes "a0|b"))
        (Or (Cat (Letter 0) Zero) (Letter 1)) }
    ensures begins { ¬ Begins (PositionWord (Or (Cat (Letter 0) Zero) (Letter 1))) 1 }
    ensures follows { (p : ℕ) → ¬ Follows (PositionWord (Or (Cat (Letter 0) Zero) (Letter 1))) p 1 }
    ensures followed { (q : ℕ)
        → ¬ Follows (PositionWord (Or (Cat (Letter 0) Zero) (Letter 1))) 1 q }
    ensures ends { ¬ Ends (PositionWord (Or (Cat (Letter 0) Zero) (Letter 1))) 1 }
    ensures live_begins { Begins (PositionWord (Or (Cat (Letter 0) Zero) (Letter 1))) 2 }
    ensures live_ends { Ends (PositionWord (Or (Cat (Letter 0) Zero) (Letter 1))) 2 }
    ensures firsts { firsts (numbered 1 (Or (Cat (Letter 0) Zero) (Letter 1))) ≡ 2 ∷ [] }
    ensures lasts { lasts (numbered 1 (Or (Cat (Letter 0) Zero) (Letter 1))) ≡ 2 ∷ [] }
{}

/// Parentheses are no nodes: `(ab)*` has two letters, a concatenation and a star.
pub fn parentheses_are_no_nodes()
    ensures tree { nodes (Star (Cat (Letter 0) (Letter 1))) ≡ 4 }
    ensures text { nodes_from true (classes (codes "ab") (codes "(ab)*")) ≡ 4 }
{}
