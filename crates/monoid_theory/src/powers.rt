//! Laws of the powers of a word.
ghost use Rattle.std.specs.Prelude.{◌≡◌, ◌<◌, ◌≤◌, ◌⊎◌, ◌+◌, ◌%◌, ◌↔◌, ℕ, List, length};
ghost use Rattle.language_theory.specs.Words.{Over, power};
ghost use Rattle.language_theory.specs.Congruence.{IsRightCongruence, IsCongruence, Syntactic, Agree};
ghost use Rattle.language_theory.specs.Representatives.{AreRepresentatives};
ghost use Rattle.language_theory.specs.Nerode.{MinimalAutomaton, IsMinimal};
ghost use Rattle.monoid_theory.specs.Separation.{Separates, IsSeparation};
ghost use Rattle.monoid_theory.specs.Green.{IsIdempotent};
ghost use Rattle.monoid_theory.specs.Powers.{Repeats, IsIndexAndPeriod, IsAperiodic, IsFirstLoop, NeverSettle};

use language_theory::language::{Language, Relation};

/// A word has at most one index and period, and has them in a right congruence with finitely many classes.
pub fn index_and_period_are_unique<R: Relation>()
    ensures exists { (k : ℕ) (words : List (List ℕ)) → IsRightCongruence k R.same
        → AreRepresentatives k R.same words → (x : List ℕ) → Over k x
        → (i p : ℕ) × IsIndexAndPeriod R.same x i p }
    ensures index { (x : List ℕ) (i p j q : ℕ) → IsIndexAndPeriod R.same x i p
        → IsIndexAndPeriod R.same x j q → i ≡ j }
    ensures period { (x : List ℕ) (i p j q : ℕ) → IsIndexAndPeriod R.same x i p
        → IsIndexAndPeriod R.same x j q → p ≡ q }
{}

/// In a right congruence two powers from the index on are related exactly where their exponents differ by a number of
/// periods.
pub fn powers_repeat_with_the_period<R: Relation>()
    ensures { (k : ℕ) → IsRightCongruence k R.same → (x : List ℕ) → Over k x → (i p n m : ℕ)
        → IsIndexAndPeriod R.same x i p → i ≤ n → i ≤ m → R.same (power n x) (power m x)
        ↔ (n % p ≡ m % p) }
{}

/// Index and period together are at most the number of classes. A power of x other than the empty one is idempotent
/// exactly where its exponent is a number of periods and not below the index, and some power is.
pub fn powers_become_idempotent<R: Relation>()
    ensures bound { (k : ℕ) (words : List (List ℕ)) → IsRightCongruence k R.same
        → AreRepresentatives k R.same words → (x : List ℕ) → Over k x → (i p : ℕ)
        → IsIndexAndPeriod R.same x i p → i + p ≤ length words }
    ensures exactly { (k : ℕ) → IsRightCongruence k R.same → (x : List ℕ) → Over k x → (i p n : ℕ)
        → IsIndexAndPeriod R.same x i p → 1 ≤ n → IsIdempotent R.same (power n x)
        ↔ ((i ≤ n) × (n % p ≡ 0)) }
    ensures some { (k : ℕ) (words : List (List ℕ)) → IsRightCongruence k R.same
        → AreRepresentatives k R.same words → (x : List ℕ) → Over k x → (n : ℕ) × (1 ≤ n)
        × (n ≤ length words) × IsIdempotent R.same (power n x) }
{}

/// Related words have the same index and period.
pub fn related_words_have_the_same_powers<R: Relation>()
    ensures { (k : ℕ) → IsCongruence k R.same → (x y : List ℕ) (i p : ℕ) → Over k x → Over k y
        → R.same x y → IsIndexAndPeriod R.same x i p → IsIndexAndPeriod R.same y i p }
{}

/// A finite monoid is aperiodic, or there is a first listed word with a period greater than 1, which is unique.
pub fn a_finite_monoid_is_aperiodic_or_loops<R: Relation>()
    ensures either { (k : ℕ) (words : List (List ℕ)) → IsCongruence k R.same
        → AreRepresentatives k R.same words → IsAperiodic k R.same
        ⊎ ((e i p : ℕ) × IsFirstLoop R.same words e i p) }
    ensures not_both { (k : ℕ) (words : List (List ℕ)) → AreRepresentatives k R.same words
        → (e i p : ℕ) → IsFirstLoop R.same words e i p → ¬ IsAperiodic k R.same }
    ensures one { (words : List (List ℕ)) (e i p d j q : ℕ) → IsFirstLoop R.same words e i p
        → IsFirstLoop R.same words d j q → (e ≡ d) × (i ≡ j) × (p ≡ q) }
{}

/// A word x whose period is greater than 1 never settles, between the words of the least context that separates x^i
/// from x^(i+1), where i is its index.
pub fn loops_never_settle<L: Language>()
    ensures { (k : ℕ) (d : MinimalAutomaton) → IsMinimal k L.has d → (x : List ℕ) (i p : ℕ)
        → Over k x → IsIndexAndPeriod (Syntactic k L.has) x i p → 1 < p
        → (u v : List ℕ) × IsSeparation k L.has (power i x) (power (i + 1) x) u v
        × NeverSettle L.has u x v }
{}

/// Where x^i comes back after p steps and p is not 0, a context that separates x^i from x^(i+1) gives words that never
/// settle.
pub fn separated_powers_never_settle<L: Language>()
    ensures { (k : ℕ) (u x v : List ℕ) → Over k u → Over k x → Over k v → (i p : ℕ) → 1 ≤ p
        → Repeats (Syntactic k L.has) x i p → Separates L.has (power i x) (power (i + 1) x) u v
        → NeverSettle L.has u x v }
{}

/// Where x^i is syntactically congruent to x^(i+1) for some i, or the syntactic congruence is aperiodic with finitely
/// many classes, u, x and v do not fail to settle.
pub fn aperiodic_powers_settle<L: Language>()
    ensures one { (k : ℕ) (u x v : List ℕ) → Over k u → Over k x → Over k v → (i : ℕ)
        → Repeats (Syntactic k L.has) x i 1 → ¬ NeverSettle L.has u x v }
    ensures all { (k : ℕ) (u x v : List ℕ) → Over k u → Over k x → Over k v
        → (words : List (List ℕ)) → AreRepresentatives k (Syntactic k L.has) words
        → IsAperiodic k (Syntactic k L.has) → ¬ NeverSettle L.has u x v }
{}

/// Relations that agree on words over k letters have the same indices and periods.
pub fn agreeing_relations_have_the_same_powers<R: Relation, S: Relation>()
    ensures index { (k : ℕ) → Agree k R.same S.same → (x : List ℕ) (i p : ℕ) → Over k x
        → IsIndexAndPeriod R.same x i p → IsIndexAndPeriod S.same x i p }
    ensures aperiodic { (k : ℕ) → Agree k R.same S.same → IsAperiodic k R.same
        → IsAperiodic k S.same }
{}
