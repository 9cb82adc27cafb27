//! Whether a monoid is commutative.
ghost use Rattle.std.specs.Prelude.{◌≡◌, ◌<◌, ◌↔◌, ◌∷◌, [], ℕ, length, IsTrue, IfOk, MatchOption};
ghost use Rattle.language_theory.specs.ShortlexGraph.{node, SameNode};
ghost use Rattle.syntactic_monoid.specs.SyntacticMonoid.{recognised};
ghost use Rattle.piecewise_testable.specs.Sides.{IsLeastLetter};
ghost use Rattle.piecewise_testable.specs.Commuting.{Commute, HasSwap, IsCommutativeAnswer};

use crate::parting::part;
use answers::CWitness;
use cayley_tables::Cayley;
use std::alloc::Global;
use syn_words::Memory;
use syntactic_monoid::Syntactic;

/// None exactly where the monoid of the language is commutative. Else the least letters a and b, a first, that do not
/// commute, and the least context that separates a b from b a.
pub fn commutative(alloc: Global, monoid: &Syntactic) -> Result<Option<CWitness>, Memory>
    ensures { IfOk result
        (IsCommutativeAnswer monoid.now.graphs.right.letters (recognised monoid.now)) }
{
    let cayley = monoid.cayley();
    let Some((a, b)) = first_swap(cayley) else {
        return Ok(None);
    };
    let first = two_letters(cayley, a, b);
    let second = two_letters(cayley, b, a);
    let parting = part(alloc, monoid, first, second)?;
    Ok(Some(CWitness {
        a,
        b,
        u: parting.u,
        v: parting.v,
        first_in: parting.first_in,
    }))
}

/// The least letter that does not commute with all letters, and the least letter with which it does not, if there is
/// one.
fn first_swap(cayley: &Cayley) -> Option<(u8, u8)>
    ensures { MatchOption result
        ((a b : ℕ) → a < cayley.now.right.letters → b < cayley.now.right.letters
        → Commute (SameNode cayley.now.right) a b)
        (λ p. IsLeastLetter cayley.now.right.letters
        (HasSwap cayley.now.right.letters (SameNode cayley.now.right)) p.0
        × IsLeastLetter cayley.now.right.letters
        (λ b. ¬ Commute (SameNode cayley.now.right) p.0 b) p.1) }
{
    for a in 0..cayley.letters() as u8 {
        if let Some(b) = first_partner(cayley, a) {
            return Some((a, b));
        }
    }
    None
}

/// The least letter that does not commute with a letter, if there is one. Condition: the letter is in range.
fn first_partner(cayley: &Cayley, a: u8) -> Option<u8>
    requires { a < cayley.now.right.letters }
    ensures { MatchOption result
        ((b : ℕ) → b < cayley.now.right.letters → Commute (SameNode cayley.now.right) a b)
        (λ b. IsLeastLetter cayley.now.right.letters
        (λ b. ¬ Commute (SameNode cayley.now.right) a b) b) }
{
    for b in 0..cayley.letters() as u8 {
        if two_letters(cayley, a, b) != two_letters(cayley, b, a) {
            return Some(b);
        }
    }
    None
}

/// The element of a word of two letters. Condition: both are in range.
fn two_letters(cayley: &Cayley, a: u8, b: u8) -> u32
    requires first { a < cayley.now.right.letters }
    requires second { b < cayley.now.right.letters }
    ensures node { result ≡ node cayley.now.right (a ∷ b ∷ []) }
    ensures within { result < length cayley.now.words }
{
    // Its contract tells that element 0 is in range.
    let _len = cayley.len();
    cayley.right(cayley.right(0, a), b)
}
