//! Whether a language is piecewise testable.
ghost use Rattle.std.specs.Prelude.{◌≤◌, IfOk};
ghost use Rattle.language_theory.specs.Nerode.{IsMinimal};
ghost use Rattle.language_theory.specs.ShortlexGraph.{SameNode};
ghost use Rattle.green_relations.specs.GreenClasses.{AreGreens};
ghost use Rattle.syntactic_monoid.specs.SyntacticMonoid.{recognised};
ghost use Rattle.piecewise_testable.specs.Answers.{IsPiecewiseAnswer, IsAlwaysToldApart, IsBoundedBySimon};

use crate::answer::level_answer;
use crate::subwords::Subwords;
use crate::trivial::witness_on;
use answers::{PtAnswer, Side};
use green_relations::Green;
use level_search::{MOST_LEVEL, MOST_PAIRS, search};
use std::alloc::Global;
use subset_minimal::MinDfa;
use syn_words::Memory;
use syntactic_monoid::Syntactic;

/// `No` exactly where the monoid of the language is not J-trivial: a finite monoid is J-trivial where it is both
/// R-trivial and L-trivial. The witness is that of R where the monoid is not R-trivial, and else that of L. Where it is
/// J-trivial, the answer is that of the search through the levels of short subwords, from level 0 to `max_level`, in
/// which a level may have `max_pairs` pairs.
///
/// For each n the two words of a witness have the same subwords of length at most n, and exactly one of them is in the
/// language, the first one as `first_in` says: so no level suffices.
///
/// Where the monoid is J-trivial and its longest chain of ideals has n elements, the answer is not `NoneTo` if
/// `max_level` is at least 2 n - 1 (Simon 1975).
///
/// Conditions: Green's classes are those of the monoid, the automaton is the minimal one of its language,
/// `max_level <= MOST_LEVEL` and `max_pairs <= MOST_PAIRS`.
pub fn piecewise(
    alloc: Global,
    monoid: &Syntactic,
    green: &Green,
    dfa: &MinDfa,
    max_level: u32,
    max_pairs: u32,
) -> Result<PtAnswer, Memory>
    requires green { AreGreens monoid.now.graphs.right.letters (SameNode monoid.now.graphs.right)
        monoid.now.graphs.words green.now }
    requires minimal { IsMinimal monoid.now.graphs.right.letters (recognised monoid.now) dfa.now }
    requires level { max_level ≤ MOST_LEVEL }
    requires pairs { max_pairs ≤ MOST_PAIRS }
    ensures answer { IfOk result (IsPiecewiseAnswer monoid.now.graphs.right.letters
        (recognised monoid.now) max_pairs max_level) }
    ensures apart { IfOk result (IsAlwaysToldApart (recognised monoid.now)) }
    ensures simon { IfOk result (IsBoundedBySimon monoid.now.graphs.right.letters
        (recognised monoid.now) monoid.now.graphs.words max_level) }
{
    // Its contract tells that this is the syntactic monoid of the language that it recognises.
    let _cayley = monoid.cayley();
    if let Some(witness) = witness_on(alloc, monoid, green, Side::Right)? {
        return Ok(PtAnswer::No(witness));
    }
    if let Some(witness) = witness_on(alloc, monoid, green, Side::Left)? {
        return Ok(PtAnswer::No(witness));
    }
    let mut subwords = Subwords::new(alloc);
    let level = search(alloc, dfa, &mut subwords, 0, max_level, max_pairs)?;
    Ok(level_answer(level))
}
