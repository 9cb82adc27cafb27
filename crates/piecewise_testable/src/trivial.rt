//! Whether a monoid is R-trivial or L-trivial.
ghost use Rattle.std.specs.Prelude.{ℕ, IfOk, IfSome};
ghost use Rattle.language_theory.specs.ShortlexGraph.{SameNode};
ghost use Rattle.green_relations.specs.GreenClasses.{AreGreens};
ghost use Rattle.syntactic_monoid.specs.SyntacticMonoid.{recognised};
ghost use Rattle.piecewise_testable.specs.Witness.{IsAnswerOn, IsRTrivialAnswer};
ghost use Rattle.piecewise_testable.specs.Answers.{IsToldApart};

use crate::parting::part;
use crate::rounds::first_round;
use answers::{PtWitness, Side};
use green_relations::Green;
use std::alloc::Global;
use syn_words::Memory;
use syntactic_monoid::Syntactic;

/// None exactly where the monoid of the language is R-trivial. Else the words of the least element with another one in
/// its class of R; the side is `Right`. For each n the two words of the witness have the same subwords of length at most
/// n, and exactly one of them is in the language. Condition: Green's classes are those of the monoid.
pub fn r_trivial(
    alloc: Global,
    monoid: &Syntactic,
    green: &Green,
) -> Result<Option<PtWitness>, Memory>
    requires green { AreGreens monoid.now.graphs.right.letters (SameNode monoid.now.graphs.right)
        monoid.now.graphs.words green.now }
    ensures answer { IfOk result
        (IsRTrivialAnswer monoid.now.graphs.right.letters (recognised monoid.now)) }
    ensures apart { IfOk result (λ found. IfSome found
        (λ w. (n : ℕ) → IsToldApart (recognised monoid.now) n w)) }
{
    let found = witness_on(alloc, monoid, green, Side::Right)?;
    Ok(found)
}

/// The words of the least element with another one in its class on a side, or none where there is no such element.
/// Condition: Green's classes are those of the monoid.
pub(crate) fn witness_on(
    alloc: Global,
    monoid: &Syntactic,
    green: &Green,
    side: Side,
) -> Result<Option<PtWitness>, Memory>
    requires green { AreGreens monoid.now.graphs.right.letters (SameNode monoid.now.graphs.right)
        monoid.now.graphs.words green.now }
    ensures { IfOk result
        (IsAnswerOn side monoid.now.graphs.right.letters (recognised monoid.now)) }
{
    let cayley = monoid.cayley();
    let Some(round) = first_round(side, cayley, green) else {
        return Ok(None);
    };
    let s = cayley.word(round.element)?;
    let y = cayley.word(round.back)?;
    let parting = part(alloc, monoid, round.element, round.moved)?;
    Ok(Some(PtWitness {
        side,
        u: parting.u,
        s,
        letter: round.letter,
        y,
        v: parting.v,
        first_in: parting.first_in,
    }))
}
