//! Whether the powers of each element settle.
ghost use Rattle.std.specs.Prelude.{◌≡◌, ◌<◌, ◌≤◌, length, IfOk};
ghost use Rattle.language_theory.specs.Words.{word_at};
ghost use Rattle.language_theory.specs.ShortlexGraph.{SameNode};
ghost use Rattle.monoid_theory.specs.Powers.{IsFirstLoop};
ghost use Rattle.syntactic_monoid.specs.SyntacticMonoid.{recognised};
ghost use Rattle.star_free.specs.Loops.{IsLoop, AreDecided};

use crate::cycles::{Cycle, cycle_of, power_of};
use answers::Loop;
use std::alloc::Global;
use syn_words::Memory;
use syntactic_monoid::Syntactic;

/// What the powers of the elements do: all settle, as the periods are 1, or some never do.
#[derive(Drop)]
pub enum Powers {
    Aperiodic,
    Loops(Loop),
}

/// Whether a monoid is aperiodic. `Loops` comes exactly where some period is greater than 1.
pub fn decide(alloc: Global, monoid: &Syntactic) -> Result<Powers, Memory>
    ensures { IfOk result (λ p. AreDecided monoid.now.graphs.right.letters (recognised monoid.now) p) }
{
    let cayley = monoid.cayley();
    for element in 0..cayley.len() {
        let cycle = cycle_of(alloc, cayley, element)?;
        if cycle.period > 1 {
            let found = loop_of(alloc, monoid, element, cycle)?;
            return Ok(Powers::Loops(found));
        }
    }
    Ok(Powers::Aperiodic)
}

/// The words that the powers of an element give. Conditions: the element is the first whose period is greater than 1,
/// and this is its cycle.
fn loop_of(alloc: Global, monoid: &Syntactic, element: u32, cycle: Cycle) -> Result<Loop, Memory>
    requires { IsFirstLoop (SameNode monoid.now.graphs.right) monoid.now.graphs.words
        element cycle.index cycle.period }
    ensures { IfOk result (λ l. IsLoop monoid.now.graphs.right.letters (recognised monoid.now) l) }
{
    let cayley = monoid.cayley();
    let x = cayley.word(element)?;
    let power = power_of(cayley, element, cycle.index);
    let next = cayley.product(power, element);
    let word = cayley.word(power)?;
    let next_word = cayley.word(next)?;
    let separation = monoid.separate(&word, &next_word)?;
    let context = separation.unwrap();
    let before = cayley.product(cayley.find(&context.u), power);
    let first = cayley.product(before, cayley.find(&context.v));
    Ok(Loop {
        u: context.u,
        x,
        v: context.v,
        index: cycle.index,
        period: cycle.period,
        first_in: monoid.accepts(first),
    })
}
