//! The powers of one element of a finite monoid.
ghost use Rattle.std.specs.Prelude.{◌≡◌, ◌<◌, length, IfOk};
ghost use Rattle.language_theory.specs.Words.{power, word_at};
ghost use Rattle.language_theory.specs.ShortlexGraph.{node, SameNode};
ghost use Rattle.monoid_theory.specs.Powers.{IsIndexAndPeriod};

use cayley_tables::Cayley;
use indexmap::IndexSet;
use std::alloc::Global;
use syn_words::Memory;

/// The index of an element, the least exponent whose power comes back, and its period, after how many steps it does.
#[derive(Clone, Copy, Debug, PartialEq, Eq)]
pub(crate) struct Cycle {
    pub(crate) index: u32,
    pub(crate) period: u32,
}

/// The index and the period of an element: its powers are taken until one comes back. Condition: the element is in
/// range.
pub(crate) fn cycle_of(alloc: Global, cayley: &Cayley, element: u32) -> Result<Cycle, Memory>
    requires { element < length cayley.now.words }
    ensures { IfOk result
        (λ c. IsIndexAndPeriod (SameNode cayley.now.right) (word_at cayley.now.words element)
        c.index c.period) }
{
    // Its contract tells that these are the graphs of a monoid, of at most 50,000 elements.
    let _len = cayley.len();
    let mut powers = IndexSet::new(alloc);
    let mut last = 0;
    loop {
        let (place, is_new) = powers.insert_full(last)?;
        if !is_new {
            return Ok(Cycle {
                index: place as u32,
                period: (powers.len() - place) as u32,
            });
        }
        last = cayley.product(last, element);
    }
}

/// The power of an element with an exponent. Condition: the element is in range.
pub(crate) fn power_of(cayley: &Cayley, element: u32, exponent: u32) -> u32
    requires { element < length cayley.now.words }
    ensures power { result ≡ node cayley.now.right (power exponent (word_at cayley.now.words element)) }
    ensures within { result < length cayley.now.words }
{
    // Its contract tells that these are the graphs of a monoid.
    let _len = cayley.len();
    let mut last = 0;
    for _ in 0..exponent {
        last = cayley.product(last, element);
    }
    last
}
