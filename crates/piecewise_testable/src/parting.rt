//! The least contexts that separate elements.
ghost use Rattle.std.specs.Prelude.{◌≢◌, ◌<◌, ◌++◌, ◌↔◌, length, IsTrue, IfOk};
ghost use Rattle.language_theory.specs.Words.{Over, word_at};
ghost use Rattle.syntactic_monoid.specs.SyntacticMonoid.{recognised};
ghost use Rattle.piecewise_testable.specs.Partings.{IsParting};

use std::alloc::Global;
use syn_words::{Memory, Word};
use syntactic_monoid::Syntactic;

/// The least context that separates two elements, and whether the first of them is in the language in that context.
#[derive(Drop)]
pub(crate) struct Parting {
    pub(crate) u: Word,
    pub(crate) v: Word,
    pub(crate) first_in: bool,
}

/// The parting of two different elements. Conditions: both are in range.
pub(crate) fn part(alloc: Global, monoid: &Syntactic, i: u32, j: u32) -> Result<Parting, Memory>
    requires one { i < length monoid.now.graphs.words }
    requires other { j < length monoid.now.graphs.words }
    requires apart { i ≢ j }
    ensures { IfOk result (λ p. IsParting monoid.now.graphs.right.letters (recognised monoid.now)
        (word_at monoid.now.graphs.words i) (word_at monoid.now.graphs.words j) p) }
{
    let cayley = monoid.cayley();
    let s = cayley.word(i)?;
    let t = cayley.word(j)?;
    let Some(pair) = monoid.separate(&s, &t)? else {
        unreachable!()
    };
    let first_in = is_in_context(monoid, &pair.u, i, &pair.v);
    Ok(Parting {
        u: pair.u,
        v: pair.v,
        first_in,
    })
}

/// Whether the word of an element is in the language between two words. Conditions: the element is in range, and so are
/// the letters of both words.
fn is_in_context(monoid: &Syntactic, u: &Word, i: u32, v: &Word) -> bool
    requires element { i < length monoid.now.graphs.words }
    requires before { Over monoid.now.graphs.right.letters u.now }
    requires behind { Over monoid.now.graphs.right.letters v.now }
    ensures { IsTrue result
        ↔ recognised monoid.now (u.now ++ (word_at monoid.now.graphs.words i ++ v.now)) }
{
    let cayley = monoid.cayley();
    let inner = cayley.product(i, cayley.find(v));
    monoid.accepts(cayley.product(cayley.find(u), inner))
}
