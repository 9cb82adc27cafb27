//! The witness of the first flaw.
ghost use Rattle.std.specs.Prelude.{◌≡◌, ◌<◌, ◌↔◌, ◌++◌, IsTrue, IfOk};
ghost use Rattle.language_theory.specs.Words.{Over};
ghost use Rattle.language_theory.specs.Congruence.{Syntactic as SyntacticCongruence};
ghost use Rattle.monoid_theory.specs.Separation.{IsSeparation};
ghost use Rattle.syntactic_monoid.specs.SyntacticMonoid.{recognised};
ghost use Rattle.local_submonoids.specs.LocalSubmonoids.{local};
ghost use Rattle.local_submonoids.specs.LocalTables.{IsFlawOf};
ghost use Rattle.local_submonoids.specs.Witness.{IsWitness};

use crate::submonoids::Flaw;
use answers::{LtKind, LtWitness};
use std::alloc::Global;
use syn_words::{Memory, Word};
use syntactic_monoid::{Pair, Syntactic};

/// The witness of a flaw. Condition: it is the first flaw of the monoid, in the local submonoid of `e`.
pub fn witness_of(
    alloc: Global,
    monoid: &Syntactic,
    e: u32,
    flaw: Flaw,
) -> Result<LtWitness, Memory>
    requires { IsFlawOf monoid.now e flaw }
    ensures { IfOk result (λ w. IsWitness monoid.now.graphs.right.letters (recognised monoid.now)
        monoid.now.graphs.words w) }
{
    match flaw {
        Flaw::Repeat(s) => repeat_witness(alloc, monoid, e, s),
        Flaw::Swap(s, t) => swap_witness(monoid, e, s, t),
    }
}

/// The witness of a repeat.
fn repeat_witness(alloc: Global, monoid: &Syntactic, e: u32, s: u32) -> Result<LtWitness, Memory>
    requires { IsFlawOf monoid.now e (Flaw.Repeat s) }
    ensures { IfOk result (λ w. IsWitness monoid.now.graphs.right.letters (recognised monoid.now)
        monoid.now.graphs.words w) }
{
    let elements = monoid.cayley();
    let x = monoid.nonempty_word(e)?;
    let y = elements.word(s)?;
    let once = local_word(&x, &y)?;
    let twice = joined(&once, &once)?;
    let parting = part(monoid, &once, &twice)?;
    Ok(LtWitness {
        kind: LtKind::Repeat,
        u: parting.u,
        x,
        y,
        z: Word::new(alloc),
        v: parting.v,
        first_in: parting.first_in,
    })
}

/// The witness of a swap.
fn swap_witness(monoid: &Syntactic, e: u32, s: u32, t: u32) -> Result<LtWitness, Memory>
    requires { IsFlawOf monoid.now e (Flaw.Swap s t) }
    ensures { IfOk result (λ w. IsWitness monoid.now.graphs.right.letters (recognised monoid.now)
        monoid.now.graphs.words w) }
{
    let elements = monoid.cayley();
    let x = monoid.nonempty_word(e)?;
    let y = elements.word(s)?;
    let z = elements.word(t)?;
    let both = both_products(&x, &y, &z)?;
    let parting = part(monoid, &both.first, &both.second)?;
    Ok(LtWitness {
        kind: LtKind::Swap,
        u: parting.u,
        x,
        y,
        z,
        v: parting.v,
        first_in: parting.first_in,
    })
}

/// The two products of two elements of a local submonoid.
#[derive(Drop)]
struct Products {
    first: Word,
    second: Word,
}

/// The words `x y x x z x` and `x z x x y x`.
fn both_products(x: &Word, y: &Word, z: &Word) -> Result<Products, Memory>
    ensures first { IfOk result (λ p. p.first ≡ local x.now y.now ++ local x.now z.now) }
    ensures second { IfOk result (λ p. p.second ≡ local x.now z.now ++ local x.now y.now) }
{
    let one = local_word(x, y)?;
    let other = local_word(x, z)?;
    let first = joined(&one, &other)?;
    let second = joined(&other, &one)?;
    Ok(Products { first, second })
}

/// The least context that separates two words, and whether the first of them is in the language in that context.
#[derive(Drop)]
struct Parting {
    u: Word,
    v: Word,
    first_in: bool,
}

/// The parting of two words. Condition: their letters are in range, and they are not congruent.
fn part(monoid: &Syntactic, s: &Word, t: &Word) -> Result<Parting, Memory>
    requires one { Over monoid.now.graphs.right.letters s.now }
    requires other { Over monoid.now.graphs.right.letters t.now }
    requires apart { ¬ SyntacticCongruence monoid.now.graphs.right.letters (recognised monoid.now)
        s.now t.now }
    ensures context { IfOk result (λ p. IsSeparation monoid.now.graphs.right.letters
        (recognised monoid.now) s.now t.now p.u p.v) }
    ensures first_in { IfOk result (λ p. IsTrue p.first_in
        ↔ recognised monoid.now (p.u ++ (s.now ++ p.v))) }
{
    let context = separating(monoid, s, t)?;
    let first_in = is_in(monoid, &context, s)?;
    Ok(Parting {
        u: context.u,
        v: context.v,
        first_in,
    })
}

/// The least context that separates two words. Condition: their letters are in range, and they are not congruent.
fn separating(monoid: &Syntactic, s: &Word, t: &Word) -> Result<Pair, Memory>
    requires one { Over monoid.now.graphs.right.letters s.now }
    requires other { Over monoid.now.graphs.right.letters t.now }
    requires apart { ¬ SyntacticCongruence monoid.now.graphs.right.letters (recognised monoid.now)
        s.now t.now }
    ensures { IfOk result (λ p. IsSeparation monoid.now.graphs.right.letters (recognised monoid.now)
        s.now t.now p.u p.v) }
{
    let context = monoid.separate(s, t)?;
    Ok(context.unwrap())
}

/// Whether a word between the words of a context is in the language. Condition: the letters of all are in range.
fn is_in(monoid: &Syntactic, context: &Pair, word: &Word) -> Result<bool, Memory>
    requires before { Over monoid.now.graphs.right.letters context.now.u }
    requires word { Over monoid.now.graphs.right.letters word.now }
    requires behind { Over monoid.now.graphs.right.letters context.now.v }
    ensures { IfOk result (λ b. IsTrue b
        ↔ recognised monoid.now (context.now.u ++ (word.now ++ context.now.v))) }
{
    let inner = joined(word, &context.v)?;
    let whole = joined(&context.u, &inner)?;
    Ok(monoid.accepts(monoid.cayley().find(&whole)))
}

/// The word `x y x`.
fn local_word(x: &Word, y: &Word) -> Result<Word, Memory>
    ensures { IfOk result (λ w. w ≡ local x.now y.now) }
{
    let inner = joined(y, x)?;
    joined(x, &inner)
}

/// The first word followed by the second.
fn joined(first: &Word, second: &Word) -> Result<Word, Memory>
    ensures { IfOk result (λ w. w ≡ first.now ++ second.now) }
{
    let mut whole = first.copy()?;
    for &letter in second.letters() {
        whole.push(letter)?;
    }
    Ok(whole)
}
