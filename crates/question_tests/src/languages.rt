//! The worked languages, as files, with their minimal automata and their syntactic monoids.
ghost use Rattle.std.specs.Prelude.{◌≤◌, IfOk};
ghost use Rattle.language_theory.specs.Nerode.{accepted};
ghost use Rattle.syntactic_monoid.specs.SyntacticMonoid.{IsSyntacticMonoid};

use automata::Nfa;
use automaton_file::{body_nfa, read_file};
use std::alloc::Global;
use std::thread::Threads;
use subset_minimal::{MinDfa, minimal};
use syn_outside::OpenGate;
use syn_words::Memory;
use syntactic_enumeration::syntactic_of;
use syntactic_monoid::Syntactic;

/// No word over ab.
pub(crate) const EMPTY_LANGUAGE: &[u8] = b"synmon 1\nalphabet ab\nexpr 0\n";

/// The empty word over a.
pub(crate) const EMPTY_WORD: &[u8] = b"synmon 1\nalphabet a\nexpr 1\n";

pub(crate) const AB_STAR: &[u8] = b"synmon 1\nalphabet ab\nexpr (ab)*\n";

pub(crate) const ONE_A: &[u8] = b"synmon 1\nalphabet ab\nexpr b*ab*\n";

pub(crate) const EVEN_AS: &[u8] = b"synmon 1\nalphabet ab\nexpr (b|ab*a)*\n";

pub(crate) const BEGINS_WITH_A: &[u8] = b"synmon 1\nalphabet ab\nexpr a(a|b)*\n";

pub(crate) const A_BEFORE_B: &[u8] = b"synmon 1\nalphabet ab\nexpr (a|b)*a(a|b)*b(a|b)*\n";

/// The automaton that a file spells.
fn nfa_of(alloc: Global, file: &[u8]) -> Result<Nfa, Memory> {
    let Ok(source) = read_file(alloc, file) else {
        return Err(Memory);
    };
    body_nfa(alloc, &source)
}

/// The minimal automaton of the language of a file. The subset construction comes to few states here.
pub(crate) fn dfa_of(alloc: Global, file: &[u8]) -> Result<MinDfa, Memory>
    ensures { IfOk result (λ dfa. dfa.graph.size ≤ 20) }
{
    let nfa = nfa_of(alloc, file)?;
    match minimal(alloc, &nfa, 20) {
        Ok(dfa) => Ok(dfa),
        Err(_) => Err(Memory),
    }
}

/// The syntactic monoid of the language of a small automaton. It has few elements here.
pub(crate) fn monoid_of<R: Threads + Sync>(
    rt: &R,
    alloc: Global,
    dfa: &MinDfa,
) -> Result<Syntactic, Memory>
    requires { dfa.now.graph.size ≤ 20 }
    ensures { IfOk result (λ m. IsSyntacticMonoid dfa.now.graph.letters (accepted dfa.now) m) }
{
    match syntactic_of(rt, alloc, dfa, 100, 2, &OpenGate) {
        Ok(monoid) => Ok(monoid),
        Err(_) => Err(Memory),
    }
}
