//! The syntactic monoid of the language of a minimal automaton.
ghost use Rattle.std.specs.Prelude.{◌≡◌, ◌≤◌, IfOk, OnOk};
ghost use Rattle.std.specs.Result.{IsErrOf};
ghost use Rattle.language_theory.specs.Congruence.{Syntactic as SyntacticCongruence};
ghost use Rattle.language_theory.specs.Nerode.{accepted};
ghost use Rattle.language_theory.specs.Representatives.{HasMoreClasses};
ghost use Rattle.syntactic_monoid.specs.SyntacticMonoid.{IsSyntacticMonoid};

use crate::faults::SynFault;
use crate::steps::steps_of;
use cayley_tables::{MOST_ELEMENTS, MOST_WORKERS};
use froidure_pin::enumerate;
use std::alloc::Global;
use std::thread::Threads;
use subset_minimal::{MOST_SUBSETS, MinDfa};
use syn_outside::Gate;
use syn_words::Memory;
use syntactic_monoid::Syntactic;

/// The syntactic monoid of the language that a minimal automaton accepts. `ElementLimit` comes exactly where there are
/// more than `max_elements`. Conditions: at most `MOST_SUBSETS` states, `max_elements <= MOST_ELEMENTS`,
/// `1 <= workers <= MOST_WORKERS`.
///
/// The elements are found by `enumerate`: the same ones, whatever the number of workers.
pub fn syntactic_of<R: Threads + Sync, G: Gate + Sync>(
    rt: &R,
    alloc: Global,
    dfa: &MinDfa,
    max_elements: u32,
    workers: u32,
    gate: &G,
) -> Result<Syntactic, SynFault>
    requires states { dfa.now.graph.size ≤ MOST_SUBSETS }
    requires max_elements { max_elements ≤ MOST_ELEMENTS }
    requires some { 1 ≤ workers }
    requires workers { workers ≤ MOST_WORKERS }
    ensures monoid { IfOk result
        (λ m. IsSyntacticMonoid dfa.now.graph.letters (accepted dfa.now) m) }
    ensures letters { IfOk result (λ m. m.graphs.right.letters ≡ dfa.now.graph.letters) }
    ensures size { IfOk result (λ m. m.graphs.right.size ≤ max_elements) }
    ensures few { OnOk result
        (¬ HasMoreClasses dfa.now.graph.letters
        (SyntacticCongruence dfa.now.graph.letters (accepted dfa.now)) max_elements) }
    ensures many { IsErrOf result SynFault.ElementLimit
        → HasMoreClasses dfa.now.graph.letters
        (SyntacticCongruence dfa.now.graph.letters (accepted dfa.now)) max_elements }
{
    let generators = steps_of(alloc, dfa)?;
    let found = enumerate(rt, alloc, &generators, max_elements, workers, gate)?;
    let finals = finals_of(alloc, dfa)?;
    let monoid = Syntactic::new(alloc, found.cayley, found.rows, finals)?;
    Ok(monoid)
}

/// For each state whether it is final.
fn finals_of(alloc: Global, dfa: &MinDfa) -> Result<Vec<bool>, Memory>
    ensures { IfOk result (λ finals. finals.items ≡ dfa.now.finals) }
{
    let mut finals = Vec::with_capacity(alloc, dfa.len() as usize)?;
    for state in 0..dfa.len() {
        finals.push(dfa.is_final(state))?;
    }
    Ok(finals)
}
