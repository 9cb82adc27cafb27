//! The states to which empty moves lead (Warshall's method).
ghost use Rattle.std.specs.Prelude.{◌≡◌, ◌<◌, ◌&&◌, ◌⊎◌, length, All, IfOk, OnOk};
ghost use Rattle.language_theory.specs.Automaton.{is_marked};
ghost use Rattle.number_set.specs.Marks.{HasGained};
ghost use Rattle.automata.specs.Closures.{AreSquare, AreNearRows, AreClosures, GoThrough, IsClosed, AreClosed};

use crate::nfa::Nfa;
use number_set::NumberSet;
use std::alloc::Global;
use syn_words::Memory;

/// For each state the set of the states to which none or more empty moves lead from it. For each pair of states it
/// takes time linear in a 64th of the states at most, and less where few moves lead far.
pub(crate) fn closures(alloc: Global, nfa: &Nfa) -> Result<Vec<NumberSet>, Memory>
    ensures { IfOk result (λ rows. AreClosures nfa.now rows.items) }
{
    let mut rows = near_rows(alloc, nfa)?;
    for middle in 0..nfa.states() {
        go_through(rows.as_mut_slice(), middle)?;
    }
    Ok(rows)
}

/// For each state the set of itself and of the states to which empty moves lead from it.
fn near_rows(alloc: Global, nfa: &Nfa) -> Result<Vec<NumberSet>, Memory>
    ensures { IfOk result (λ rows. AreNearRows nfa.now nfa.now.states rows.items) }
{
    let mut rows = Vec::with_capacity(alloc, nfa.states() as usize)?;
    for state in 0..nfa.states() {
        rows.push(nfa.near(alloc, state)?)?;
    }
    Ok(rows)
}

/// Adds the pairs that are put together of two that meet in the middle. Conditions: each row has a place for each row,
/// and the middle is one of them.
fn go_through(rows: &mut [NumberSet], middle: u32) -> Result<(), Memory>
    requires square { AreSquare rows.old }
    requires middle { middle < length rows.old }
    ensures { OnOk result (GoThrough rows.old rows.new middle) }
{
    let reached = rows[middle as usize].copy()?;
    for row in rows.iter_mut() {
        gain(row, middle, &reached);
    }
    Ok(())
}

/// Puts the members of another set into a set that has the middle. Conditions: both have one size, and the middle is
/// below it.
fn gain(row: &mut NumberSet, middle: u32, reached: &NumberSet)
    requires middle { middle < length row.old }
    requires long { length reached.now ≡ length row.old }
    ensures { HasGained row.old row.new (length row.old)
        (λ q. is_marked row.old middle && is_marked reached.now q) }
{
    if row.contains(middle) {
        row.union_with(reached);
    }
}

/// The states to which none or more empty moves lead from the members of a set. Conditions: the closures have a place
/// for each of them, and the set has a place for each of them or none.
pub(crate) fn closed(set: &NumberSet, closures: &[NumberSet]) -> Result<NumberSet, Memory>
    requires square { AreSquare closures.now }
    requires long { (length set.now ≡ 0) ⊎ (length set.now ≡ length closures.now) }
    ensures { IfOk result (λ new. IsClosed closures.now set.now new) }
{
    let mut all = set.bare()?;
    let mut members = set.members();
    while let Some(state) = members.next() {
        all.union_with(&closures[state as usize]);
    }
    Ok(all)
}

/// The same of each row.
pub(crate) fn closed_rows(
    alloc: Global,
    rows: &[NumberSet],
    closures: &[NumberSet],
) -> Result<Vec<NumberSet>, Memory>
    requires square { AreSquare closures.now }
    requires long { All (λ marks. (length marks ≡ 0) ⊎ (length marks ≡ length closures.now)) rows.now }
    ensures { IfOk result (λ new. AreClosed closures.now rows.now new.items) }
{
    let mut all = Vec::with_capacity(alloc, rows.len())?;
    for row in rows {
        all.push(closed(row, closures)?)?;
    }
    Ok(all)
}
