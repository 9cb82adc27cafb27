//! The local submonoids of a finite monoid, by its table of products: their sizes, and what fails in them.
ghost use Rattle.std.specs.Prelude.{◌≡◌, ◌<◌, ◌↔◌, ℕ, length, slice_index, map, All, IsTrue, IfSome, IfNone, IfOk};
ghost use Rattle.parallel_table.specs.ProductTables.{IsTableOf};
ghost use Rattle.local_submonoids.specs.LocalTables.{IsClosed, local_element, IsLeastRepeatAt, AreFirstBelow, HasNoRepeat, HasNoFlaw, AreOneProduct, IsFirstPair, AllCommute, IsFlawAt, IsIdempotentAt, IsFirstFlaw};

use parallel_table::Table;
use std::alloc::Global;
use syn_words::Memory;
use syntactic_monoid::Syntactic;

/// What fails in a local submonoid.
#[derive(Clone, Copy, Debug, PartialEq, Eq)]
pub enum Flaw {
    /// The element that this one gives is not idempotent.
    Repeat(u32),
    /// The elements that these two give do not commute.
    Swap(u32, u32),
}

/// The element `e s e` of the local submonoid of `e`.
fn local_element(table: &Table, e: u32, s: u32) -> u32
    requires closed { IsClosed table.now }
    requires idempotent { e < table.now.side }
    requires element { s < table.now.side }
    ensures element { result ≡ local_element table.now e s }
    ensures within { result < table.now.side }
{
    table.at(table.at(e, s), e)
}

/// The least s for which `e s e` is not idempotent.
fn first_repeat(table: &Table, e: u32) -> Option<u32>
    requires closed { IsClosed table.now }
    requires idempotent { e < table.now.side }
    ensures some { IfSome result (λ s. IsLeastRepeatAt table.now e s) }
    ensures none { IfNone result (HasNoRepeat table.now e) }
{
    for s in 0..table.side() {
        let element = local_element(table, e, s);
        if table.at(element, element) != element {
            return Some(s);
        }
    }
    None
}

/// The least elements that give the elements of the local submonoid of `e`, in order. There are as many as that
/// submonoid has elements.
pub(crate) fn first_elements(alloc: Global, table: &Table, e: u32) -> Result<Vec<u32>, Memory>
    requires closed { IsClosed table.now }
    requires idempotent { e < table.now.side }
    ensures { IfOk result (λ v. AreFirstBelow table.now e table.now.side v.items) }
{
    let mut is_seen = vec![in alloc; false; table.side() as usize]?;
    let mut firsts = Vec::new(alloc);
    for s in 0..table.side() {
        let element = local_element(table, e, s) as usize;
        if !is_seen[element] {
            is_seen[element] = true;
            firsts.push(s)?;
        }
    }
    Ok(firsts)
}

/// The elements of the local submonoid of `e` that the listed elements give.
fn elements_given(alloc: Global, table: &Table, e: u32, listed: &[u32]) -> Result<Vec<u32>, Memory>
    requires closed { IsClosed table.now }
    requires idempotent { e < table.now.side }
    requires listed { All (λ s. s < table.now.side) listed.now }
    ensures elements { IfOk result (λ v. v.items ≡ map (local_element table.now e) listed.now) }
    ensures within { IfOk result (λ v. All (λ m. m < table.now.side) v.items) }
{
    let mut elements = Vec::with_capacity(alloc, listed.len())?;
    for &s in listed {
        elements.push(local_element(table, e, s))?;
    }
    Ok(elements)
}

/// The place of the first of the listed elements that does not commute with `one`.
fn first_other(table: &Table, elements: &[u32], one: u32) -> Option<usize>
    requires one { one < table.now.side }
    requires elements { All (λ m. m < table.now.side) elements.now }
    ensures within { IfSome result (λ j. j < length elements.now) }
    ensures fails { IfSome result (λ j. ¬ AreOneProduct table.now one (slice_index elements.now j)) }
    ensures first { IfSome result (λ j. (i : ℕ) → i < j
        → AreOneProduct table.now one (slice_index elements.now i)) }
    ensures none { IfNone result ((i : ℕ) → i < length elements.now
        → AreOneProduct table.now one (slice_index elements.now i)) }
{
    for (place, &other) in elements.iter().enumerate() {
        if table.at(one, other) != table.at(other, one) {
            return Some(place);
        }
    }
    None
}

/// The place of the first of the listed elements that does not commute with all of them, and the place of the first
/// with which it does not. It takes time in the square of their number.
fn first_pair(table: &Table, elements: &[u32]) -> Option<(usize, usize)>
    requires elements { All (λ m. m < table.now.side) elements.now }
    ensures some { IfSome result (λ p. IsFirstPair table.now elements.now p.0 p.1) }
    ensures none { IfNone result (AllCommute table.now elements.now) }
{
    for (place, &one) in elements.iter().enumerate() {
        if let Some(other) = first_other(table, elements, one) {
            return Some((place, other));
        }
    }
    None
}

/// What fails in the local submonoid of `e`: the least repeat, or, where there is none, the least swap.
fn flaw_at(alloc: Global, table: &Table, e: u32) -> Result<Option<Flaw>, Memory>
    requires closed { IsClosed table.now }
    requires idempotent { e < table.now.side }
    ensures some { IfOk result (λ found. IfSome found (λ flaw. IsFlawAt table.now e flaw)) }
    ensures none { IfOk result (λ found. IfNone found (HasNoFlaw table.now e)) }
{
    if let Some(s) = first_repeat(table, e) {
        return Ok(Some(Flaw::Repeat(s)));
    }
    let firsts = first_elements(alloc, table, e)?;
    let elements = elements_given(alloc, table, e, firsts.as_slice())?;
    match first_pair(table, elements.as_slice()) {
        Some((one, other)) => Ok(Some(Flaw::Swap(firsts[one], firsts[other]))),
        None => Ok(None),
    }
}

/// Whether an element is idempotent and has a word that is not empty.
pub(crate) fn is_idempotent(monoid: &Syntactic, table: &Table, e: u32) -> bool
    requires table { IsTableOf monoid.now.graphs table.now }
    requires element { e < table.now.side }
    ensures { IsTrue result ↔ IsIdempotentAt monoid.now table.now e }
{
    table.at(e, e) == e && monoid.in_semigroup(e)
}

/// The first idempotent class of nonempty words in whose local submonoid something fails, and what fails there.
pub fn first_flaw(
    alloc: Global,
    monoid: &Syntactic,
    table: &Table,
) -> Result<Option<(u32, Flaw)>, Memory>
    requires table { IsTableOf monoid.now.graphs table.now }
    ensures some { IfOk result (λ found. IfSome found (λ p. IsFirstFlaw monoid.now table.now p.0 p.1)) }
    ensures none { IfOk result (λ found. IfNone found ((e : ℕ) → e < table.now.side
        → IsIdempotentAt monoid.now table.now e → HasNoFlaw table.now e)) }
{
    for e in 0..table.side() {
        if is_idempotent(monoid, table, e) {
            match flaw_at(alloc, table, e)? {
                Some(flaw) => return Ok(Some((e, flaw))),
                None => {}
            }
        }
    }
    Ok(None)
}
