//! The enumeration.
ghost use Rattle.std.specs.Prelude.{◌≡◌, ◌<◌, ◌≤◌, ◌*◌, length, All, IfOk, OnOk};
ghost use Rattle.std.specs.Result.{IsErrOf};
ghost use Rattle.language_theory.specs.Representatives.{HasMoreClasses};
ghost use Rattle.cayley_tables.specs.CayleyGraphs.{AreGraphsOf};
ghost use Rattle.froidure_pin.specs.Maps.{SameMap};
ghost use Rattle.froidure_pin.specs.Rows.{AreSeen, AreRowsOf};
ghost use Rattle.froidure_pin.specs.Batches.{IsBatch, IsJob, AreMade};
ghost use Rattle.froidure_pin.specs.Search.{IsReady};

use crate::batch::{Batch, Job};
use crate::elements::MOST_ROWS;
use crate::filling::{Parts, fill};
use crate::generators::Generators;
use crate::machine::FroidurePin;
use cayley_tables::{Cayley, MOST_ELEMENTS, MOST_WORKERS};
use exploration::{ExploreFault, States, expand};
use image_rows::Rows;
use std::alloc::Global;
use std::thread::Threads;
use syn_outside::Gate;
use syn_words::Memory;
use thiserror::Error;

/// Why there is no list of elements.
#[derive(Clone, Copy, Debug, PartialEq, Eq, Error)]
pub enum EnumFault {
    /// There are more elements than the limit.
    #[error("too many elements")]
    ElementLimit,
    /// The system gave no memory.
    #[error("out of memory")]
    Memory,
}

impl From<Memory> for EnumFault {
    ghost use Rattle.std.specs.Prelude.{◌≡◌};
    ghost use Rattle.froidure_pin.specs.declared.enumerating.EnumFault.TheVariants as fault;

    ghost from_gives = { λ _ e. e ≡ fault.Memory };

    fn from(_fault: Memory) -> EnumFault {
        EnumFault::Memory
    }
}

impl From<ExploreFault> for EnumFault {
    ghost use Rattle.froidure_pin.specs.Faults.{IsRaised};

    ghost from_gives = { IsRaised };

    fn from(fault: ExploreFault) -> EnumFault {
        match fault {
            ExploreFault::Limit => EnumFault::ElementLimit,
            ExploreFault::Memory => EnumFault::Memory,
        }
    }
}

/// The elements with both Cayley graphs, and where the words of each element take the points.
#[derive(Drop)]
pub struct Enumerated {
    pub cayley: Cayley,
    pub rows: Rows,
    ghost long: { length rows ≡ length cayley.words },
}

/// The elements of the monoid of maps that letters generate: the classes of words that map all points alike, by their
/// shortlex-least words, in shortlex order. `ElementLimit` comes exactly where there are more than `max_elements`.
/// Conditions: `max_elements <= MOST_ELEMENTS`, `1 <= workers <= MOST_WORKERS`.
///
/// The rows of images that one word length needs are made in batches of at most 4,096, by as many workers as there are
/// rows, and at most `workers`; the part p of each batch passes the gate with p once, before its first row.
pub fn enumerate<R: Threads + Sync, G: Gate + Sync>(
    rt: &R,
    alloc: Global,
    generators: &Generators,
    max_elements: u32,
    workers: u32,
    gate: &G,
) -> Result<Enumerated, EnumFault>
    requires max_elements { max_elements ≤ MOST_ELEMENTS }
    requires some { 1 ≤ workers }
    requires workers { workers ≤ MOST_WORKERS }
    ensures elements { IfOk result
        (λ e. AreGraphsOf generators.now.letters (SameMap generators.now) e.cayley) }
    ensures rows { IfOk result (λ e. AreRowsOf generators.now e.cayley.words e.rows) }
    ensures size { IfOk result (λ e. e.cayley.right.size ≤ max_elements) }
    ensures few { OnOk result
        (¬ HasMoreClasses generators.now.letters (SameMap generators.now) max_elements) }
    ensures many { IsErrOf result EnumFault.ElementLimit
        → HasMoreClasses generators.now.letters (SameMap generators.now) max_elements }
{
    let mut machine = FroidurePin::new(alloc, generators)?;
    let right = explore_in_batches(rt, gate, workers, &mut machine, max_elements)?;
    let mut elements = machine.elements;
    elements.fill_left(right.as_slice())?;
    Ok(elements.into_enumerated(alloc, right))
}

/// The targets of all elements, found element by element; the rows that are needed are made in batches, by workers.
fn explore_in_batches<R: Threads + Sync, G: Gate + Sync>(
    rt: &R,
    gate: &G,
    workers: u32,
    machine: &mut FroidurePin,
    limit: u32,
) -> Result<Vec<u32>, ExploreFault>
    requires seen { AreSeen machine.old.elements.generators.now machine.old.elements.rows }
    requires none { length machine.old.elements.rows ≡ 0 }
    requires limit { limit ≤ MOST_ELEMENTS }
    requires some { 1 ≤ workers }
    requires workers { workers ≤ MOST_WORKERS }
    ensures generators { machine.new.elements.generators.now ≡ machine.old.elements.generators.now }
    ensures seen { OnOk result
        (AreSeen machine.new.elements.generators.now machine.new.elements.rows) }
    ensures ready { IfOk result
        (λ right. IsReady machine.new.elements.generators.now machine.new.elements.rows
        machine.new.elements.progress right.items) }
    ensures whole { IfOk result
        (λ right. length right.items
        ≡ length machine.new.elements.rows * machine.new.elements.generators.now.letters) }
    ensures within { OnOk result (length machine.new.elements.rows ≤ limit) }
    ensures many { IsErrOf result ExploreFault.Limit
        → HasMoreClasses machine.old.elements.generators.now.letters
        (SameMap machine.old.elements.generators.now) limit }
{
    if limit == 0 {
        return Err(ExploreFault::Limit);
    }
    let mut right = Vec::new(machine.alloc);
    machine.start()?;
    let mut element = 0;
    while element < machine.len() {
        prepare(rt, gate, workers, machine, right.as_slice(), element)?;
        expand(machine, element, limit, &mut right)?;
        element += 1;
    }
    Ok(right)
}

/// Makes the batch that has the rows of the element, if it is not there.
fn prepare<R: Threads + Sync, G: Gate + Sync>(
    rt: &R,
    gate: &G,
    workers: u32,
    machine: &mut FroidurePin,
    targets: &[u32],
    element: u32,
) -> Result<(), Memory>
    requires seen { AreSeen machine.old.elements.generators.now machine.old.elements.rows }
    requires ready { IsReady machine.old.elements.generators.now machine.old.elements.rows
        machine.old.elements.progress targets.now }
    requires batch { IsBatch machine.old.elements.generators.now machine.old.elements.rows
        machine.old.batch }
    requires some { 1 ≤ workers }
    requires few { workers ≤ MOST_WORKERS }
    requires element { element < length machine.old.elements.rows }
    requires here { length targets.now ≡ element * machine.old.elements.generators.now.letters }
    ensures generators { machine.new.elements.generators ≡ machine.old.elements.generators }
    ensures rows { machine.new.elements.rows ≡ machine.old.elements.rows }
    ensures ready { OnOk result
        (IsReady machine.new.elements.generators.now machine.new.elements.rows
        machine.new.elements.progress targets.now) }
    ensures batch { OnOk result
        (IsBatch machine.new.elements.generators.now machine.new.elements.rows machine.new.batch) }
{
    machine.elements.enter(targets, element)?;
    if element < machine.batch.end {
        return Ok(());
    }
    // The memory of the batch that is used up is given back before that of the next one is taken.
    machine.batch = Batch::new(machine.alloc);
    machine.batch = make_batch(rt, gate, workers, machine, targets, element)?;
    Ok(())
}

/// The batch that begins with the rows of the element.
fn make_batch<R: Threads + Sync, G: Gate + Sync>(
    rt: &R,
    gate: &G,
    workers: u32,
    machine: &FroidurePin,
    targets: &[u32],
    element: u32,
) -> Result<Batch, Memory>
    requires seen { AreSeen machine.now.elements.generators.now machine.now.elements.rows }
    requires ready { IsReady machine.now.elements.generators.now machine.now.elements.rows
        machine.now.elements.progress targets.now }
    requires from { machine.now.elements.progress.from ≤ element }
    requires some { 1 ≤ workers }
    requires few { workers ≤ MOST_WORKERS }
    ensures { IfOk result
        (λ b. IsBatch machine.now.elements.generators.now machine.now.elements.rows b) }
{
    let (jobs, end) = machine.elements.jobs_from(machine.alloc, targets, element)?;
    let rows = make_rows(rt, gate, workers, machine, jobs.as_slice())?;
    Ok(Batch {
        jobs,
        rows,
        taken: 0,
        end,
    })
}

/// The rows of the jobs, made by at most as many parts as there are workers, and as there are jobs.
fn make_rows<R: Threads + Sync, G: Gate + Sync>(
    rt: &R,
    gate: &G,
    workers: u32,
    machine: &FroidurePin,
    jobs: &[Job],
) -> Result<Vec<u32>, Memory>
    requires seen { AreSeen machine.now.elements.generators.now machine.now.elements.rows }
    requires jobs { All
        (IsJob machine.now.elements.generators.now machine.now.elements.rows) jobs.now }
    requires most { length jobs.now ≤ MOST_ROWS }
    requires some { 1 ≤ workers }
    requires few { workers ≤ MOST_WORKERS }
    ensures { IfOk result
        (λ rows. AreMade machine.now.elements.generators.now machine.now.elements.rows jobs.now
        rows.items) }
{
    let elements = &machine.elements;
    let mut rows = elements.bare_rows(machine.alloc, jobs.len())?;
    if jobs.len() == 0 {
        return Ok(rows);
    }
    let parts = Parts {
        first: 0,
        count: workers.min(jobs.len() as u32),
    };
    fill(
        rt,
        gate,
        elements.generators,
        &elements.rows,
        jobs,
        rows.as_mut_slice(),
        parts,
    );
    Ok(rows)
}
