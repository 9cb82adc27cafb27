//! A batch of rows that were made and are not interned yet.

ghost use Rattle.std.specs.Prelude.{◌≡◌, ◌<◌, ◌+◌, ◌*◌, [], ℕ, length, slice_index, IsTrue};
ghost use Rattle.froidure_pin.specs.Batches.{IsNextJob};

use std::alloc::Global;

/// The row of an element followed by a letter, that is to be made.
#[derive(Clone, Copy, Debug, PartialEq, Eq)]
pub(crate) struct Job {
    pub(crate) element: u32,
    pub(crate) letter: u8,
}

/// The rows of some jobs, one after another in one list, how many of them were taken out, and the first element whose
/// rows are in a later batch.
#[derive(Drop)]
pub(crate) struct Batch {
    pub(crate) jobs: Vec<Job>,
    pub(crate) rows: Vec<u32>,
    pub(crate) taken: usize,
    pub(crate) end: u32,
}

impl Batch {
    /// No rows.
    pub(crate) fn new(alloc: Global) -> Batch
        ensures jobs { result.jobs.items ≡ [] }
        ensures rows { result.rows.items ≡ [] }
        ensures taken { result.taken ≡ 0 }
    {
        Batch {
            jobs: Vec::new(alloc),
            rows: Vec::new(alloc),
            taken: 0,
            end: 0,
        }
    }

    /// Whether the next row is that of this job.
    pub(crate) fn is_next(&self, job: Job) -> bool
        ensures { IsTrue result → IsNextJob self.now job }
    {
        match self.jobs.get(self.taken) {
            Some(next) => *next == job,
            None => false,
        }
    }

    /// The next row. Condition: there is one.
    pub(crate) fn next_row(&self, points: usize) -> &[u32]
        requires next { self.now.taken < length self.now.jobs.items }
        requires long { length self.now.rows.items ≡ length self.now.jobs.items * points }
        ensures long { length result.now ≡ points }
        ensures each { (p : ℕ) → p < points
            → slice_index result.now p
            ≡ slice_index self.now.rows.items (self.now.taken * points + p) }
    {
        let start = self.taken * points;
        &self.rows[start..start + points]
    }
}
