//! The machine whose states are the rows of words, found by Froidure and Pin's method.
ghost use Rattle.std.specs.Prelude.{◌≡◌, ◌<◌, ◌≤◌, ◌+◌, ◌-◌, ◌*◌, ◌^◌, ◌++◌, [], ◌∷◌, length, refl, true, IfOk, OnOk, OnErr};
ghost use Rattle.std.proofs.Common.{◌∙◌};
ghost use Rattle.exploration.specs.States.{AreKept, IsNext, IsCounted};
ghost use Rattle.froidure_pin.specs.Maps.{SameMap};
ghost use Rattle.froidure_pin.specs.Rows.{number_of, AreSeen, same_maps_keep};
ghost use Rattle.froidure_pin.specs.Batches.{IsJob, IsBatch, IsNextJob};
ghost use Rattle.froidure_pin.specs.Search.{IsReady, IsCurrent, needs_row};

use crate::batch::{Batch, Job};
use crate::elements::{Elements, Progress};
use crate::filling::fill_rows;
use crate::generators::Generators;
use exploration::States;
use image_rows::Rows;
use std::alloc::Global;
use syn_words::Memory;

/// Words as maps of points: the state of a word is its row, where it takes each point. A row is made only where the
/// target can't be read from the graphs that are there. It is taken from the batch of rows that were made before, if
/// it is the next one there, and else it is made alone.
#[derive(Drop)]
pub(crate) struct FroidurePin<'a> {
    pub(crate) alloc: Global,
    pub(crate) elements: Elements<'a>,
    pub(crate) batch: Batch,
}

impl<'a> FroidurePin<'a> {
    /// The machine of the generators, before any row was made.
    pub(crate) fn new(alloc: Global, generators: &'a Generators) -> Result<FroidurePin<'a>, Memory>
        ensures generators { IfOk result (λ f. f.elements.generators.now ≡ generators.now) }
        ensures rows { IfOk result (λ f. f.elements.rows ≡ []) }
        ensures seen { IfOk result (λ f. AreSeen f.elements.generators.now f.elements.rows) }
    {
        // Its contract tells that these are maps of points.
        let _points = generators.points();
        let elements = Elements {
            generators,
            rows: Rows::new(alloc),
            progress: Progress::new(alloc)?,
        };
        Ok(FroidurePin {
            alloc,
            elements,
            batch: Batch::new(alloc),
        })
    }

    /// Makes the row of the job the next one of the batch.
    fn provide(&mut self, job: Job) -> Result<(), Memory>
        requires seen { AreSeen self.old.elements.generators.now self.old.elements.rows }
        requires job { IsJob self.old.elements.generators.now self.old.elements.rows job }
        requires batch { IsBatch self.old.elements.generators.now self.old.elements.rows
            self.old.batch }
        ensures elements { self.new.elements ≡ self.old.elements }
        ensures batch { OnOk result
            (IsBatch self.new.elements.generators.now self.new.elements.rows self.new.batch) }
        ensures next { OnOk result (IsNextJob self.new.batch job) }
    {
        if self.batch.is_next(job) {
            return Ok(());
        }
        self.batch = self.batch_of(job)?;
        Ok(())
    }

    /// The batch that has the row of the job alone.
    fn batch_of(&self, job: Job) -> Result<Batch, Memory>
        requires seen { AreSeen self.now.elements.generators.now self.now.elements.rows }
        requires job { IsJob self.now.elements.generators.now self.now.elements.rows job }
        ensures batch { IfOk result
            (λ b. IsBatch self.now.elements.generators.now self.now.elements.rows b) }
        ensures next { IfOk result (λ b. IsNextJob b job) }
    {
        let mut jobs = Vec::new(self.alloc);
        jobs.push(job)?;
        let mut rows = self.elements.bare_rows(self.alloc, jobs.len())?;
        fill_rows(
            self.elements.generators,
            &self.elements.rows,
            jobs.as_slice(),
            rows.as_mut_slice(),
        );
        Ok(Batch {
            jobs,
            rows,
            taken: 0,
            end: job.element,
        })
    }

    /// Sees the next row, which is that of the job, and answers its number.
    fn see_next(&mut self, targets: &[u32], job: Job) -> Result<u32, Memory>
        requires seen { AreSeen self.old.elements.generators.now self.old.elements.rows }
        requires ready { IsReady self.old.elements.generators.now self.old.elements.rows
            self.old.elements.progress targets.now }
        requires job { IsCurrent self.old.elements.generators.now self.old.elements.progress job }
        requires here { length targets.now
            ≡ job.element * self.old.elements.generators.now.letters + job.letter }
        requires needed { needs_row self.old.elements.generators.now.letters targets.now
            self.old.elements.progress.links job.element job.letter ≡ true }
        requires batch { IsBatch self.old.elements.generators.now self.old.elements.rows
            self.old.batch }
        requires next { IsNextJob self.old.batch job }
        requires room { length self.old.elements.rows < 2 ^ 32 - 1 }
        ensures generators { self.new.elements.generators ≡ self.old.elements.generators }
        ensures seen { AreSeen self.new.elements.generators.now self.new.elements.rows }
        ensures kept { AreKept self.old.elements.generators.now.letters
            (number_of self.old.elements.generators.now self.old.elements.rows)
            (number_of self.new.elements.generators.now self.new.elements.rows) }
        ensures next { IfOk result
            (λ n. IsNext self.old.elements.generators.now.letters
            (number_of self.old.elements.generators.now self.old.elements.rows)
            (number_of self.new.elements.generators.now self.new.elements.rows) job.element
            job.letter n) }
        ensures counted { IfOk result
            (λ n. IsCounted (length self.old.elements.rows) (length self.new.elements.rows) n) }
        ensures ready { IfOk result
            (λ n. IsReady self.new.elements.generators.now self.new.elements.rows
            self.new.elements.progress (targets.now ++ n ∷ [])) }
        ensures batch { IfOk result
            (λ n. IsBatch self.new.elements.generators.now self.new.elements.rows self.new.batch) }
        ensures err { OnErr result (length self.new.elements.rows ≡ length self.old.elements.rows) }
    {
        let points = self.elements.generators.points() as usize;
        let row = self.batch.next_row(points);
        let number = self.elements.see(targets, job, row)?;
        self.batch.taken += 1;
        Ok(number)
    }
}

impl<'a> States for FroidurePin<'a> {
    ghost letters_of = { λ f. f.elements.generators.now.letters };

    ghost same = { λ f. SameMap f.elements.generators.now };

    ghost number = { λ f. number_of f.elements.generators.now f.elements.rows };

    ghost count = { λ f. length f.elements.rows };

    ghost is_sound = { λ f. AreSeen f.elements.generators.now f.elements.rows };

    ghost is_later = { λ f g. g.elements.generators.now ≡ f.elements.generators.now };

    ghost is_ready = { λ f targets. IsReady f.elements.generators.now f.elements.rows
        f.elements.progress targets × IsBatch f.elements.generators.now f.elements.rows f.batch };

    ghost later_keeps = { λ f g. same_maps_keep f.elements.generators.now g.elements.generators.now };

    ghost later_refl = { λ _. refl };

    ghost later_trans = { λ _ _ _ e f. f ∙ e };

    ghost numbered = { λ _ h. h.numbered };

    fn letters(&self) -> u8 {
        self.elements.generators.letters() as u8
    }

    fn len(&self) -> u32 {
        self.elements.rows.len()
    }

    fn start(&mut self) -> Result<u32, Memory> {
        self.batch = Batch::new(self.alloc);
        let number = self.elements.begin(self.alloc)?;
        Ok(number)
    }

    fn step(&mut self, targets: &[u32], state: u32, letter: u8) -> Result<u32, Memory> {
        self.elements.enter(targets, state)?;
        let job = Job {
            element: state,
            letter,
        };
        if !self.elements.needs_row(targets, job) {
            return Ok(self.elements.read_target(targets, job));
        }
        self.provide(job)?;
        let number = self.see_next(targets, job)?;
        Ok(number)
    }
}
