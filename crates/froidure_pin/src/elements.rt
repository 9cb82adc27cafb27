//! The elements that were found, and the targets that are read from the graphs that are there.
ghost use Rattle.std.specs.Prelude.{◌≡◌, ◌<◌, ◌≤◌, ◌+◌, ◌-◌, ◌*◌, ◌^◌, ◌++◌, [], ◌∷◌, length, take, slice_get, map, All, Some, true, false, IfOk, OnOk, OnErr};
ghost use Rattle.std.specs.List.{range_with_len};
ghost use Rattle.exploration.specs.States.{AreKept, IsNext, IsCounted};
ghost use Rattle.cayley_tables.specs.CayleyGraphs.{AreGraphsOf};
ghost use Rattle.cayley_tables.specs.LeftRows.{GoesOn};
ghost use Rattle.cayley_tables.specs.Links.{with_link};
ghost use Rattle.froidure_pin.specs.Maps.{AreMaps, SameMap};
ghost use Rattle.froidure_pin.specs.Rows.{number_of, AreSeen, AreRowsOf};
ghost use Rattle.froidure_pin.specs.Batches.{IsJob, IsNextRow, AreMore};
ghost use Rattle.froidure_pin.specs.Search.{IsReady, IsCurrent, IsFirst, IsComplete, rest_of, needs_row, read_target, next_links};

use crate::batch::Job;
use crate::enumerating::Enumerated;
use crate::generators::Generators;
use cayley_tables::{Cayley, Links, push_left_rows};
use image_rows::Rows;
use std::alloc::Global;
use syn_words::Memory;

/// The most rows that are made at once.
pub(crate) const MOST_ROWS: usize = 4_096;

/// What is kept of the targets found so far: the links of all elements, and the left Cayley graph of the elements with
/// shorter words than those whose targets are being found. The latter are the elements from `from` to before `to`.
#[derive(Drop)]
pub(crate) struct Progress {
    pub(crate) links: Links,
    pub(crate) left: Vec<u32>,
    pub(crate) from: u32,
    pub(crate) to: u32,
}

impl Progress {
    /// What is kept before the first target: the links of element 0 alone.
    pub(crate) fn new(alloc: Global) -> Result<Progress, Memory>
        ensures { IfOk result (λ p. IsFirst p) }
    {
        let mut links = Links::new(alloc);
        links.push(0, 0, 0, 0)?;
        Ok(Progress {
            links,
            left: Vec::new(alloc),
            from: 0,
            to: 1,
        })
    }
}

/// The elements that were found: their rows of images, and what is kept of the targets found so far.
#[derive(Drop)]
pub(crate) struct Elements<'a> {
    pub(crate) generators: &'a Generators,
    pub(crate) rows: Rows,
    pub(crate) progress: Progress,
}

impl<'a> Elements<'a> {
    /// Finds the element of the empty word, whose row has each point at its own place. After `Memory` there is no
    /// element.
    pub(crate) fn begin(&mut self, alloc: Global) -> Result<u32, Memory>
        requires maps { AreMaps self.old.generators.now }
        requires rows { self.old.rows ≡ [] }
        ensures generators { self.new.generators ≡ self.old.generators }
        ensures seen { AreSeen self.new.generators.now self.new.rows }
        ensures zero { IfOk result (λ n. n ≡ 0) }
        ensures one { IfOk result (λ n. length self.new.rows ≡ 1) }
        ensures empty { IfOk result
            (λ n. number_of self.new.generators.now self.new.rows [] ≡ Some n) }
        ensures ready { IfOk result
            (λ n. IsReady self.new.generators.now self.new.rows self.new.progress []) }
        ensures err { OnErr result (length self.new.rows ≡ 0) }
    {
        let row = points_in_order(alloc, self.generators.points())?;
        self.progress = Progress::new(alloc)?;
        let number = self.rows.see(row.as_slice())?;
        Ok(number)
    }

    /// Goes on to the elements whose words are longer by one: all targets of those before them are found, so their
    /// left rows are filled.
    pub(crate) fn begin_length(&mut self, targets: &[u32]) -> Result<(), Memory>
        requires ready { IsReady self.old.generators.now self.old.rows self.old.progress targets.now }
        requires whole { length targets.now
            ≡ self.old.progress.to * self.old.generators.now.letters }
        requires more { self.old.progress.to < length self.old.rows }
        ensures generators { self.new.generators ≡ self.old.generators }
        ensures rows { self.new.rows ≡ self.old.rows }
        ensures ready { OnOk result
            (IsReady self.new.generators.now self.new.rows self.new.progress targets.now) }
        ensures next { OnOk result (self.new.progress.from ≡ self.old.progress.to) }
    {
        self.fill_left(targets)?;
        self.progress.from = self.progress.to;
        self.progress.to = self.rows.len();
        Ok(())
    }

    /// Goes on to longer words, if the next target is that of an element with a longer word.
    pub(crate) fn enter(&mut self, targets: &[u32], element: u32) -> Result<(), Memory>
        requires ready { IsReady self.old.generators.now self.old.rows self.old.progress targets.now }
        requires element { element < length self.old.rows }
        requires begun { element * self.old.generators.now.letters ≤ length targets.now }
        requires unfinished { length targets.now < (element + 1) * self.old.generators.now.letters }
        ensures generators { self.new.generators ≡ self.old.generators }
        ensures rows { self.new.rows ≡ self.old.rows }
        ensures ready { OnOk result
            (IsReady self.new.generators.now self.new.rows self.new.progress targets.now) }
        ensures from { OnOk result (self.new.progress.from ≤ element) }
        ensures to { OnOk result (element < self.new.progress.to) }
    {
        if element == self.progress.to {
            self.begin_length(targets)?;
        }
        Ok(())
    }

    /// Fills the left rows of the elements whose targets are all found.
    pub(crate) fn fill_left(&mut self, targets: &[u32]) -> Result<(), Memory>
        requires ready { IsReady self.old.generators.now self.old.rows self.old.progress targets.now }
        requires whole { length targets.now
            ≡ self.old.progress.to * self.old.generators.now.letters }
        ensures generators { self.new.generators ≡ self.old.generators }
        ensures rows { self.new.rows ≡ self.old.rows }
        ensures links { self.new.progress.links ≡ self.old.progress.links }
        ensures from { self.new.progress.from ≡ self.old.progress.from }
        ensures to { self.new.progress.to ≡ self.old.progress.to }
        ensures long { OnOk result
            (length self.new.progress.left.items
            ≡ self.old.progress.to * self.old.generators.now.letters) }
        ensures left { OnOk result
            (GoesOn self.old.generators.now.letters targets.now self.old.progress.links
            self.old.progress.to self.old.progress.left.items self.new.progress.left.items) }
    {
        let letters = self.generators.letters();
        push_left_rows(
            letters,
            targets,
            &self.progress.links,
            self.progress.from,
            self.progress.to,
            &mut self.progress.left,
        )?;
        Ok(())
    }

    /// Whether the row of an element followed by a letter has to be made: not where the word of the element without
    /// its first letter, with the letter behind it, is no least word. Condition: the element is among those whose
    /// targets are being found.
    pub(crate) fn needs_row(&self, targets: &[u32], job: Job) -> bool
        requires ready { IsReady self.now.generators.now self.now.rows self.now.progress targets.now }
        requires job { IsCurrent self.now.generators.now self.now.progress job }
        ensures { result
            ≡ needs_row self.now.generators.now.letters targets.now self.now.progress.links
            job.element job.letter }
    {
        if job.element == 0 {
            return true;
        }
        let rest = self.rest(targets, job);
        let links = &self.progress.links;
        rest > 0
            && links.prefix(rest) == links.suffix(job.element)
            && links.last(rest) == job.letter
    }

    /// The element of the word of an element without its first letter, with a letter behind it.
    fn rest(&self, targets: &[u32], job: Job) -> u32
        requires ready { IsReady self.now.generators.now self.now.rows self.now.progress targets.now }
        requires some { 0 < job.element }
        requires job { IsCurrent self.now.generators.now self.now.progress job }
        ensures rest { result
            ≡ rest_of self.now.generators.now.letters targets.now self.now.progress.links
            job.element job.letter }
        ensures within { result < length self.now.rows }
    {
        let letters = self.generators.letters() as usize;
        let suffix = self.progress.links.suffix(job.element);
        targets[suffix as usize * letters + job.letter as usize]
    }

    /// The element followed by the letter, read from the graphs that are there: the first letter of the element times
    /// the rest. Condition: the row need not be made, and the target is the next one.
    pub(crate) fn read_target(&self, targets: &[u32], job: Job) -> u32
        requires seen { AreSeen self.now.generators.now self.now.rows }
        requires ready { IsReady self.now.generators.now self.now.rows self.now.progress targets.now }
        requires job { IsCurrent self.now.generators.now self.now.progress job }
        requires here { length targets.now
            ≡ job.element * self.now.generators.now.letters + job.letter }
        requires known { needs_row self.now.generators.now.letters targets.now
            self.now.progress.links job.element job.letter ≡ false }
        ensures { result
            ≡ read_target self.now.generators.now.letters targets.now self.now.progress.links
            self.now.progress.left.items job.element job.letter }
    {
        let letters = self.generators.letters() as usize;
        let rest = self.rest(targets, job);
        let links = &self.progress.links;
        let first = links.first(job.element) as usize;
        if rest == 0 {
            return self.progress.left[first];
        }
        let product = self.progress.left[links.prefix(rest) as usize * letters + first];
        targets[product as usize * letters + links.last(rest) as usize]
    }

    /// The rows that a batch needs, and the first element whose rows are in a later one: those of the given element
    /// and of the elements that follow it in the current length, whole elements, and at most `MOST_ROWS`.
    pub(crate) fn jobs_from(
        &self,
        alloc: Global,
        targets: &[u32],
        first: u32,
    ) -> Result<(Vec<Job>, u32), Memory>
        requires ready { IsReady self.now.generators.now self.now.rows self.now.progress targets.now }
        requires from { self.now.progress.from ≤ first }
        ensures jobs { IfOk result
            (λ r. All (IsJob self.now.generators.now self.now.rows) r.0.items) }
        ensures few { IfOk result (λ r. length r.0.items ≤ MOST_ROWS) }
    {
        let letters = self.generators.letters() as usize;
        let mut jobs = Vec::new(alloc);
        let mut element = first;
        let to = self.progress.to;
        while element < to && jobs.len() + letters <= MOST_ROWS {
            self.push_jobs(targets, element, &mut jobs)?;
            element += 1;
        }
        Ok((jobs, element))
    }

    /// Puts the jobs of an element behind those that are there: those whose rows have to be made.
    fn push_jobs(&self, targets: &[u32], element: u32, jobs: &mut Vec<Job>) -> Result<(), Memory>
        requires ready { IsReady self.now.generators.now self.now.rows self.now.progress targets.now }
        requires from { self.now.progress.from ≤ element }
        requires to { element < self.now.progress.to }
        requires jobs { All (IsJob self.now.generators.now self.now.rows) jobs.old.items }
        ensures jobs { OnOk result
            (All (IsJob self.now.generators.now self.now.rows) jobs.new.items) }
        ensures few { OnOk result
            (length jobs.new.items ≤ length jobs.old.items + self.now.generators.now.letters) }
    {
        for letter in 0..self.generators.letters() {
            let job = Job {
                element,
                letter: letter as u8,
            };
            if self.needs_row(targets, job) {
                jobs.push(job)?;
            }
        }
        Ok(())
    }

    /// Places for the rows of so many jobs.
    pub(crate) fn bare_rows(&self, alloc: Global, jobs: usize) -> Result<Vec<u32>, Memory>
        requires { jobs ≤ MOST_ROWS }
        ensures { IfOk result (λ v. length v.items ≡ jobs * self.now.generators.now.points) }
    {
        let rows = vec![in alloc; 0; jobs * self.generators.points() as usize]?;
        Ok(rows)
    }

    /// All elements, once the last left rows are filled.
    pub(crate) fn into_enumerated(self, alloc: Global, right: Vec<u32>) -> Enumerated
        requires { IsComplete self.generators.now self.rows self.progress.links
            self.progress.left.items right.items }
        ensures elements { AreGraphsOf self.entry.generators.now.letters
            (SameMap self.entry.generators.now) result.cayley }
        ensures rows { AreRowsOf self.entry.generators.now result.cayley.words result.rows }
        ensures size { result.cayley.right.size ≡ length self.entry.rows }
    {
        let letters = self.generators.letters();
        let progress = self.progress;
        let (prefix, last, suffix, first) = progress.links.into_lists();
        let cayley = Cayley::from_parts(
            alloc,
            letters,
            right,
            progress.left,
            prefix,
            last,
            suffix,
            first,
        );
        Enumerated {
            cayley,
            rows: self.rows,
        }
    }

    /// Sees the row of the job, and answers its number; the element is linked if it is new. After `Memory` there are as
    /// many elements as before.
    pub(crate) fn see(&mut self, targets: &[u32], job: Job, row: &[u32]) -> Result<u32, Memory>
        requires seen { AreSeen self.old.generators.now self.old.rows }
        requires ready { IsReady self.old.generators.now self.old.rows self.old.progress targets.now }
        requires job { IsCurrent self.old.generators.now self.old.progress job }
        requires here { length targets.now
            ≡ job.element * self.old.generators.now.letters + job.letter }
        requires needed { needs_row self.old.generators.now.letters targets.now
            self.old.progress.links job.element job.letter ≡ true }
        requires row { IsNextRow self.old.generators.now self.old.rows job.element job.letter
            row.now }
        requires room { length self.old.rows < 2 ^ 32 - 1 }
        ensures generators { self.new.generators ≡ self.old.generators }
        ensures seen { AreSeen self.new.generators.now self.new.rows }
        ensures more { AreMore self.old.rows self.new.rows }
        ensures kept { AreKept self.old.generators.now.letters
            (number_of self.old.generators.now self.old.rows)
            (number_of self.new.generators.now self.new.rows) }
        ensures next { IfOk result
            (λ n. IsNext self.old.generators.now.letters
            (number_of self.old.generators.now self.old.rows)
            (number_of self.new.generators.now self.new.rows) job.element job.letter n) }
        ensures counted { IfOk result
            (λ n. IsCounted (length self.old.rows) (length self.new.rows) n) }
        ensures ready { IfOk result
            (λ n. IsReady self.new.generators.now self.new.rows self.new.progress
            (targets.now ++ n ∷ [])) }
        ensures err { OnErr result (length self.new.rows ≡ length self.old.rows) }
    {
        let (rest, first) = self.ends_of(targets, job);
        let before = self.rows.len();
        let number = self.rows.see(row)?;
        if number < before {
            return Ok(number);
        }
        self.link(job, rest, first)?;
        Ok(number)
    }

    /// Of the word of the job's element followed by its letter: the element of that word without its first letter, and
    /// that letter.
    fn ends_of(&self, targets: &[u32], job: Job) -> (u32, u8)
        requires ready { IsReady self.now.generators.now self.now.rows self.now.progress targets.now }
        requires job { IsCurrent self.now.generators.now self.now.progress job }
        ensures { with_link self.now.progress.links job.element job.letter result.0 result.1
            ≡ next_links self.now.generators.now.letters targets.now self.now.progress.links
            job.element job.letter }
    {
        if job.element == 0 {
            return (0, job.letter);
        }
        let rest = self.rest(targets, job);
        let first = self.progress.links.first(job.element);
        (rest, first)
    }

    /// Links the last element, which is new: it is the element of the job followed by its letter. After `Memory` it is
    /// not there any more, and nothing is said of the links.
    fn link(&mut self, job: Job, rest: u32, first: u8) -> Result<(), Memory>
        requires some { 0 < length self.old.rows }
        ensures generators { self.new.generators ≡ self.old.generators }
        ensures rows { OnOk result (self.new.rows ≡ self.old.rows) }
        ensures links { OnOk result
            (self.new.progress ≡ record self.old.progress {
              links = with_link self.old.progress.links job.element job.letter rest first;
            }) }
        ensures err { OnErr result
            (self.new.rows ≡ take (length self.old.rows - 1) self.old.rows) }
    {
        if let Err(fault) = self
            .progress
            .links
            .push(job.element, job.letter, rest, first)
        {
            self.rows.take_out_last();
            return Err(fault);
        }
        Ok(())
    }
}

/// The points, each at its own place.
fn points_in_order(alloc: Global, points: u32) -> Result<Vec<u32>, Memory>
    ensures { IfOk result (λ row. row.items ≡ map (λ p. p) (range_with_len 0 points)) }
{
    let mut row = Vec::with_capacity(alloc, points as usize)?;
    for point in 0..points {
        row.push(point)?;
    }
    Ok(row)
}
