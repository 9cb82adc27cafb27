//! Rows of images, made by workers that each own a run of whole rows.

ghost use Rattle.std.specs.Prelude.{◌≡◌, ◌<◌, ◌≤◌, ◌+◌, ◌*◌, ◌-◌, ◌^◌, ℕ, length, slice_index, All};
ghost use Rattle.std.specs.Thread.{IsSync};
ghost use Rattle.froidure_pin.specs.Maps.{AreMaps, image};
ghost use Rattle.froidure_pin.specs.Batches.{CanMake, CanFill, AreMade, AreHalves, IsLetterRow};

use crate::batch::Job;
use crate::generators::Generators;
use image_rows::Rows;
use std::thread::{Threads, join_mut};
use syn_outside::Gate;

/// The parts that have a run of rows: their number, and the first of them.
#[derive(Clone, Copy, Debug, PartialEq, Eq)]
pub(crate) struct Parts {
    pub(crate) first: u32,
    pub(crate) count: u32,
}

/// Fills the rows of the jobs, in order, by as many parts as are given, each with its own run of whole rows. Part p
/// passes the gate with its number once, before its first row. Condition: at least one part, at least one job for each
/// part, and as many rows as jobs.
#[cycle(fill)]
pub(crate) fn fill<R: Threads + Sync, G: Gate + Sync>(
    rt: &R,
    gate: &G,
    generators: &Generators,
    sources: &Rows,
    jobs: &[Job],
    rows: &mut [u32],
    parts: Parts,
)
    requires { CanFill generators.now sources.now jobs.now parts (length rows.old) }
    ensures { AreMade generators.now sources.now jobs.now rows.new }
{
    if parts.count <= 1 {
        gate.enter(u64::from(parts.first));
        fill_rows(generators, sources, jobs, rows);
        return;
    }
    let (left, right) = halves(parts);
    let count = jobs_of(jobs.len(), left, right);
    let (front_jobs, back_jobs) = jobs.split_at(count);
    let (front, back) = rows.split_at_mut(count * generators.points() as usize);
    join_mut(
        rt,
        &mut ||
            requires { IsSync R.row × IsSync G.row
                × CanFill generators.now sources.now front_jobs.now left (length front.now) }
            ensures { AreMade generators.entry.now sources.entry.now front_jobs.entry.now
                front.exit.now }
        { fill(rt, gate, generators, sources, front_jobs, front, left) },
        &mut ||
            requires { IsSync R.row × IsSync G.row
                × CanFill generators.now sources.now back_jobs.now right (length back.now) }
            ensures { AreMade generators.entry.now sources.entry.now back_jobs.entry.now
                back.exit.now }
        { fill(rt, gate, generators, sources, back_jobs, back, right) },
    );
}

/// The parts in two halves.
fn halves(parts: Parts) -> (Parts, Parts)
    requires two { 2 ≤ parts.count }
    requires numbers { parts.first + parts.count < 2 ^ 32 }
    ensures { AreHalves parts result.0 result.1 }
{
    let half = parts.count / 2;
    let left = Parts {
        first: parts.first,
        count: half,
    };
    let right = Parts {
        first: parts.first + half,
        count: parts.count - half,
    };
    (left, right)
}

/// How many of the jobs go to the left half of the parts: one for each part of it, and half of what is left over.
fn jobs_of(jobs: usize, left: Parts, right: Parts) -> usize
    requires { left.count + right.count ≤ jobs }
    ensures left { left.count ≤ result }
    ensures right { result + right.count ≤ jobs }
{
    left.count as usize + (jobs - left.count as usize - right.count as usize) / 2
}

/// Fills the rows of the jobs, in order.
pub(crate) fn fill_rows(generators: &Generators, sources: &Rows, jobs: &[Job], rows: &mut [u32])
    requires { CanMake generators.now sources.now jobs.now (length rows.old) }
    ensures { AreMade generators.now sources.now jobs.now rows.new }
{
    let points = generators.points() as usize;
    let mut start = 0;
    for job in jobs {
        fill_row(
            generators,
            sources.row(job.element),
            job.letter,
            &mut rows[start..start + points],
        );
        start += points;
    }
}

/// Fills a row with where the letter takes each point of the source.
fn fill_row(generators: &Generators, source: &[u32], letter: u8, row: &mut [u32])
    requires letter { letter < generators.now.letters }
    requires long { length source.now ≡ length row.old }
    requires points { length row.old ≡ generators.now.points }
    requires within { All (λ p. p < generators.now.points) source.now }
    ensures { IsLetterRow generators.now source.now letter row.new }
{
    for point in 0..row.len() {
        row[point] = generators.image(letter, source[point]);
    }
}
