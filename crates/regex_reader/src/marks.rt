//! A relation of numbers below a width.
ghost use Rattle.std.specs.Prelude.{◌≡◌, ◌≢◌, ℕ, ◌+◌, ◌<◌, ◌≤◌, Bool, false, ◌&&◌, ◌==◌, List, length, replicate, IfOk, OnOk, OnErr};
ghost use Rattle.std.specs.List.{All};
ghost use Rattle.expression_theory.specs.FirstLast.{has};
ghost use Rattle.language_theory.specs.Automaton as automaton;
ghost use Rattle.number_set.specs.Marks.{HasGained};
ghost use Rattle.regex_reader.specs.Marks.{widest, Table, row_of, is_marked, IsAdded, IsCleared};

use number_set::NumberSet;
use std::alloc::Global;
use std::marker::Model;
use syn_words::Memory;

/// Puts each number of a list into a set.
fn insert_all(set: &mut NumberSet, numbers: &[u32])
    requires { All (λ q. q < length set.old) numbers.now }
    ensures { HasGained set.old set.new (length set.old) (has numbers.now) }
{
    for number in numbers {
        set.insert(*number);
    }
}

/// A set with no member for each number below a width.
fn bare_rows(alloc: Global, width: usize) -> Result<Vec<NumberSet>, Memory>
    requires { width ≤ widest }
    ensures { IfOk result (λ rows. rows.items ≡ replicate width (replicate width false)) }
{
    let mut rows = Vec::with_capacity(alloc, width)?;
    for _ in 0..width {
        rows.push(NumberSet::empty(alloc, width as u32)?)?;
    }
    Ok(rows)
}

/// A relation of numbers below a width: for each of them the set of those to which it is related, 64 marks to a word.
#[derive(Drop)]
pub struct Marks {
    width: usize,
    rows: Vec<NumberSet>,
}

impl Model for Marks {
    ghost use Rattle.std.specs.Prelude.{◌≤◌};
    ghost use Rattle.regex_reader.specs.Marks.{widest, Table, IsSquare};

    ghost Value = { Table };

    ghost view = { λ m. record { width = m.width; rows = m.rows.items } };

    ghost invariant = { λ m. IsSquare (record { width = m.width; rows = m.rows.items })
        × (m.width ≤ widest) };
}

impl Marks {
    /// No pair.
    pub fn new(alloc: Global, width: usize) -> Result<Marks, Memory>
        requires { width ≤ widest }
        ensures { IfOk result (λ m. (m.width ≡ width) × ((p q : ℕ) → is_marked m p q ≡ false)) }
    {
        let rows = bare_rows(alloc, width)?;
        Ok(Marks { width, rows })
    }

    /// The width.
    pub fn width(&self) -> usize
        ensures width { result ≡ self.now.width }
        ensures narrow { result ≤ widest }
    {
        self.width
    }

    /// The set of the numbers to which a number is related.
    pub fn row(&self, p: u32) -> &NumberSet
        requires p { p < self.now.width }
        ensures row { result.now ≡ row_of self.now p }
        ensures long { length result.now ≡ self.now.width }
    {
        &self.rows[p as usize]
    }

    /// A set with no member that has a place for each number below the width.
    fn no_numbers(&self) -> Result<NumberSet, Memory>
        ensures { IfOk result (λ s. s ≡ replicate self.now.width false) }
    {
        let set = NumberSet::empty(*self.rows.allocator(), self.width as u32)?;
        Ok(set)
    }

    /// Takes out each pair of a number.
    fn clear_row(&mut self, p: u32)
        requires { p < self.old.width }
        ensures width { self.new.width ≡ self.old.width }
        ensures here { (q : ℕ) → is_marked self.new p q ≡ false }
        ensures rest { (i q : ℕ) → i ≢ p → is_marked self.new i q ≡ is_marked self.old i q }
    {
        self.rows[p as usize].clear();
    }

    /// Takes out each pair whose first number is from `from` on and below `to`.
    pub fn clear_rows(&mut self, from: u32, to: u32)
        requires from { from ≤ to }
        requires to { to ≤ self.old.width }
        ensures { IsCleared self.old self.new from to }
    {
        for p in from..to {
            self.clear_row(p);
        }
    }

    /// Adds the pairs of p with each of the list.
    pub fn add_row(&mut self, p: u32, to: &[u32])
        requires p { p < self.old.width }
        requires to { All (λ q. q < self.old.width) to.now }
        ensures { IsAdded self.old self.new (λ i j. (p == i) && has to.now j) }
    {
        insert_all(&mut self.rows[p as usize], to);
    }

    /// Adds the pairs of p with each of the set.
    fn add_set(&mut self, p: u32, set: &NumberSet)
        requires p { p < self.old.width }
        requires long { length set.now ≡ self.old.width }
        ensures { IsAdded self.old self.new (λ i j. (p == i) && automaton.is_marked set.now j) }
    {
        self.rows[p as usize].union_with(set);
    }

    /// Adds the pairs of each of the first list with each of the second. After `Memory` nothing has changed.
    pub fn add_pairs(&mut self, from: &[u32], to: &[u32]) -> Result<(), Memory>
        requires from { All (λ q. q < self.old.width) from.now }
        requires to { All (λ q. q < self.old.width) to.now }
        ensures added { OnOk result
            (IsAdded self.old self.new (λ i j. has from.now i && has to.now j)) }
        ensures err { OnErr result (self.new ≡ self.old) }
        ensures width { self.new.width ≡ self.old.width }
    {
        let mut set = self.no_numbers()?;
        insert_all(&mut set, to);
        for p in from {
            self.add_set(*p, &set);
        }
        Ok(())
    }
}
