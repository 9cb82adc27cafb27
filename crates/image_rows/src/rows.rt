//! The rows of images of the elements that were found, each once.
ghost use Rattle.std.specs.Prelude.{◌≡◌, ◌<◌, ◌-◌, ◌^◌, [], length, take, slice_index, nat_eq, IfOk, OnOk, OnErr};
ghost use Rattle.std.specs.List.{position_or_len};
ghost use Rattle.std.specs.Cmp.Lexicographic.{pointwise};
ghost use Rattle.indexmap.specs.IndexSet.{insert_key};
ghost use Rattle.image_rows.specs.Rows.{row_at};

use indexmap::IndexSet;
use std::alloc::Global;
use std::marker::Model;
use syn_words::Memory;

/// The row of each element: where its words take each point. Its value is the list of the rows.
#[derive(Drop)]
pub struct Rows {
    alloc: Global,
    rows: IndexSet<Vec<u32>>,
}

impl Model for Rows {
    ghost use Rattle.std.specs.Prelude.{◌<◌, ◌^◌, ℕ, List, length, map, vec_items};

    ghost Value = { List (List ℕ) };

    ghost view = { λ r. map vec_items r.rows.keys };

    ghost invariant = { λ r. length r.rows.keys < 2 ^ 32 };
}

impl Rows {
    /// No rows. They take no memory.
    pub fn new(alloc: Global) -> Rows
        ensures { result ≡ [] }
    {
        Rows {
            alloc,
            rows: IndexSet::new(alloc),
        }
    }

    /// The number of rows.
    pub fn len(&self) -> u32
        ensures { result ≡ length self.now }
    {
        self.rows.len() as u32
    }

    /// The row of an element. Condition: it is in range.
    pub fn row(&self, place: u32) -> &[u32]
        requires { place < length self.now }
        ensures { result.now ≡ row_at self.now place }
    {
        self.rows[place as usize].as_slice()
    }

    /// Where the word of an element takes a point. Condition: both are in range.
    pub fn image(&self, i: u32, point: u32) -> u32
        requires element { i < length self.now }
        requires point { point < length (row_at self.now i) }
        ensures { result ≡ slice_index (row_at self.now i) point }
    {
        self.row(i)[point as usize]
    }

    /// The place of a row, which is put last if it was not there. After `Memory` the rows are as they were.
    pub fn see(&mut self, row: &[u32]) -> Result<u32, Memory>
        requires room { length self.old < 2 ^ 32 - 1 }
        ensures rows { OnOk result (self.new ≡ insert_key (pointwise nat_eq) self.old row.now) }
        ensures place { IfOk result (λ n. n ≡ position_or_len (pointwise nat_eq row.now) self.old) }
        ensures err { OnErr result (self.new ≡ self.old) }
    {
        let own = Vec::from_slice(self.alloc, row)?;
        let (place, _) = self.rows.insert_full(own)?;
        Ok(place as u32)
    }

    /// Takes the last row out. Condition: there is one.
    pub fn take_out_last(&mut self)
        requires { 0 < length self.old }
        ensures { self.new ≡ take (length self.old - 1) self.old }
    {
        let _ = self.rows.pop();
    }
}

fn is_shared<T: Send + Sync>(_value: &T) {}

fn rows_are_shared(rows: &Rows) {
    is_shared(rows)
}
