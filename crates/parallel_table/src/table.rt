//! The table of all products as a value of the program.
ghost use Rattle.std.specs.Prelude.{◌≡◌, ◌<◌, ◌≤◌, length, All, IfOk, OnOk};
ghost use Rattle.std.specs.Result.{IsErrOf};
ghost use Rattle.parallel_table.specs.ProductTables.{IsSquare, cell};

use cayley_tables::Cayley;
use std::alloc::{AllocError, Global};
use std::marker::Model;
use thiserror::Error;

/// The most rows of a table.
pub const MOST_SIDE: u32 = 8_000;

/// The limit as a number.
pub fn the_limits()
    ensures side { MOST_SIDE ≡ 8000 }
{}

/// Why there is no table.
#[derive(Clone, Copy, Debug, PartialEq, Eq, Error)]
pub enum TableFault {
    /// The table would have more rows than the limit.
    #[error("too many elements for a table")]
    TableLimit,
    /// The system gave no memory.
    #[error("out of memory")]
    Memory,
}

impl From<AllocError> for TableFault {
    ghost use Rattle.std.specs.Prelude.{◌≡◌};
    ghost use Rattle.parallel_table.specs.declared.table.TableFault.TheVariants as fault;

    ghost from_gives = { λ _ e. e ≡ fault.Memory };

    fn from(_fault: AllocError) -> TableFault {
        TableFault::Memory
    }
}

/// A square of at most `MOST_SIDE` rows, with a cell for each two elements. Its value is the record
/// `ProductTable`: the number of rows, and the cells row by row.
#[derive(Debug, Drop)]
pub struct Table {
    side: u32,
    pub(crate) cells: Vec<u32>,
}

impl Model for Table {
    ghost use Rattle.parallel_table.specs.ProductTables.{ProductTable, IsSquare};

    ghost Value = { ProductTable };

    ghost view = { λ t. record { side = t.side; cells = t.cells.items } };

    ghost invariant = { λ t. IsSquare (record { side = t.side; cells = t.cells.items }) };
}

/// A table for the products of these elements, which is not filled yet. `TableLimit` comes exactly
/// where there are more than `max_side` elements. Condition: `max_side <= MOST_SIDE`.
pub fn new_table(alloc: Global, cayley: &Cayley, max_side: u32) -> Result<Table, TableFault>
    requires { max_side ≤ MOST_SIDE }
    ensures side { IfOk result (λ t. t.side ≡ length cayley.now.words) }
    ensures zeros { IfOk result (λ t. All (λ c. c ≡ 0) t.cells) }
    ensures few { OnOk result (length cayley.now.words ≤ max_side) }
    ensures many { IsErrOf result TableFault.TableLimit → max_side < length cayley.now.words }
{
    let side = cayley.len();
    if side > max_side {
        return Err(TableFault::TableLimit);
    }
    let cells = vec![in alloc; 0; side as usize * side as usize]?;
    Ok(Table { side, cells })
}

impl Table {
    /// The number of rows, which is that of the columns: at most `MOST_SIDE`.
    pub fn side(&self) -> u32
        ensures side { result ≡ self.now.side }
        ensures few { result ≤ MOST_SIDE }
        ensures square { IsSquare self.now }
    {
        self.side
    }

    /// The cell in row i and column j: once the table is filled, the product of i and j. Condition:
    /// both are in range.
    pub fn at(&self, i: u32, j: u32) -> u32
        requires row { i < self.now.side }
        requires column { j < self.now.side }
        ensures { result ≡ cell self.now i j }
    {
        self.cells[i as usize * self.side as usize + j as usize]
    }
}

/// A table is read by several workers: this call is proved only where that is allowed.
fn is_shared<T: Send + Sync>(_value: &T) {}

fn tables_are_shared(table: &Table) {
    is_shared(table)
}
