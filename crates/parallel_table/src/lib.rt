//! The table of all products of a finite monoid, filled by workers that each own a run of whole
//! rows.
#![tactic(auto)]

mod filling;
mod table;

pub use filling::fill;
pub use table::{MOST_SIDE, Table, TableFault, new_table, the_limits};
