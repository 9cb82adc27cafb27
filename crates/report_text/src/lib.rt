//! The texts of the sections of a report.
#![tactic(auto)]

mod automaton_section;
mod bound_section;
mod commutative_section;
mod green_section;
mod lines;
mod local_section;
mod monoid_section;
mod piecewise_section;
mod star_free_section;
mod summary_section;
mod table_section;

pub use automaton_section::say_automaton;
pub use bound_section::say_bound;
pub use commutative_section::say_commutative;
pub use green_section::{idempotents_of, say_green};
pub use local_section::say_local;
pub use monoid_section::say_monoid;
pub use piecewise_section::{say_piecewise, say_r_trivial};
pub use report_buffer::{Buffer, SayFault, flush, say};
pub use star_free_section::say_star_free;
pub use summary_section::{Counts, Summary, say_summary};
pub use table_section::say_table;
