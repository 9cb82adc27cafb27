//! The elements of a finite monoid that letters generate, with both Cayley graphs, in flat tables.
#![tactic(auto)]

mod cayley;
pub mod laws;
mod left_rows;
mod limits;
mod links;
mod making;

pub use cayley::Cayley;
pub use left_rows::push_left_rows;
pub use limits::{MOST_ELEMENTS, MOST_WORKERS, the_limits};
pub use links::Links;
