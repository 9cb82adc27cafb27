//! The star-free list of a finite aperiodic monoid with accepted elements, constructed from the table of its products
//! by local divisors.
#![tactic(auto)]

mod building;
mod choice;
mod constructing;
mod faults;
mod grouping;
mod instances;
mod recursion;
mod treating;

pub use constructing::{MOST_DEPTH, construct, the_limits};
pub use faults::SfFault;
