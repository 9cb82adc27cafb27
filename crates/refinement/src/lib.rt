//! The coarsest partition of a shortlex graph that keeps its marks and its steps, and the graph of its classes.
#![tactic(auto)]

mod coarsest;
mod inverse;
mod nodes;
mod quotients;
mod splitting;

pub use coarsest::{Partition, refine};
pub use quotients::{first_nodes, quotient};
