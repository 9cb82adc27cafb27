//! The one search of the workbench: states that are numbered as they are first seen are explored breadth first,
//! letters in order, and give a shortlex graph.
#![tactic(auto)]

mod exploring;
mod graph;
mod states;

pub use exploring::{ExploreFault, expand, explore};
pub use graph::ShortlexGraph;
pub use states::States;
