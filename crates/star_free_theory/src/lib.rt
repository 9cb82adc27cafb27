//! The theory of star-free lists: what they denote, the local-divisor construction, and pruning. The definitions stand
//! in `specs/`, the laws are the contracts of this crate's functions.
#![tactic(auto)]

pub mod construction;
pub mod lists;
mod nodes;

pub use nodes::SfNode;
