//! The longest chain of two-sided ideals of a finite monoid, and the level of Simon's theorem.
#![tactic(auto)]

mod bound;
mod descent;
mod heights;
mod members;
mod steps;

pub use bound::{JChain, j_trivial, longest_chain, simon_level};
