//! The syntactic monoid of a regular language: its elements, membership, and least separating contexts.
#![tactic(auto)]

mod action;
mod edges;
pub mod laws;
mod monoid;

pub use monoid::{Pair, Syntactic};
