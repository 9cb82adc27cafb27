//! The mathematics of the syntactic monoid: products, presentations, Green's relations, powers and separation. The
//! definitions stand in `specs/`, the laws are the contracts of this crate's functions.
#![tactic(auto)]

pub mod examples;
pub mod green;
pub mod powers;
pub mod presentation;
pub mod products;
pub mod separation;
