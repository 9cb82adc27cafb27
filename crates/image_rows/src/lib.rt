//! The rows of images of the elements of a monoid of maps: where the words of each element take each point.
#![tactic(auto)]

mod rows;

pub use rows::Rows;
