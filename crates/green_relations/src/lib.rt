//! Green's relations of a finite monoid, and its egg-box diagram.
#![tactic(auto)]

mod boxes;
mod classes;
pub mod laws;
mod listing;
mod numbering;
mod pairs;

pub use boxes::{Boxes, boxes_of};
pub use classes::{Green, green_of};
