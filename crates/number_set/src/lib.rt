//! Sets of numbers below a size.
#![tactic(auto)]

mod members;
mod number_set;

pub use members::Members;
pub use number_set::NumberSet;
