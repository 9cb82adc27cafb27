//! The least level of a family of keys of words that suffices for a language.
#![tactic(auto)]

mod deciding;
mod keys;
pub mod laws;
mod level;
mod pairs;
mod quotient;
mod searching;

pub use level::Level;
pub use quotient::{BeginFault, MOST_LEVEL, MOST_WIDTH, Quotient};
pub use searching::{MOST_PAIRS, search};
