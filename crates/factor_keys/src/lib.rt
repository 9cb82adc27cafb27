//! Keys of prefixes, suffixes and factors: what windows of some letters see of a word.
#![tactic(auto)]

mod factor_set;
mod factors;
mod key;
pub mod laws;

pub use factors::Factors;
