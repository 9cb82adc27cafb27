//! Locally testable languages: whether some level of the keys of prefixes, suffixes and factors suffices for a language,
//! and the words that show that none does.
#![tactic(auto)]

mod answer;
pub mod laws;

pub use answer::local;
pub use answers::{LtAnswer, LtKind, LtWitness, MOST_WORK};
pub use factor_keys::Factors;
