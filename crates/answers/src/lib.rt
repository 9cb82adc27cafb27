//! What is answered of a language, with the words that show it: star-free, piecewise testable, commutative and locally
//! testable. The texts of a report need no more than these types, and so do not wait for the crates that decide.
#![tactic(auto)]

mod commuting;
mod factors;
pub mod laws;
mod powers;
mod subwords;

pub use commuting::CWitness;
pub use factors::{LtAnswer, LtKind, LtWitness, MOST_WORK};
pub use powers::{Loop, SfAnswer};
pub use subwords::{PtAnswer, PtWitness, Side};
