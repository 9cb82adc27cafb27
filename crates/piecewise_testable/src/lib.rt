//! Piecewise testable languages, and languages whose monoids are R-trivial or commutative.
#![tactic(auto)]

mod answer;
mod commuting;
mod deciding;
pub mod laws;
mod parting;
mod rounds;
mod rows;
mod sides;
mod subwords;
mod trivial;

pub use answers::{CWitness, PtAnswer, PtWitness, Side};
pub use commuting::commutative;
pub use deciding::piecewise;
pub use subwords::Subwords;
pub use trivial::r_trivial;
