//! Whether a regular language is star-free (Schützenberger 1965: exactly where its syntactic monoid is aperiodic).
#![tactic(auto)]

mod answer;
mod cycles;
mod deciding;
pub mod laws;

pub use answer::star_free;
pub use answers::{Loop, SfAnswer};
pub use deciding::{Powers, decide};
pub use local_divisors::{SfFault, construct};
pub use star_free_lists::{SfList, SfNode, prune};
