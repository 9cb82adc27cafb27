//! The local submonoids of a finite monoid: their sizes, what fails first in them, and the least words that show it.
#![tactic(auto)]

mod submonoids;
mod witnessing;
mod work;

pub use submonoids::{Flaw, first_flaw};
pub use witnessing::witness_of;
pub use work::local_work;
