//! The syntactic monoid of the language of a minimal automaton, found by enumeration.
#![tactic(auto)]

mod faults;
mod making;
mod steps;

pub use faults::SynFault;
pub use making::syntactic_of;
