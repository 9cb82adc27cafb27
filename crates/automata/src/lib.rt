//! Automata with any number of initial states, of steps from one state by one letter, and of empty moves, as values of
//! the program.
#![tactic(auto)]

mod accepting;
mod closures;
mod laws;
mod nfa;

pub use laws::the_limits;
pub use nfa::Nfa;
