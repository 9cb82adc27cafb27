//! Words and alphabets.
#![tactic(auto)]

mod alphabet;
mod laws;
mod memory;
mod word;

pub use alphabet::{Alphabet, AlphabetFault};
pub use laws::the_limits;
pub use memory::Memory;
pub use word::{Word, shortlex};
