//! The generated file of a size: an automaton with as many states over two letters.
#![tactic(auto)]

mod laws;
mod text;

pub use laws::{generated_files_are_accepted, the_limits};
pub use text::generate_text;
