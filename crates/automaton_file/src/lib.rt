//! Files that hold a source: an alphabet, and an automaton or an expression over it.
#![tactic(auto)]

mod cursor;
mod faults;
mod fields;
mod laws;
mod lines;
mod parts;
mod reading;
mod source_automata;
mod sources;

pub use laws::{
    a_worked_file, each_line_is_its_part, each_test_says_what_must_stand, one_automaton,
    one_byte_too_many_is_enough, one_refusal, source_is_determined, spelled_or_refused, the_limits,
};
pub use lines::{LineGot, next_line};
pub use reading::read_file;
pub use source_automata::body_nfa;
pub use sources::{Body, FileFault, Refusal, Source, Wrong};
