//! The command line: which words are one, and what they ask for.
#![tactic(auto)]

mod commands;
mod fault;
mod laws;
mod options;
mod parsing;
mod reading;
mod request;

pub use commands::Command;
pub use fault::LineFault;
pub use laws::{
    a_line_asks_for_one_request, a_line_has_no_fault, words_have_one_fault,
    words_that_are_taken_give_both_words,
};
pub use reading::read_line;
pub use request::{Name, Request};
