//! The sections of a report: what each says of a language, and their answers.
#![tactic(auto)]

mod answering;
mod questions;
mod saying;
mod sections;
mod summary;

pub use answering::{Answer, Values, answer_sections, have_limit};
pub use saying::say_answers;
pub use sections::{Needs, needs_elements, needs_green, needs_of, needs_table, sections_of};
