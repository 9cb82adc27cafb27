//! The buffer that a report passes on its way to a sink, and the parts of its lines.
#![tactic(auto)]

mod buffer;
mod rendering;

pub use buffer::{Buffer, ROOM, SayFault, flush, say, say_rendered};
pub use rendering::{
    push_bytes, push_count, push_first_line, push_gap, push_letter, push_membership, push_number,
    push_number_line, push_word, push_word_line,
};
