//! The whole of the program but its devices: from the words of a command line to the bytes that are written.
#![tactic(auto)]

mod laws;
mod running;

pub use command_line::{Command, LineFault, Name, Request, read_line};
pub use generated_file::generate_text;
pub use laws::{the_outcome_is_unique, workers_change_no_outcome};
pub use running::run;
