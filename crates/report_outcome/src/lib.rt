//! How a run ends: the endings, their statuses and lines, and the report on a file's bytes.
#![tactic(auto)]

mod ending;
mod reporting;

pub use ending::{Ending, Stop, Verdict, tell};
pub use reporting::report;
