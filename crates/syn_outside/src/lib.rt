//! The world outside: files that are read, sinks that are written, and the gate that workers pass.
//!
//! A file or a sink counts its faults. Each answer that tells of a fault comes only where that
//! count rose, so a caller can trace it to the device that it handed in.
#![tactic(auto)]

mod failing_calls;
mod files;
mod gate;
mod memory_files;
mod memory_sink;
mod reading;
mod real_files;
mod real_sink;
mod sink;
mod writing;

pub use files::{Files, Got, Opened};
pub use gate::{Gate, OpenGate};
pub use memory_files::MemFiles;
pub use memory_sink::MemSink;
pub use reading::{ReadFault, read_all};
pub use real_files::RealFiles;
pub use real_sink::RealSink;
pub use sink::{Put, Sink};
pub use writing::put_all;
