//! A writer of the system as a sink.
ghost use Rattle.std.specs.Prelude.{◌≡◌, ◌≢◌, ◌<◌, ◌≤◌, length, None};
ghost use Rattle.syn_outside.specs.Counts.{Rose, one_more};
ghost use Rattle.syn_outside.specs.Sinks.{Takes};

use crate::sink::{Put, Sink};
use std::io::Write;

/// A sink over a writer. It tells nothing of what was written.
///
/// Each write is one write and one flush. The count rises where either is refused, memory that the
/// system does not find among the causes, and where the writer takes no byte.
#[derive(Drop)]
pub struct RealSink<W> {
    writer: W,
    faults: u64,
}

impl<W: Write + Drop> RealSink<W> {
    /// A sink over this writer, with the count 0.
    pub fn new(writer: W) -> RealSink<W>
        ensures { ⟦<RealSink<W> as Sink>⟧.faults result ≡ 0 }
    {
        RealSink { writer, faults: 0 }
    }
}

impl<W: Write + Drop> Sink for RealSink<W> {
    ghost written = { λ _. None };

    ghost faults = { λ s. s.faults };

    fn write(&mut self, piece: &[u8]) -> Put
        requires { 0 < length piece.now }
        ensures bytes { Takes None None piece.now result }
        ensures count { self.old.faults ≤ self.new.faults }
        ensures failed { result ≡ Put.Failed → Rose self.old.faults self.new.faults }
        ensures fault { result ≡ Put.Failed → self.new.faults ≡ one_more self.old.faults }
        ensures kept { result ≢ Put.Failed → self.new.faults ≡ self.old.faults }
    {
        if let Ok(n) = self.writer.write(piece) {
            if n > 0 && self.writer.flush().is_ok() {
                return Put::Wrote(n);
            }
        }
        self.faults = self.faults.saturating_add(1);
        Put::Failed
    }
}
