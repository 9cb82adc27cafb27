//! A sink for bytes.
ghost use Rattle.std.specs.Prelude.{◌≡◌, ℕ, ◌<◌, ◌≤◌, List, length, Option};
ghost use Rattle.syn_outside.specs.Counts.{Rose};
ghost use Rattle.syn_outside.specs.Sinks.{Takes};

/// What one write came to.
#[derive(Clone, Copy, Debug, PartialEq, Eq)]
pub enum Put {
    /// So many bytes, at least one, were taken from the front of the piece.
    Wrote(usize),
    /// The device failed and took nothing. A device that takes nothing of a piece has failed.
    Failed,
}

/// A device that takes bytes and keeps their order.
///
/// Its meanings are `written`, the bytes that it took so far where the device tells them, and
/// `faults`, the count of its faults, which never falls.
pub trait Sink {
    ghost written: { Self → Option (List ℕ) };

    ghost faults: { Self → ℕ };

    /// Writes a prefix of the piece.
    fn write(&mut self, piece: &[u8]) -> Put
        requires { 0 < length piece.now }
        ensures bytes { Takes (written self.old) (written self.new) piece.now result }
        ensures count { faults self.old ≤ faults self.new }
        ensures failed { result ≡ Put.Failed → Rose (faults self.old) (faults self.new) };
}
