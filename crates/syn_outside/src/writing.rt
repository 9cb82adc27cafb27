//! Writing a whole piece.
ghost use Rattle.std.specs.Prelude.{◌≡◌, ◌≤◌, true, false, []};
ghost use Rattle.std.specs.Io.KnownBytes.{Appends};
ghost use Rattle.syn_outside.specs.Counts.{Rose};
ghost use Rattle.syn_outside.specs.Sinks.{IsCutOff};

use crate::sink::{Put, Sink};

/// Writes the whole piece, in as many writes as the sink takes.
///
/// True: the sink took exactly the piece. False: its count of faults rose in this call, and it took
/// a prefix of the piece that is not the whole. An empty piece gives true. It takes no memory.
pub fn put_all<S: Sink>(sink: &mut S, piece: &[u8]) -> bool
    ensures whole { result ≡ true → Appends (S.written sink.old) (S.written sink.new) piece.now }
    ensures cut { result ≡ false → IsCutOff (S.written sink.old) (S.written sink.new) piece.now }
    ensures failed { result ≡ false → Rose (S.faults sink.old) (S.faults sink.new) }
    ensures empty { piece.now ≡ [] → result ≡ true }
    ensures count { S.faults sink.old ≤ S.faults sink.new }
{
    let mut rest = piece;
    while !rest.is_empty() {
        match sink.write(rest) {
            Put::Wrote(n) => (_, rest) = rest.split_at(n),
            Put::Failed => return false,
        }
    }
    true
}
