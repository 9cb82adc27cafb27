//! A sink in memory.
ghost use Rattle.std.specs.Prelude.{◌≡◌, ◌-◌, ◌^◌, ◌<◌, ◌≤◌, [], length, IfOk};
ghost use Rattle.std.specs.List.{All};
ghost use Rattle.syn_outside.specs.Counts.{Rose};
ghost use Rattle.syn_outside.specs.Sinks.{Takes};
ghost use Rattle.syn_outside.specs.SinkInMemory.{SinkInMemory, faults_of, write_answer, after_write};

use crate::failing_calls::FailingCalls;
use crate::sink::{Put, Sink};
use std::alloc::Global;
use std::marker::Model;
use syn_words::Memory;

/// A sink with room for so many bytes, which it takes in short pieces, and whose writes can be made
/// to fail.
///
/// Writes are numbered from 0. They take no memory. The count of faults is how many of the failing
/// numbers are below the number of writes made, and how many further writes came when the room was
/// full, so while there is room the second is 0.
#[derive(Drop)]
pub struct MemSink {
    bytes: Vec<u8>,
    room: u32,
    step: u64,
    calls: FailingCalls,
    /// How many writes were refused because the room was full.
    refused: u64,
}

impl Model for MemSink {
    ghost use Rattle.std.specs.Prelude.{◌≡◌, ◌≤◌, ◌<◌};
    ghost use Rattle.std.specs.Vec.{vec_len, vec_capacity};
    ghost use Rattle.syn_outside.specs.SinkInMemory.{SinkInMemory};

    ghost Value = { SinkInMemory };

    ghost view = { λ s. record {
      written = s.bytes.items;
      room = s.room;
      step = s.step;
      calls = s.calls;
      refused = s.refused;
    } };

    ghost invariant = { λ s. (1 ≤ s.step) × (vec_len s.bytes ≤ s.room)
        × (s.room ≤ vec_capacity s.bytes) × (vec_len s.bytes < s.room → s.refused ≡ 0) };
}

impl MemSink {
    /// An empty sink, of which no write was made yet, with the memory for `room` bytes.
    ///
    /// A write takes at most `step` bytes, which is at least 1. The writes whose numbers are in
    /// `failing` fail; each number is below 2^64 - 1.
    pub fn new(alloc: Global, room: u32, step: u64, failing: &[u64]) -> Result<MemSink, Memory>
        requires step { 1 ≤ step }
        requires failing { All (λ n. n < 2 ^ 64 - 1) failing.now }
        ensures made { IfOk result (λ sink. sink ≡ record {
          written = [];
          room = room;
          step = step;
          calls = record { failing = failing.now; made = 0 };
          refused = 0;
        }) }
        ensures count { IfOk result (λ sink. ⟦<MemSink as Sink>⟧.faults sink ≡ 0) }
    {
        Ok(MemSink {
            bytes: Vec::with_capacity(alloc, room as usize)?,
            room,
            step,
            calls: FailingCalls::new(alloc, failing)?,
            refused: 0,
        })
    }

    /// What was written so far.
    pub fn bytes(&self) -> &[u8]
        ensures { result.now ≡ self.now.written }
    {
        self.bytes.as_slice()
    }
}

impl Sink for MemSink {
    ghost use Rattle.std.specs.Prelude.{Some};

    ghost written = { λ s. Some s.written };

    ghost faults = { λ s. faults_of s };

    fn write(&mut self, piece: &[u8]) -> Put
        requires { 0 < length piece.now }
        ensures bytes { Takes (Some self.old.written) (Some self.new.written) piece.now result }
        ensures count { faults_of self.old ≤ faults_of self.new }
        ensures failed { result ≡ Put.Failed → Rose (faults_of self.old) (faults_of self.new) }
        ensures answer { result ≡ write_answer self.old (length piece.now) }
        ensures after { self.new ≡ after_write self.old piece.now }
        ensures room { length self.new.written < self.new.room → self.new.refused ≡ 0 }
    {
        if self.calls.call_fails() {
            return Put::Failed;
        }
        let left = self.room as usize - self.bytes.len();
        if left == 0 {
            self.refused = self.refused.saturating_add(1);
            return Put::Failed;
        }
        let n = (self.step as usize).min(piece.len().min(left));
        self.bytes.extend_from_slice(&piece[..n]).unwrap();
        Put::Wrote(n)
    }
}
