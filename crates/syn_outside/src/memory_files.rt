//! Files in memory.
ghost use Rattle.std.specs.Prelude.{◌≡◌, ◌-◌, ◌^◌, ◌<◌, ◌≤◌, [], ◌∷◌, None, true, length, is_some, IfOk};
ghost use Rattle.std.specs.List.{All};
ghost use Rattle.syn_outside.specs.Counts.{Rose};
ghost use Rattle.syn_outside.specs.Files.{Opens, Gives};
ghost use Rattle.syn_outside.specs.FilesInMemory.{
  FilesInMemory,
  start_answer,
  after_start,
  read_answer,
  after_read,
  bytes_left,
};
ghost use Rattle.syn_outside.specs.Calls.{failed};

use crate::failing_calls::FailingCalls;
use crate::files::{Files, Got, Opened};
use std::alloc::Global;
use std::marker::Model;
use syn_words::Memory;

/// One file in memory, which is read in short pieces, and whose calls can be made to fail.
///
/// Calls of `start` and `read` are numbered together from 0. They take no memory. The count of
/// faults is how many of the failing numbers are below the number of calls made, so it stays 0
/// where no call is made to fail.
#[derive(Drop)]
pub struct MemFiles {
    name: String,
    bytes: Vec<u8>,
    step: u64,
    calls: FailingCalls,
    /// How many bytes of the started file were read.
    started: Option<usize>,
}

impl Model for MemFiles {
    ghost use Rattle.std.specs.Prelude.{◌∷◌, [], ◌≤◌, drop};
    ghost use Rattle.std.specs.Option.{option_map, IfSome};
    ghost use Rattle.std.specs.String.{string_bytes};
    ghost use Rattle.std.specs.Vec.{vec_len};
    ghost use Rattle.syn_outside.specs.FilesInMemory.{FilesInMemory};

    ghost Value = { FilesInMemory };

    ghost view = { λ d. record {
      files = (string_bytes d.name, d.bytes.items) ∷ [];
      step = d.step;
      calls = d.calls;
      started = option_map (λ read. drop read d.bytes.items) d.started;
    } };

    ghost invariant = { λ d. (1 ≤ d.step) × IfSome d.started (λ read. read ≤ vec_len d.bytes) };
}

impl MemFiles {
    /// Files that have one name with these bytes, and of which no call was made yet.
    ///
    /// A read gives at most `step` bytes, which is at least 1. The calls whose numbers are in
    /// `failing` fail; each number is below 2^64 - 1.
    pub fn new(
        alloc: Global,
        name: &str,
        bytes: &[u8],
        step: u64,
        failing: &[u64],
    ) -> Result<MemFiles, Memory>
        requires step { 1 ≤ step }
        requires failing { All (λ n. n < 2 ^ 64 - 1) failing.now }
        ensures made { IfOk result (λ files. files ≡ record {
          files = (name.now, bytes.now) ∷ [];
          step = step;
          calls = record { failing = failing.now; made = 0 };
          started = None;
        }) }
        ensures count { IfOk result (λ files. ⟦<MemFiles as Files>⟧.faults files ≡ 0) }
    {
        Ok(MemFiles {
            name: String::from_str(alloc, name)?,
            bytes: Vec::from_slice(alloc, bytes)?,
            step,
            calls: FailingCalls::new(alloc, failing)?,
            started: None,
        })
    }
}

impl Files for MemFiles {
    ghost use Rattle.std.specs.Prelude.{Some};

    ghost held = { λ d. Some d.files };

    ghost left = { λ d. Some (bytes_left d) };

    ghost ready = { λ d. is_some d.started };

    ghost faults = { λ d. failed d.calls };

    ghost use Rattle.std.proofs.Common.{rules};

    ghost left_is_told = { Prim.search rules };

    fn start(&mut self, name: &str) -> Opened
        ensures files { self.new.files ≡ self.old.files }
        ensures opened { Opens (Some self.old.files) name.now (Some (bytes_left self.new))
            (is_some self.new.started) result }
        ensures count { failed self.old.calls ≤ failed self.new.calls }
        ensures failed { result ≡ Opened.Failed
            → Rose (failed self.old.calls) (failed self.new.calls) }
        ensures answer { result ≡ start_answer self.old name.now }
        ensures after { self.new ≡ after_start self.old name.now }
    {
        self.started = None;
        if self.calls.call_fails() {
            return Opened::Failed;
        }
        if self.name.as_str() == name {
            self.started = Some(0);
            Opened::Ready
        } else {
            Opened::Missing
        }
    }

    fn read(&mut self, into: &mut [u8]) -> Got
        requires room { 0 < length into.old }
        requires started { is_some self.old.started ≡ true }
        ensures files { self.new.files ≡ self.old.files }
        ensures started { is_some self.new.started ≡ true }
        ensures got { Gives (Some (bytes_left self.old)) (Some (bytes_left self.new)) into.new
            result }
        ensures count { failed self.old.calls ≤ failed self.new.calls }
        ensures failed { result ≡ Got.Failed
            → Rose (failed self.old.calls) (failed self.new.calls) }
        ensures answer { result ≡ read_answer self.old (length into.old) }
        ensures after { self.new ≡ after_read self.old (length into.old) }
    {
        if self.calls.call_fails() {
            return Got::Failed;
        }
        let read = self.started.unwrap();
        let (_, left) = self.bytes.split_at(read);
        if left.is_empty() {
            return Got::End;
        }
        let n = (self.step as usize).min(into.len().min(left.len()));
        into[..n].copy_from_slice(&left[..n]);
        self.started = Some(read + n);
        Got::Bytes(n)
    }
}
