//! Bytes on their way to a sink.
ghost use Rattle.std.specs.Prelude.{◌≡◌, ◌<◌, ◌≤◌, ◌+◌, ℕ, List, [], true, false, length, IfOk, IsErrOf, OnOk};
ghost use Rattle.report_buffer.specs.Saying.{Says, channel};

use std::alloc::Global;
use std::marker::Model;
use syn_outside::{Sink, put_all};
use syn_words::Memory;
use thiserror::Error;

/// How many bytes a buffer takes before it is written.
pub const ROOM: usize = 65_536;

/// Why a text was not said.
#[derive(Clone, Copy, Debug, PartialEq, Eq, Error)]
pub enum SayFault {
    /// The sink failed.
    #[error("cannot write")]
    Write,
    /// The system gave no memory.
    #[error("out of memory")]
    Memory,
}

impl From<Memory> for SayFault {
    ghost use Rattle.std.specs.Prelude.{◌≡◌};
    ghost use Rattle.report_buffer.specs.declared.buffer.SayFault.TheVariants as fault;

    ghost from_gives = { λ _ e. e ≡ fault.Memory };

    fn from(_fault: Memory) -> SayFault {
        SayFault::Memory
    }
}

/// Bytes that are not yet written, fewer than 65,536 unless it is broken.
///
/// A buffer is broken from the first call with it that failed. No call takes a broken buffer.
#[derive(Drop)]
pub struct Buffer {
    bytes: Vec<u8>,
    broken: bool,
}

impl Model for Buffer {
    ghost use Rattle.std.specs.Prelude.{◌≡◌, ◌<◌, ◌≤◌, length, false, vec_capacity};
    ghost use Rattle.report_buffer.specs.Saying.{Pending};
    ghost use Rattle.report_buffer.specs.declared.buffer.TheConstants.{ROOM};

    ghost Value = { Pending };

    ghost view = { λ b. record { bytes = b.bytes.items; broken = b.broken } };

    ghost invariant = { λ b. (length b.bytes.items ≤ ROOM) × (ROOM ≤ vec_capacity b.bytes)
        × (b.broken ≡ false → length b.bytes.items < ROOM) };
}

impl Buffer {
    /// A buffer that holds nothing and is not broken. It takes all the room that it will ever need.
    pub fn new(alloc: Global) -> Result<Buffer, Memory>
        ensures { IfOk result (λ buffer. buffer ≡ record { bytes = []; broken = false }) }
    {
        Ok(Buffer {
            bytes: Vec::with_capacity(alloc, ROOM)?,
            broken: false,
        })
    }

    /// The number of bytes that are not yet written.
    pub fn held(&self) -> u32
        ensures held { result ≡ length self.now.bytes }
        ensures most { result ≤ ROOM }
        ensures room { self.now.broken ≡ false → result < ROOM }
    {
        self.bytes.len() as u32
    }

    /// Takes bytes for which there is room, and writes all that it holds when it is full.
    fn take<S: Sink>(&mut self, sink: &mut S, piece: &[u8]) -> Result<(), SayFault>
        requires whole { self.old.broken ≡ false }
        requires room { length self.old.bytes + length piece.now ≤ ROOM }
        ensures says { Says (channel (S.written sink.old) (S.faults sink.old) self.old) result
            (channel (S.written sink.new) (S.faults sink.new) self.new) piece.now }
        ensures memory { IsErrOf result SayFault.Memory → ⊥ }
    {
        self.bytes.extend_from_slice(piece).unwrap();
        if self.bytes.len() == ROOM {
            if !put_all(sink, self.bytes.as_slice()) {
                self.broken = true;
                return Err(SayFault::Write);
            }
            self.bytes.clear();
        }
        Ok(())
    }

    /// Breaks the buffer.
    fn break_off(&mut self)
        ensures { self.new ≡ record self.old { broken = true } }
    {
        self.broken = true;
    }
}

/// Says a text: it goes into the buffer, which is written when it is full. It takes no memory, so `Memory` never comes.
/// Condition: the buffer is not broken.
pub fn say<S: Sink>(sink: &mut S, buffer: &mut Buffer, text: &[u8]) -> Result<(), SayFault>
    requires { buffer.old.broken ≡ false }
    ensures says { Says (channel (S.written sink.old) (S.faults sink.old) buffer.old) result
        (channel (S.written sink.new) (S.faults sink.new) buffer.new) text.now }
    ensures memory { IsErrOf result SayFault.Memory → ⊥ }
{
    let mut rest = text;
    while !rest.is_empty() {
        let room = ROOM - buffer.held() as usize;
        let (piece, more) = rest.split_at(room.min(rest.len()));
        buffer.take(sink, piece)?;
        rest = more;
    }
    Ok(())
}

/// Writes what the buffer holds, and leaves it empty. It takes no memory, so `Memory` never comes. Condition: the
/// buffer is not broken.
pub fn flush<S: Sink>(sink: &mut S, buffer: &mut Buffer) -> Result<(), SayFault>
    requires { buffer.old.broken ≡ false }
    ensures says { Says (channel (S.written sink.old) (S.faults sink.old) buffer.old) result
        (channel (S.written sink.new) (S.faults sink.new) buffer.new) [] }
    ensures empty { OnOk result (buffer.new.bytes ≡ []) }
    ensures memory { IsErrOf result SayFault.Memory → ⊥ }
{
    if !put_all(sink, buffer.bytes.as_slice()) {
        buffer.broken = true;
        return Err(SayFault::Write);
    }
    buffer.bytes.clear();
    Ok(())
}

/// Says a line that was rendered, and leaves it empty for the next one. A line that was not rendered breaks the
/// buffer. Condition: the buffer is not broken.
pub fn say_rendered<S: Sink>(
    sink: &mut S,
    buffer: &mut Buffer,
    rendered: Result<(), Memory>,
    line: &mut Vec<u8>,
) -> Result<(), SayFault>
    requires { buffer.old.broken ≡ false }
    ensures says { (text : List ℕ) → OnOk rendered (line.old.items ≡ text)
        → Says (channel (S.written sink.old) (S.faults sink.old) buffer.old) result
        (channel (S.written sink.new) (S.faults sink.new) buffer.new) text }
    ensures empty { OnOk result (line.new.items ≡ []) }
{
    if rendered.is_err() {
        buffer.break_off();
        return Err(SayFault::Memory);
    }
    say(sink, buffer, line.as_slice())?;
    line.clear();
    Ok(())
}
