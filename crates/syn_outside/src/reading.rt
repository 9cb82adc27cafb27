//! Reading a whole file.
ghost use Rattle.std.specs.Prelude.{◌≡◌, ◌+◌, ◌≤◌, true, length, IfOk, IsErrOf};
ghost use Rattle.syn_outside.specs.Counts.{Rose};
ghost use Rattle.syn_outside.specs.NamedFiles.{Lacks, HasPrefix};
ghost use Rattle.syn_outside.specs.Reading.{IsRead};

use crate::files::{Files, Got, Opened};
use std::alloc::Global;
use thiserror::Error;

/// Why a file was not read.
#[derive(Debug, Drop, Error)]
pub enum ReadFault {
    /// There is no file of this name.
    #[error("no such file")]
    Missing,
    /// The device failed.
    #[error("cannot read")]
    Failed,
    /// The system gave no memory.
    #[error("out of memory")]
    Memory,
}

/// The most bytes that one read asks for.
const PIECE: usize = 4096;

/// Reads the file of this name, or its first `max + 1` bytes if it is longer, and keeps no more.
///
/// `Missing` comes only where the device tells its files and has none of this name, `Failed` only
/// where its count of faults rose in this call.
pub fn read_all<F: Files>(
    alloc: Global,
    files: &mut F,
    name: &str,
    max: u32,
) -> Result<Vec<u8>, ReadFault>
    ensures files { F.held files.new ≡ F.held files.old }
    ensures prefix { IfOk result
        (λ bytes. HasPrefix (F.held files.old) name.now (max + 1) bytes.items) }
    ensures most { IfOk result (λ bytes. length bytes.items ≤ max + 1) }
    ensures missing { IsErrOf result ReadFault.Missing → Lacks (F.held files.old) name.now }
    ensures failed { IsErrOf result ReadFault.Failed →
        Rose (F.faults files.old) (F.faults files.new) }
    ensures count { F.faults files.old ≤ F.faults files.new }
{
    match files.start(name) {
        Opened::Ready => Ok(read_started(alloc, files, max as usize + 1)?),
        Opened::Missing => Err(ReadFault::Missing),
        Opened::Failed => Err(ReadFault::Failed),
    }
}

/// Reads the started file to its end, or until there are `most` bytes.
fn read_started<F: Files>(alloc: Global, files: &mut F, most: usize) -> Result<Vec<u8>, ReadFault>
    requires { F.ready files.old ≡ true }
    ensures files { F.held files.new ≡ F.held files.old }
    ensures read { IfOk result (λ bytes. IsRead (F.left files.old) most bytes.items) }
    ensures found { IsErrOf result ReadFault.Missing → ⊥ }
    ensures failed { IsErrOf result ReadFault.Failed →
        Rose (F.faults files.old) (F.faults files.new) }
    ensures count { F.faults files.old ≤ F.faults files.new }
{
    let mut bytes = Vec::new(alloc);
    let mut piece = [0u8; PIECE];
    'pieces: while bytes.len() < most {
        let room = (most - bytes.len()).min(PIECE);
        match files.read(&mut piece[..room]) {
            Got::Bytes(n) => bytes
                .extend_from_slice(&piece[..n])
                .map_err(|_| ReadFault::Memory)?,
            Got::End => break,
            Got::Failed => return Err(ReadFault::Failed),
        }
    }
    Ok(bytes)
}
