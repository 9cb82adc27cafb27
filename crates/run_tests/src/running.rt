//! Runs over devices in memory.
use std::alloc::Global;
use std::test::Fail;
use std::thread::Threads;
use syn_outside::{Files, Gate, MemFiles, MemSink, Sink};
use synmon_top::run;

/// A number that no call of these runs has.
pub(crate) const NEVER: u8 = 255;

/// The devices of a run: the one file, `name`, with which of its calls fails; the room of the output, how many bytes it
/// takes at a time and which of its calls fails; and the room of the errors.
#[derive(Clone, Copy)]
pub(crate) struct Devices<'a> {
    pub(crate) file: &'a str,
    pub(crate) failing_read: u8,
    pub(crate) out_room: u32,
    pub(crate) out_step: u32,
    pub(crate) failing_write: u8,
    pub(crate) errs_room: u32,
}

/// What a run came to: its status, and what its sinks have.
#[derive(Drop)]
pub(crate) struct Told {
    pub(crate) status: u8,
    pub(crate) out: MemSink,
    pub(crate) errs: MemSink,
}

/// The status of a run. What a run promises is not asked for where it is tested.
pub(crate) fn status_of_run<R: Threads + Sync, F: Files, O: Sink, E: Sink, G: Gate + Sync>(
    rt: &R,
    alloc: Global,
    words: &[String],
    files: &mut F,
    out: &mut O,
    errs: &mut E,
    gate: &G,
) -> u8 {
    run(rt, alloc, words, files, out, errs, gate)
}

/// Words as a command line has them.
pub(crate) fn line_of(alloc: Global, words: &[&str]) -> Result<Vec<String>, Fail> {
    let mut line = Vec::new(alloc);
    for word in words {
        line.push(String::from_str(alloc, word)?)?;
    }
    Ok(line)
}

/// The file of these devices.
fn file_of(alloc: Global, devices: &Devices<'_>) -> Result<MemFiles, Fail> {
    let failing = [u64::from(devices.failing_read)];
    let bytes = devices.file.as_bytes();
    Ok(MemFiles::new(alloc, "name", bytes, 10, &failing)?)
}

/// The output of these devices.
fn output_of(alloc: Global, devices: &Devices<'_>) -> Result<MemSink, Fail> {
    let failing = [u64::from(devices.failing_write)];
    let step = u64::from(devices.out_step.max(1));
    Ok(MemSink::new(alloc, devices.out_room, step, &failing)?)
}

/// What a run on these words comes to.
pub(crate) fn run_on<R: Threads + Sync, G: Gate + Sync>(
    rt: &R,
    alloc: Global,
    words: &[&str],
    devices: &Devices<'_>,
    gate: &G,
) -> Result<Told, Fail> {
    let line = line_of(alloc, words)?;
    let mut files = file_of(alloc, devices)?;
    let mut out = output_of(alloc, devices)?;
    let mut errs = MemSink::new(alloc, devices.errs_room, 10, &[])?;
    let status = status_of_run(
        rt,
        alloc,
        line.as_slice(),
        &mut files,
        &mut out,
        &mut errs,
        gate,
    );
    Ok(Told { status, out, errs })
}
