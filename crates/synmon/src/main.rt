//! The program: it hands the words of its command line and the devices of the system to `run`, and ends with its
//! status.
#![tactic(auto)]

ghost use Rattle.std.specs.Prelude.{◌≡◌, ◌≢◌};

use std::env;
use std::io::{self, ErrorKind};
use std::process::ExitCode;
use std::rt::Env;
use syn_outside::{OpenGate, RealFiles, RealSink};

/// The words after the program's name.
fn words<R: Env + AllocGlobal>(rt: &R) -> io::Result<Vec<String>> {
    Ok(env::args(rt)?.skip(1).collect(rt.alloc())?)
}

/// The status where the system does not give the words: 7 if it had no memory for them, else 8.
fn status_without_words(fault: ErrorKind) -> u8
    ensures memory { fault ≡ ErrorKind.OutOfMemory → result ≡ 7 }
    ensures other { fault ≢ ErrorKind.OutOfMemory → result ≡ 8 }
{
    match fault {
        ErrorKind::OutOfMemory => 7,
        _ => 8,
    }
}

fn main(rt: HostRuntime) -> ExitCode {
    let words = match words(&rt) {
        Ok(words) => words,
        Err(fault) => return ExitCode::from(status_without_words(fault.kind())),
    };
    let mut files = RealFiles::new(&rt);
    let mut out = RealSink::new(rt.stdout());
    let mut errs = RealSink::new(rt.stderr());
    let status = synmon_top::run(
        &rt,
        rt.alloc(),
        words.as_slice(),
        &mut files,
        &mut out,
        &mut errs,
        &OpenGate,
    );
    ExitCode::from(status)
}
