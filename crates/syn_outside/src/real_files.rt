//! The files of the system.
ghost use Rattle.std.specs.Prelude.{◌≡◌, ◌≢◌, ◌<◌, ◌≤◌, true, false, length, None, is_some};
ghost use Rattle.syn_outside.specs.Counts.{Rose, one_more};
ghost use Rattle.syn_outside.specs.Files.{Opens, Gives};

use crate::files::{Files, Got, Opened};
use std::fs;
use std::io::Read;

/// The system's files, by path. They tell nothing of what they hold, so no name is ever missing: a
/// path that cannot be opened is a fault.
///
/// The count rises at each error of the system, memory that it does not find among them.
#[derive(Drop)]
pub struct RealFiles<R: std::rt::Files> {
    rt: R,
    file: Option<R::File>,
    faults: u64,
}

impl<R: std::rt::Files + Drop> RealFiles<R> {
    /// The files of this runtime, of which none is started, with the count 0.
    pub fn new(rt: R) -> RealFiles<R>
        ensures started { ⟦<RealFiles<R> as Files>⟧.ready result ≡ false }
        ensures count { ⟦<RealFiles<R> as Files>⟧.faults result ≡ 0 }
    {
        RealFiles {
            rt,
            file: None,
            faults: 0,
        }
    }
}

impl<R: std::rt::Files + Drop> Files for RealFiles<R> {
    ghost held = { λ _. None };

    ghost left = { λ _. None };

    ghost ready = { λ f. is_some f.file };

    ghost faults = { λ f. f.faults };

    ghost use Rattle.std.proofs.Common.{rules};

    ghost left_is_told = { Prim.search rules };

    fn start(&mut self, name: &str) -> Opened
        ensures opened { Opens None name.now None (is_some self.new.file) result }
        ensures count { self.old.faults ≤ self.new.faults }
        ensures failed { result ≡ Opened.Failed → Rose self.old.faults self.new.faults }
        ensures fault { result ≡ Opened.Failed → self.new.faults ≡ one_more self.old.faults }
        ensures kept { result ≢ Opened.Failed → self.new.faults ≡ self.old.faults }
    {
        match fs::open(&self.rt, name) {
            Ok(file) => {
                self.file = Some(file);
                Opened::Ready
            }
            Err(_) => {
                self.file = None;
                self.faults = self.faults.saturating_add(1);
                Opened::Failed
            }
        }
    }

    fn read(&mut self, into: &mut [u8]) -> Got
        requires room { 0 < length into.old }
        requires started { is_some self.old.file ≡ true }
        ensures started { is_some self.new.file ≡ true }
        ensures got { Gives None None into.new result }
        ensures count { self.old.faults ≤ self.new.faults }
        ensures failed { result ≡ Got.Failed → Rose self.old.faults self.new.faults }
        ensures fault { result ≡ Got.Failed → self.new.faults ≡ one_more self.old.faults }
        ensures kept { result ≢ Got.Failed → self.new.faults ≡ self.old.faults }
    {
        let Some(file) = &mut self.file else {
            return Got::End;
        };
        match file.read(into) {
            Ok(0) => Got::End,
            Ok(n) => Got::Bytes(n),
            Err(_) => {
                self.faults = self.faults.saturating_add(1);
                Got::Failed
            }
        }
    }
}
