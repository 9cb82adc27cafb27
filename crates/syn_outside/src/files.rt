//! A source of files.
ghost use Rattle.std.specs.Prelude.{◌≡◌, ℕ, ◌<◌, ◌≤◌, List, Bool, true, length, Option, IsSome};
ghost use Rattle.syn_outside.specs.Counts.{Rose};
ghost use Rattle.syn_outside.specs.NamedFiles.{NamedFiles};
ghost use Rattle.syn_outside.specs.Files.{Opens, Gives};

/// What starting a file came to.
#[derive(Clone, Copy, Debug, PartialEq, Eq)]
pub enum Opened {
    /// The file is started, and is read from its first byte on.
    Ready,
    /// There is no file of this name.
    Missing,
    /// The device failed.
    Failed,
}

/// What one read gave.
#[derive(Clone, Copy, Debug, PartialEq, Eq)]
pub enum Got {
    /// So many bytes, at least one, were put at the front of the room given.
    Bytes(usize),
    /// The file has no further byte.
    End,
    /// The device failed.
    Failed,
}

/// Files that are started by name and read from front to back, one at a time.
///
/// Its meanings are `held`, the files by name where the device tells them; `left`, what of the
/// started file is not yet read, told where `held` is; `ready`, whether a file is started; and
/// `faults`, the count of its faults, which never falls. No call changes `held`.
pub trait Files {
    ghost held: { Self → Option NamedFiles };

    ghost left: { Self → Option (List ℕ) };

    ghost ready: { Self → Bool };

    ghost faults: { Self → ℕ };

    /// Starts the file of this name, in place of the one that was started before.
    fn start(&mut self, name: &str) -> Opened
        ensures files { held self.new ≡ held self.old }
        ensures opened { Opens (held self.old) name.now (left self.new) (ready self.new) result }
        ensures count { faults self.old ≤ faults self.new }
        ensures failed { result ≡ Opened.Failed → Rose (faults self.old) (faults self.new) };

    /// Reads the next bytes of the started file into the front of `into`.
    fn read(&mut self, into: &mut [u8]) -> Got
        requires room { 0 < length into.old }
        requires started { ready self.old ≡ true }
        ensures files { held self.new ≡ held self.old }
        ensures started { ready self.new ≡ true }
        ensures got { Gives (left self.old) (left self.new) into.new result }
        ensures count { faults self.old ≤ faults self.new }
        ensures failed { result ≡ Got.Failed → Rose (faults self.old) (faults self.new) };

    // Where the files are told, so is what is left of the started one.
    ghost left_is_told: { (device : Self) → IsSome (held device) → IsSome (left device) };
}
