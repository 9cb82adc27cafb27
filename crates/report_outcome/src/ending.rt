//! How a run ends, and what the user is told of it.
ghost use Rattle.std.specs.Prelude.{◌≡◌, ◌++◌, ◌≤◌, codes, decimal, map};
ghost use Rattle.std.specs.List.{concat};
ghost use Rattle.report_outcome.specs.Outcome.{IsTold, status_of, status_of_verdict, line_of, line_of_verdict, stop_text};

use syn_outside::{Sink, put_all};

/// A count that passed its limit before a section was made, and the limit.
#[derive(Clone, Copy, Debug, PartialEq, Eq)]
pub enum Stop {
    /// Words lead to more sets of states than this many.
    Subsets(u32),
    /// The syntactic monoid has more elements than this many.
    Elements(u32),
}

/// What the work on a file's bytes came to.
#[derive(Clone, Copy, Debug, PartialEq, Eq)]
pub enum Verdict {
    /// A text.
    Said {
        /// Whether a section of it tells a limit.
        limited: bool,
    },
    /// A count passed its limit, and there is no text.
    Stopped(Stop),
    /// The file spells no source.
    Refused {
        /// The line, counted from 1; 0 for a file that is too long.
        line: u32,
        /// The code of the test that fails there.
        code: u8,
    },
}

impl Verdict {
    /// The exit status.
    fn status(self) -> u8
        ensures { result ≡ status_of_verdict self }
    {
        match self {
            Verdict::Said { limited: false } => 0,
            Verdict::Said { limited: true } | Verdict::Stopped(_) => 5,
            Verdict::Refused { .. } => 4,
        }
    }
}

/// How a run ended.
#[derive(Clone, Copy, Debug, PartialEq, Eq)]
pub enum Ending {
    /// The words and the bytes decided it: the text of the verdict, if it has one, is written whole.
    Decided(Verdict),
    /// The words are no line.
    BadLine,
    /// The file was not read.
    CannotRead,
    /// The text was not written to its end.
    CannotWrite,
    /// The system gave no memory.
    NoMemory,
}

impl Ending {
    /// The exit status.
    pub fn status(self) -> u8
        ensures { result ≡ status_of self }
    {
        match self {
            Ending::Decided(verdict) => verdict.status(),
            Ending::BadLine => 2,
            Ending::CannotRead => 3,
            Ending::CannotWrite => 6,
            Ending::NoMemory => 7,
        }
    }
}

/// Writes the line of an ending. Where the sink fails, a prefix of the line is written.
pub fn tell<E: Sink>(errs: &mut E, ending: Ending)
    ensures told { IsTold (E.written errs.old) (E.written errs.new) (E.faults errs.old)
        (E.faults errs.new) (line_of ending) }
    ensures count { E.faults errs.old ≤ E.faults errs.new }
{
    match ending {
        Ending::Decided(verdict) => tell_verdict(errs, verdict),
        Ending::BadLine => tell_parts(errs, &["synmon: bad command line\n"]),
        Ending::CannotRead => tell_parts(errs, &["synmon: cannot read\n"]),
        Ending::CannotWrite => tell_parts(errs, &["synmon: cannot write\n"]),
        Ending::NoMemory => tell_parts(errs, &["synmon: out of memory\n"]),
    }
}

/// Writes the line of a verdict.
fn tell_verdict<E: Sink>(errs: &mut E, verdict: Verdict)
    ensures told { IsTold (E.written errs.old) (E.written errs.new) (E.faults errs.old)
        (E.faults errs.new) (line_of_verdict verdict) }
    ensures count { E.faults errs.old ≤ E.faults errs.new }
{
    match verdict {
        Verdict::Said { .. } => {}
        Verdict::Stopped(Stop::Subsets(most)) => tell_stop(errs, "subsets ", most),
        Verdict::Stopped(Stop::Elements(most)) => tell_stop(errs, "elements ", most),
        Verdict::Refused { line, code } => tell_refusal(errs, line, code),
    }
}

/// Writes the line and the code of a refusal.
fn tell_refusal<E: Sink>(errs: &mut E, line: u32, code: u8)
    ensures told { IsTold (E.written errs.old) (E.written errs.new) (E.faults errs.old)
        (E.faults errs.new)
        (codes "synmon: line " ++ decimal line ++ codes " code " ++ decimal code ++ codes "\n") }
    ensures count { E.faults errs.old ≤ E.faults errs.new }
{
    let mut line_digits = itoa::Buffer::new();
    let mut code_digits = itoa::Buffer::new();
    let line = line_digits.format(line);
    let code = code_digits.format(code);
    tell_parts(errs, &["synmon: line ", line, " code ", code, "\n"])
}

/// Writes which count passed its limit, and the limit.
fn tell_stop<E: Sink>(errs: &mut E, count: &str, most: u32)
    ensures told { IsTold (E.written errs.old) (E.written errs.new) (E.faults errs.old)
        (E.faults errs.new) (codes "synmon: limit " ++ (count.now ++ decimal most) ++ codes "\n") }
    ensures count { E.faults errs.old ≤ E.faults errs.new }
{
    let mut digits = itoa::Buffer::new();
    tell_parts(errs, &["synmon: limit ", count, digits.format(most), "\n"])
}

/// Writes the parts of a line, one after another until the sink fails.
fn tell_parts<E: Sink>(errs: &mut E, parts: &[&str])
    ensures told { IsTold (E.written errs.old) (E.written errs.new) (E.faults errs.old)
        (E.faults errs.new) (concat (map (λ part. part.now) parts.now)) }
    ensures count { E.faults errs.old ≤ E.faults errs.new }
{
    for part in parts {
        if !put_all(errs, part.as_bytes()) {
            return;
        }
    }
}
