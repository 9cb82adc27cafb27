//! A run of the program, from its words to what it wrote.
ghost use Rattle.std.specs.Prelude.{◌≡◌, ◌≢◌, ◌⊎◌, ◌≤◌, ℕ, List, false, map, string_bytes, IsTrue};
ghost use Rattle.syn_outside.specs.Counts.{Rose};
ghost use Rattle.command_line.specs.Line.{IsAccepted, IsInRange};
ghost use Rattle.generated_file.specs.Generated.{generated_text};
ghost use Rattle.report_outcome.specs.declared.ending.Verdict.{Verdict};
ghost use Rattle.report_outcome.specs.Inputs.{AsksForFile};
ghost use Rattle.report_outcome.specs.Outcome.{Ends, EndsOn, IsDue, IsText, Runs, ending_of_fault};
ghost use Rattle.synmon_top.specs.Causes.{AreKnown, IsAnswered, IsLacking, IsOrNoMemory, IsStatus};
ghost use Rattle.synmon_top.specs.Headline.{Headline};

use command_line::{Command, LineFault, Request, read_line};
use generated_file::generate_text;
use report_outcome::{Ending, report, tell};
use std::alloc::Global;
use std::thread::Threads;
use syn_outside::{Files, Gate, ReadFault, Sink, read_all};
use syn_words::Memory;

/// The most bytes that a file may have.
const LIMIT: u32 = 1_048_576;

/// Runs the program on the words after its name: writes the text that they ask for to `out`, or a line about what went
/// wrong to `errs`, and answers the exit status.
///
/// 0: the whole text is on `out`. 2: the words are no line. 3: the file was not read. 4: the file spells no source. 5:
/// a count passed its limit, and nothing is on `out`, or the whole text is on `out` and a section of it tells a limit.
/// 6: the text was not written to its end. 7: the system gave no memory. A failure of `errs` changes no status. For
/// `generate` no file is read.
pub fn run<R: Threads + Sync, F: Files, O: Sink, E: Sink, G: Gate + Sync>(
    rt: &R,
    alloc: Global,
    words: &[String],
    files: &mut F,
    out: &mut O,
    errs: &mut E,
    gate: &G,
) -> u8
    ensures outcome { Runs (F.held files.old) (map string_bytes words.now) result
        (O.written out.old) (O.written out.new) (E.written errs.old) (E.written errs.new)
        (E.faults errs.old) (E.faults errs.new) }
    ensures headline { Headline (F.held files.old) (map string_bytes words.now) result
        (O.written out.old) (O.written out.new) }
    ensures status { IsStatus result }
    ensures bad_line { result ≡ 2 → ¬ IsAccepted (map string_bytes words.now) }
    ensures no_line { (¬ IsAccepted (map string_bytes words.now)) → IsOrNoMemory 2 result }
    ensures untouched { (¬ AsksForFile (map string_bytes words.now))
        → (F.ready files.new ≡ F.ready files.old) × (F.left files.new ≡ F.left files.old)
        × (F.faults files.new ≡ F.faults files.old) }
    ensures cannot_read { result ≡ 3 → Rose (F.faults files.old) (F.faults files.new)
        ⊎ IsLacking (F.held files.old) (map string_bytes words.now) }
    ensures lacking { IsLacking (F.held files.old) (map string_bytes words.now)
        → IsOrNoMemory 3 result }
    ensures decided { (verdict : Verdict) (text : List ℕ)
        → AreKnown (F.held files.old) (map string_bytes words.now)
        → IsDue (F.held files.old) (map string_bytes words.now) verdict text
        → (¬ Rose (F.faults files.old) (F.faults files.new))
        → (IsText verdict → ¬ Rose (O.faults out.old) (O.faults out.new))
        → IsAnswered verdict text result (O.written out.old) (O.written out.new) }
    ensures cannot_write { result ≡ 6 → Rose (O.faults out.old) (O.faults out.new) }
    ensures held { F.held files.new ≡ F.held files.old }
    ensures files_count { F.faults files.old ≤ F.faults files.new }
    ensures out_count { O.faults out.old ≤ O.faults out.new }
    ensures errs_count { E.faults errs.old ≤ E.faults errs.new }
{
    let ending = answer(rt, alloc, words, files, out, gate);
    tell(errs, ending);
    ending.status()
}

/// Writes the text that the words ask for to `out`, and says how that ended.
fn answer<R: Threads + Sync, F: Files, O: Sink, G: Gate + Sync>(
    rt: &R,
    alloc: Global,
    words: &[String],
    files: &mut F,
    out: &mut O,
    gate: &G,
) -> Ending
    ensures ends { Ends (F.held files.old) (map string_bytes words.now) result (O.written out.old)
        (O.written out.new) }
    ensures untouched { (¬ AsksForFile (map string_bytes words.now))
        → (F.ready files.new ≡ F.ready files.old) × (F.left files.new ≡ F.left files.old)
        × (F.faults files.new ≡ F.faults files.old) }
    ensures cannot_read { result ≡ Ending.CannotRead
        → Rose (F.faults files.old) (F.faults files.new)
        ⊎ IsLacking (F.held files.old) (map string_bytes words.now) }
    ensures cannot_write { result ≡ Ending.CannotWrite
        → Rose (O.faults out.old) (O.faults out.new) }
    ensures held { F.held files.new ≡ F.held files.old }
    ensures files_count { F.faults files.old ≤ F.faults files.new }
    ensures out_count { O.faults out.old ≤ O.faults out.new }
{
    let request = match read_line(alloc, words) {
        Ok(request) => request,
        Err(fault) => return without_request(fault),
    };
    if is_generated(request.command) {
        return report_on_generated(rt, alloc, &request, out, gate);
    }
    match read_all(alloc, files, request.operand.text(), LIMIT) {
        Ok(bytes) => report(rt, alloc, bytes.as_slice(), &request, out, gate),
        Err(ReadFault::Missing) => Ending::CannotRead,
        Err(ReadFault::Failed) => Ending::CannotRead,
        Err(ReadFault::Memory) => Ending::NoMemory,
    }
}

/// Whether a command is about a generated file.
fn is_generated(command: Command) -> bool
    ensures generated { IsTrue result → command ≡ Command.Generate }
    ensures other { (result ≡ false) → ¬ (command ≡ Command.Generate) }
{
    matches!(command, Command::Generate)
}

/// Writes what a request asks for about the generated file of its size. Conditions: the command is about a generated
/// file, and the numbers of the request are in their ranges.
fn report_on_generated<R: Threads + Sync, O: Sink, G: Gate + Sync>(
    rt: &R,
    alloc: Global,
    request: &Request<'_>,
    out: &mut O,
    gate: &G,
) -> Ending
    requires generated { request.now.command ≡ Command.Generate }
    requires range { IsInRange request.now }
    ensures ends { EndsOn (generated_text request.now.size) request.now result
        (O.written out.old) (O.written out.new) }
    ensures read { result ≢ Ending.CannotRead }
    ensures failed { result ≡ Ending.CannotWrite → Rose (O.faults out.old) (O.faults out.new) }
    ensures count { O.faults out.old ≤ O.faults out.new }
{
    match generate_text(alloc, request.size) {
        Ok(bytes) => report(rt, alloc, bytes.as_slice(), request, out, gate),
        Err(Memory) => Ending::NoMemory,
    }
}

/// The ending where the words ask for nothing.
fn without_request(fault: LineFault) -> Ending
    ensures { result ≡ ending_of_fault fault }
{
    match fault {
        LineFault::Words | LineFault::Command | LineFault::Number { .. } | LineFault::Size => {
            Ending::BadLine
        }
        LineFault::Memory => Ending::NoMemory,
    }
}
