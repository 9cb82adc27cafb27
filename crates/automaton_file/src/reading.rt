//! Reading a file, line by line in one pass.

ghost use Rattle.std.specs.Prelude.{◌≡◌, ◌≤◌, None, Some, true, false, [], length, drop, IfOk, IfErr, OnOk};
ghost use Rattle.syn_words.specs.Alphabet.{IsAlphabet};
ghost use Rattle.automata.specs.Nfa.{bare};
ghost use Rattle.automaton_file.specs.LineText.{text_lines, fields, parts};
ghost use Rattle.automaton_file.specs.Parts.{most_states};
ghost use Rattle.automaton_file.specs.FileText.{most_bytes, code_of, header_fault, alphabet_fault, body_fault, marks_fault, step_fault, source_text, body_text, CanBuild, IsSource, IsSoundSource, IsFileRefusal};
ghost use Rattle.automaton_file.specs.Reading.{with_step_line, automaton_of, with_step_lines, ReadsSource, lines_from, IsPart, IsAhead, IsBadPart, IsNoPart, IsRefusedPart, IsFaultyPart, IsHeaderTaken, IsAlphabetTaken, IsBodyTaken, IsMarksTaken, mark_word, IsReadFault, IsFaultAt, IsHead, first_fault, automaton_first_fault, steps_first_fault, nothing_first_fault};

use crate::cursor::Cursor;
use crate::faults::{BadLine, LineFault, ReadFault};
use crate::lines::{LineGot, next_line};
use crate::parts::{BodyLine, Mark, read_alphabet, read_body, read_header, read_marks, read_step};
use crate::sources::{Body, FileFault, Refusal, Source, Wrong};
use automata::Nfa;
use std::alloc::Global;
use syn_words::Alphabet;

/// The most bytes that a file may have.
const MOST_BYTES: usize = 1_048_576;

/// A significant line: its number, its bytes, and where the next line begins.
#[derive(Clone, Copy)]
pub struct Part<'a> {
    pub number: u32,
    pub text: &'a [u8],
    pub next: Cursor<'a>,
}

/// What comes next in a file.
#[derive(Clone, Copy)]
pub enum Ahead<'a> {
    Part(Part<'a>),
    /// No further significant line: the number of all lines.
    End { lines: u32 },
}

/// What the first three parts of a file say.
#[derive(Drop)]
struct Head<'a> {
    alphabet: Alphabet,
    body: BodyLine,
    next: Cursor<'a>,
}

/// The next significant line, if there is one.
fn look_ahead(cursor: Cursor<'_>) -> Result<Ahead<'_>, BadLine>
    ensures ok { IfOk result (IsAhead cursor.entry) }
    ensures err { IfErr result (IsBadPart cursor.entry) }
{
    match next_line(cursor.bytes, cursor.at, cursor.number) {
        LineGot::Line {
            number,
            from,
            to,
            next,
        } => {
            let text = &cursor.bytes[from as usize..to as usize];
            let next = Cursor {
                bytes: cursor.bytes,
                at: next,
                number: number + 1,
            };
            Ok(Ahead::Part(Part { number, text, next }))
        }
        LineGot::BadByte { number } => Err(BadLine {
            line: number,
            wrong: Wrong::Byte,
        }),
        LineGot::End { lines } => Ok(Ahead::End { lines }),
    }
}

/// The next significant line, which must still come.
fn next_part(cursor: Cursor<'_>) -> Result<Part<'_>, BadLine>
    ensures ok { IfOk result (IsPart cursor.entry) }
    ensures err { IfErr result (IsNoPart cursor.entry) }
{
    match look_ahead(cursor)? {
        Ahead::Part(part) => Ok(part),
        Ahead::End { lines } => Err(BadLine {
            line: lines + 1,
            wrong: Wrong::Missing,
        }),
    }
}

/// Reads the header line.
fn take_header(cursor: Cursor<'_>) -> Result<Cursor<'_>, BadLine>
    ensures ok { IfOk result (IsHeaderTaken cursor.entry) }
    ensures err { IfErr result (IsRefusedPart (λ line. header_fault (fields line)) cursor.entry) }
{
    let part = next_part(cursor)?;
    match read_header(part.text) {
        Ok(()) => Ok(part.next),
        Err(wrong) => Err(BadLine {
            line: part.number,
            wrong,
        }),
    }
}

/// Reads the alphabet line.
fn take_alphabet(alloc: Global, cursor: Cursor<'_>) -> Result<(Alphabet, Cursor<'_>), ReadFault>
    ensures ok { IfOk result (λ r. IsAlphabetTaken cursor.entry r.0 r.1) }
    ensures err { IfErr result (IsFaultyPart (λ line. alphabet_fault (fields line)) cursor.entry) }
{
    let part = next_part(cursor)?;
    match read_alphabet(alloc, part.text) {
        Ok(alphabet) => Ok((alphabet, part.next)),
        Err(LineFault::Bad(wrong)) => Err(ReadFault::Bad(BadLine {
            line: part.number,
            wrong,
        })),
        Err(LineFault::Memory) => Err(ReadFault::Memory),
    }
}

/// Reads the body line.
fn take_body<'a>(
    alloc: Global,
    alphabet: &Alphabet,
    cursor: Cursor<'a>,
) -> Result<(BodyLine, Cursor<'a>), ReadFault>
    ensures ok { IfOk result (λ r. IsBodyTaken alphabet.now cursor.entry r.0 r.1) }
    ensures err { IfErr result (IsFaultyPart (body_fault alphabet.now) cursor.entry) }
{
    let part = next_part(cursor)?;
    match read_body(alloc, alphabet, part.text) {
        Ok(body) => Ok((body, part.next)),
        Err(LineFault::Bad(wrong)) => Err(ReadFault::Bad(BadLine {
            line: part.number,
            wrong,
        })),
        Err(LineFault::Memory) => Err(ReadFault::Memory),
    }
}

/// Reads a line `initial` or `final`, and marks its states.
fn take_marks<'a>(mark: Mark, nfa: &mut Nfa, cursor: Cursor<'a>) -> Result<Cursor<'a>, BadLine>
    ensures ok { IfOk result (λ next. IsMarksTaken mark cursor.entry next nfa.old nfa.new) }
    ensures err { IfErr result
        (IsRefusedPart
        (λ line. marks_fault (mark_word mark) nfa.old.states (fields line)) cursor.entry) }
    ensures states { nfa.new.states ≡ nfa.old.states }
    ensures letters { nfa.new.letters ≡ nfa.old.letters }
{
    let part = next_part(cursor)?;
    match read_marks(mark, nfa, part.text) {
        Ok(()) => Ok(part.next),
        Err(wrong) => Err(BadLine {
            line: part.number,
            wrong,
        }),
    }
}

/// Reads a step line that comes next, and adds its step.
fn take_step(alphabet: &Alphabet, nfa: &mut Nfa, part: &Part<'_>) -> Result<(), ReadFault>
    requires alphabet { IsAlphabet alphabet.now }
    requires letters { nfa.old.letters ≡ length alphabet.now }
    ensures ok { OnOk result
        ((step_fault alphabet.now nfa.old.states (fields part.now.text.now) ≡ None)
        × (nfa.new ≡ with_step_line alphabet.now nfa.old (fields part.now.text.now))) }
    ensures err { IfErr result
        (IsFaultAt part.now.number
        (step_fault alphabet.now nfa.old.states (fields part.now.text.now))) }
    ensures states { nfa.new.states ≡ nfa.old.states }
    ensures same_letters { nfa.new.letters ≡ nfa.old.letters }
{
    match read_step(alphabet, nfa, part.text) {
        Ok(()) => Ok(()),
        Err(LineFault::Bad(wrong)) => Err(ReadFault::Bad(BadLine {
            line: part.number,
            wrong,
        })),
        Err(LineFault::Memory) => Err(ReadFault::Memory),
    }
}

/// Reads the first three parts.
fn read_head(alloc: Global, bytes: &[u8]) -> Result<Head<'_>, ReadFault>
    requires { length bytes.now ≤ most_bytes }
    ensures ok { IfOk result (IsHead bytes.now) }
    ensures err { IfErr result (IsReadFault (first_fault [] 1 (text_lines bytes.now))) }
{
    let start = Cursor {
        bytes,
        at: 0,
        number: 1,
    };
    let next = take_header(start)?;
    let (alphabet, next) = take_alphabet(alloc, next)?;
    let (body, next) = take_body(alloc, &alphabet, next)?;
    Ok(Head {
        alphabet,
        body,
        next,
    })
}

/// Reads the lines of steps, which come last.
fn read_steps(cursor: Cursor<'_>, alphabet: &Alphabet, nfa: &mut Nfa) -> Result<(), ReadFault>
    requires alphabet { IsAlphabet alphabet.now }
    requires letters { nfa.old.letters ≡ length alphabet.now }
    ensures ok { OnOk result
        ((steps_first_fault alphabet.now nfa.old.states cursor.entry.number
        (lines_from cursor.entry) ≡ None)
        × (nfa.new ≡ with_step_lines alphabet.now nfa.old (parts (lines_from cursor.entry)))) }
    ensures err { IfErr result
        (IsReadFault
        (steps_first_fault alphabet.now nfa.old.states cursor.entry.number
        (lines_from cursor.entry))) }
    ensures states { nfa.new.states ≡ nfa.old.states }
    ensures same_letters { nfa.new.letters ≡ nfa.old.letters }
{
    let mut ahead = cursor;
    'lines: while let Ahead::Part(part) = look_ahead(ahead)? {
        take_step(alphabet, nfa, &part)?;
        ahead = part.next;
    }
    Ok(())
}

/// Reads what follows the body line of an automaton.
fn read_nfa(
    alloc: Global,
    cursor: Cursor<'_>,
    alphabet: &Alphabet,
    count: u32,
) -> Result<Nfa, ReadFault>
    requires alphabet { IsAlphabet alphabet.now }
    requires some { 1 ≤ count }
    requires few { count ≤ most_states }
    ensures ok { IfOk result
        (λ m. (automaton_first_fault alphabet.now count [] cursor.entry.number
        (lines_from cursor.entry) ≡ None)
        × (m ≡ automaton_of alphabet.now (bare count (length alphabet.now))
        (parts (lines_from cursor.entry)))) }
    ensures err { IfErr result
        (IsReadFault
        (automaton_first_fault alphabet.now count [] cursor.entry.number
        (lines_from cursor.entry))) }
    ensures states { IfOk result (λ m. m.states ≡ count) }
    ensures letters { IfOk result (λ m. m.letters ≡ length alphabet.now) }
{
    let mut nfa = Nfa::new(alloc, count, alphabet.len())?;
    let next = take_marks(Mark::Initial, &mut nfa, cursor)?;
    let next = take_marks(Mark::Final, &mut nfa, next)?;
    read_steps(next, alphabet, &mut nfa)?;
    Ok(nfa)
}

/// Reads what follows the body line of an expression, where no significant line may stand.
fn read_nothing(cursor: Cursor<'_>) -> Result<(), BadLine>
    ensures ok { OnOk result
        (nothing_first_fault cursor.entry.number (lines_from cursor.entry) ≡ None) }
    ensures err { IfErr result
        (λ r. nothing_first_fault cursor.entry.number (lines_from cursor.entry) ≡ Some
        (r.line, r.wrong)) }
{
    let ahead = look_ahead(cursor)?;
    match ahead {
        Ahead::Part(part) => Err(BadLine {
            line: part.number,
            wrong: Wrong::OutOfPlace,
        }),
        Ahead::End { .. } => Ok(()),
    }
}

/// Reads a source.
fn read_source(alloc: Global, bytes: &[u8]) -> Result<Source, ReadFault>
    requires { length bytes.now ≤ most_bytes }
    ensures spelled { OnOk result (first_fault [] 1 (text_lines bytes.now) ≡ None) }
    ensures source { IfOk result (λ s. ReadsSource (parts (text_lines bytes.now)) (source_text s)) }
    ensures err { IfErr result (IsReadFault (first_fault [] 1 (text_lines bytes.now))) }
    ensures sound { IfOk result (λ s. IsSoundSource (source_text s)) }
    ensures buildable { IfOk result (λ s. CanBuild (length s.alphabet) (body_text s.body)) }
{
    let Head {
        alphabet,
        body,
        next,
    } = read_head(alloc, bytes)?;
    match body {
        BodyLine::Expr(expr) => {
            read_nothing(next)?;
            Ok(Source {
                alphabet,
                body: Body::Expr(expr),
            })
        }
        BodyLine::Nfa(count) => {
            let nfa = read_nfa(alloc, next, &alphabet, count)?;
            Ok(Source {
                alphabet,
                body: Body::Nfa(nfa),
            })
        }
    }
}

/// The refusal of a file for this line.
fn refused(line: u32, wrong: Wrong) -> FileFault
    ensures { result ≡ FileFault.Refused (record { line = line; code = code_of wrong }) }
{
    let code = wrong.code();
    FileFault::Refused(Refusal { line, code })
}

/// Reads a file: the source that it spells. A text that spells none is refused with a line and a code.
/// `body_nfa` takes each source that this gives.
pub fn read_file(alloc: Global, bytes: &[u8]) -> Result<Source, FileFault>
    ensures ok { IfOk result (λ s. IsSource bytes.now (source_text s)) }
    ensures sound { IfOk result (λ s. IsSoundSource (source_text s)) }
    ensures buildable { IfOk result (λ s. CanBuild (length s.alphabet) (body_text s.body)) }
    ensures refused { IfErr result (IsFileRefusal bytes.now) }
{
    if bytes.len() > MOST_BYTES {
        return Err(refused(0, Wrong::TooLong));
    }
    match read_source(alloc, bytes) {
        Ok(source) => Ok(source),
        Err(ReadFault::Bad(bad)) => Err(refused(bad.line, bad.wrong)),
        Err(ReadFault::Memory) => Err(FileFault::Memory),
    }
}
