//! The lines of a file.

ghost use Rattle.std.specs.Prelude.{◌≡◌, ◌<◌, ◌≤◌, ◌==◌, ◌+◌, length, take, drop, ◌∷◌};
ghost use Rattle.std.specs.List.{position};
ghost use Rattle.std.specs.Str.Lines.{strip_carriage_return};
ghost use Rattle.automaton_file.specs.LineText.{text_lines, line_len, fields, is_allowed, is_plain, is_significant, IsNextLine};
ghost use Rattle.automaton_file.specs.FileText.{most_bytes};

use crate::fields::first_field;

/// What comes next in a text, by lines.
#[derive(Clone, Copy, Debug, PartialEq, Eq)]
pub enum LineGot {
    /// A significant line: its number, counted from 1, the places of its bytes without the line's end, and the place
    /// where the next line begins.
    Line {
        number: u32,
        from: u32,
        to: u32,
        next: u32,
    },
    /// The number of a line with a byte that isn't allowed.
    BadByte {
        number: u32,
    },
    /// No such line: the number of all lines.
    End {
        lines: u32,
    },
}

/// The first line of a text.
#[derive(Clone, Copy)]
struct Cut {
    /// The length of the line without its end.
    text: usize,
    /// The length of the line with its end.
    whole: usize,
}

/// Finds the first line from `place` on that is significant or has a byte that isn't allowed. Condition: at most
/// 1,048,576 bytes, and line `number` begins at `place`, or `place` is the length and `number` is the number of all
/// lines plus 1. Takes no memory.
pub fn next_line(bytes: &[u8], place: u32, number: u32) -> LineGot
    requires short { length bytes.now ≤ most_bytes }
    requires place { place ≤ length bytes.now }
    requires some { 1 ≤ number }
    requires number { number ≤ place + 1 }
    ensures { IsNextLine bytes.now place number result }
{
    let mut from = place;
    let mut at = number;
    'lines: while (from as usize) < bytes.len() {
        let (_, rest) = bytes.split_at(from as usize);
        let cut = first_line(rest);
        let (text, _) = rest.split_at(cut.text);
        if !is_plain(text) {
            return LineGot::BadByte { number: at };
        }
        let next = from + cut.whole as u32;
        if is_significant(text) {
            return LineGot::Line {
                number: at,
                from,
                to: from + cut.text as u32,
                next,
            };
        }
        from = next;
        at += 1;
    }
    LineGot::End { lines: at - 1 }
}

/// Whether the byte is printable ASCII or a tab.
fn is_allowed(byte: u8) -> bool
    ensures { result ≡ is_allowed byte }
{
    byte == b'\t' || (b' ' <= byte && byte <= b'~')
}

/// Whether a line has allowed bytes alone.
fn is_plain(text: &[u8]) -> bool
    ensures { result ≡ is_plain text.now }
{
    text.iter().all(|b| is_allowed(*b))
}

/// Whether a line is neither blank nor a comment.
fn is_significant(text: &[u8]) -> bool
    ensures { result ≡ is_significant (fields text.now) }
{
    match first_field(text) {
        Some(field) => field.bytes[0] != b'#',
        None => false,
    }
}

/// The place of the first LF.
fn line_feed(text: &[u8]) -> Option<usize>
    ensures { result ≡ position (λ b. b == 10) text.now }
{
    text.iter().position(|b| *b == b'\n')
}

/// The length of a line that an LF ends, without a CR before the LF.
fn text_len(line: &[u8]) -> usize
    ensures text { take result line.now ≡ strip_carriage_return line.now }
    ensures within { result ≤ length line.now }
{
    match line {
        [.., b'\r'] => line.len() - 1,
        _ => line.len(),
    }
}

/// Cuts off the first line of a text that isn't empty.
fn first_line(text: &[u8]) -> Cut
    requires { 0 < length text.now }
    ensures first { text_lines text.now ≡ take result.text text.now ∷ text_lines
        (drop result.whole text.now) }
    ensures within { result.whole ≤ length text.now }
    ensures inside { result.text ≤ result.whole }
    ensures some { 0 < result.whole }
    ensures whole { result.whole ≡ line_len text.now }
{
    match line_feed(text) {
        Some(end) => {
            let (line, _) = text.split_at(end);
            Cut {
                text: text_len(line),
                whole: end + 1,
            }
        }
        None => Cut {
            text: text.len(),
            whole: text.len(),
        },
    }
}
