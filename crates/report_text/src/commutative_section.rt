//! The section `commutative` of a report.
ghost use Rattle.std.specs.Prelude.{◌≡◌, ◌<◌, ◌++◌, length, false, OnOk};
ghost use Rattle.report_buffer.specs.Saying.{Says, channel};
ghost use Rattle.report_text.specs.CommutativeSection.{IsSwapOver, IsCommutativeOver, pair_text, letters_line, swap_text, commutative_head, commutative_body, commutative_text};

use answers::CWitness;
use report_buffer::{
    Buffer, SayFault, push_bytes, push_first_line, push_letter, push_word_line, say_rendered,
};
use std::alloc::Global;
use syn_outside::Sink;
use syn_words::{Alphabet, Memory};

/// Says the section `commutative`: yes, or two letters that do not commute, with a context that shows it.
///
/// Conditions: the letters and words of the answer are over the letters of the alphabet, and the buffer is not broken.
/// `Write` comes only where the sink's count of faults rose in this call.
pub fn say_commutative<S: Sink>(
    alloc: Global,
    sink: &mut S,
    buffer: &mut Buffer,
    alphabet: &Alphabet,
    answer: &Option<CWitness>,
) -> Result<(), SayFault>
    requires letters { IsCommutativeOver (length alphabet.now) answer.now }
    requires whole { buffer.old.broken ≡ false }
    ensures { Says (channel (S.written sink.old) (S.faults sink.old) buffer.old) result
        (channel (S.written sink.new) (S.faults sink.new) buffer.new)
        (commutative_text alphabet.now answer.now) }
{
    let mut text = Vec::new(alloc);
    let rendered = push_commutative(&mut text, alphabet, answer);
    say_rendered(sink, buffer, rendered, &mut text)
}

/// Puts the section behind a text.
fn push_commutative(
    text: &mut Vec<u8>,
    alphabet: &Alphabet,
    answer: &Option<CWitness>,
) -> Result<(), Memory>
    requires { IsCommutativeOver (length alphabet.now) answer.now }
    ensures { OnOk result
        (text.new.items ≡ text.old.items ++ commutative_text alphabet.now answer.now) }
{
    push_commutative_head(text, answer)?;
    push_commutative_body(text, alphabet, answer)
}

/// Puts the first line of the section behind a text.
pub(crate) fn push_commutative_head(
    text: &mut Vec<u8>,
    answer: &Option<CWitness>,
) -> Result<(), Memory>
    ensures { OnOk result (text.new.items ≡ text.old.items ++ commutative_head answer.now) }
{
    match answer {
        None => push_bytes(text, b"commutative yes\n"),
        Some(_) => push_bytes(text, b"commutative no\n"),
    }
}

/// Puts the lines behind the first one behind a text.
fn push_commutative_body(
    text: &mut Vec<u8>,
    alphabet: &Alphabet,
    answer: &Option<CWitness>,
) -> Result<(), Memory>
    requires { IsCommutativeOver (length alphabet.now) answer.now }
    ensures { OnOk result
        (text.new.items ≡ text.old.items ++ commutative_body alphabet.now answer.now) }
{
    match answer {
        None => Ok(()),
        Some(witness) => push_swap(text, alphabet, witness),
    }
}

/// Puts the letters and words of a witness behind a text, in four lines.
fn push_swap(text: &mut Vec<u8>, alphabet: &Alphabet, witness: &CWitness) -> Result<(), Memory>
    requires { IsSwapOver (length alphabet.now) witness.now }
    ensures { OnOk result (text.new.items ≡ text.old.items ++ swap_text alphabet.now witness.now) }
{
    push_letters_line(text, alphabet, witness.a, witness.b)?;
    push_word_line(text, alphabet, b"u", &witness.u)?;
    push_word_line(text, alphabet, b"v", &witness.v)?;
    push_first_line(text, witness.first_in)
}

/// Puts the line of two letters behind a text.
fn push_letters_line(text: &mut Vec<u8>, alphabet: &Alphabet, a: u8, b: u8) -> Result<(), Memory>
    requires first { a < length alphabet.now }
    requires second { b < length alphabet.now }
    ensures { OnOk result (text.new.items ≡ text.old.items ++ letters_line alphabet.now a b) }
{
    push_bytes(text, b"letters ")?;
    push_pair(text, alphabet, a, b)?;
    push_bytes(text, b"\n")
}

/// Puts two letters behind a text, with a blank between them.
fn push_pair(text: &mut Vec<u8>, alphabet: &Alphabet, a: u8, b: u8) -> Result<(), Memory>
    requires first { a < length alphabet.now }
    requires second { b < length alphabet.now }
    ensures { OnOk result (text.new.items ≡ text.old.items ++ pair_text alphabet.now a b) }
{
    push_letter(text, alphabet, a)?;
    push_bytes(text, b" ")?;
    push_letter(text, alphabet, b)
}
