//! The sections `piecewise` and `rtrivial` of a report.
ghost use Rattle.std.specs.Prelude.{◌≡◌, ◌<◌, ◌++◌, length, false, OnOk};
ghost use Rattle.report_buffer.specs.Saying.{Says, channel};
ghost use Rattle.report_text.specs.PiecewiseSection.{IsWitnessOver, IsPiecewiseOver, IsRTrivialOver, side_text, letter_line, no_head, witness_text, piecewise_head, piecewise_body, piecewise_text, r_trivial_head, r_trivial_body, r_trivial_text};

use answers::{PtAnswer, PtWitness, Side};
use report_buffer::{
    Buffer, SayFault, push_bytes, push_first_line, push_letter, push_number_line, push_word_line,
    say_rendered,
};
use std::alloc::Global;
use syn_outside::Sink;
use syn_words::{Alphabet, Memory};

/// Says the section `piecewise`: the least level that suffices, words that no level tells apart, or the limit that was
/// met.
///
/// Conditions: the words of the answer are over the letters of the alphabet, and the buffer is not broken. `Write` comes
/// only where the sink's count of faults rose in this call.
pub fn say_piecewise<S: Sink>(
    alloc: Global,
    sink: &mut S,
    buffer: &mut Buffer,
    alphabet: &Alphabet,
    answer: &PtAnswer,
) -> Result<(), SayFault>
    requires letters { IsPiecewiseOver (length alphabet.now) answer.now }
    requires whole { buffer.old.broken ≡ false }
    ensures { Says (channel (S.written sink.old) (S.faults sink.old) buffer.old) result
        (channel (S.written sink.new) (S.faults sink.new) buffer.new)
        (piecewise_text alphabet.now answer.now) }
{
    let mut text = Vec::new(alloc);
    let rendered = push_piecewise(&mut text, alphabet, answer);
    say_rendered(sink, buffer, rendered, &mut text)
}

/// Says the section `rtrivial`: yes, or words that show that the monoid is not R-trivial.
///
/// Conditions as for `piecewise`. `Write` comes only where the sink's count of faults rose in this call.
pub fn say_r_trivial<S: Sink>(
    alloc: Global,
    sink: &mut S,
    buffer: &mut Buffer,
    alphabet: &Alphabet,
    answer: &Option<PtWitness>,
) -> Result<(), SayFault>
    requires letters { IsRTrivialOver (length alphabet.now) answer.now }
    requires whole { buffer.old.broken ≡ false }
    ensures { Says (channel (S.written sink.old) (S.faults sink.old) buffer.old) result
        (channel (S.written sink.new) (S.faults sink.new) buffer.new)
        (r_trivial_text alphabet.now answer.now) }
{
    let mut text = Vec::new(alloc);
    let rendered = push_r_trivial(&mut text, alphabet, answer);
    say_rendered(sink, buffer, rendered, &mut text)
}

/// Puts the section `piecewise` behind a text.
fn push_piecewise(text: &mut Vec<u8>, alphabet: &Alphabet, answer: &PtAnswer) -> Result<(), Memory>
    requires { IsPiecewiseOver (length alphabet.now) answer.now }
    ensures { OnOk result
        (text.new.items ≡ text.old.items ++ piecewise_text alphabet.now answer.now) }
{
    push_piecewise_head(text, answer)?;
    push_piecewise_body(text, alphabet, answer)
}

/// Puts the first line of the section `piecewise` behind a text.
pub(crate) fn push_piecewise_head(text: &mut Vec<u8>, answer: &PtAnswer) -> Result<(), Memory>
    ensures { OnOk result (text.new.items ≡ text.old.items ++ piecewise_head answer.now) }
{
    match answer {
        PtAnswer::Yes(level) => push_number_line(text, b"piecewise yes", *level),
        PtAnswer::No(witness) => push_no_head(text, witness),
        PtAnswer::Wide(level) => push_number_line(text, b"piecewise limit width", *level),
        PtAnswer::Pairs(level) => push_number_line(text, b"piecewise limit pairs", *level),
        PtAnswer::NoneTo(level) => push_number_line(text, b"piecewise limit level", *level),
    }
}

/// Puts the lines behind the first one of `piecewise` behind a text.
fn push_piecewise_body(
    text: &mut Vec<u8>,
    alphabet: &Alphabet,
    answer: &PtAnswer,
) -> Result<(), Memory>
    requires { IsPiecewiseOver (length alphabet.now) answer.now }
    ensures { OnOk result
        (text.new.items ≡ text.old.items ++ piecewise_body alphabet.now answer.now) }
{
    match answer {
        PtAnswer::No(witness) => push_witness(text, alphabet, witness),
        PtAnswer::Yes(_) | PtAnswer::Wide(_) | PtAnswer::Pairs(_) | PtAnswer::NoneTo(_) => Ok(()),
    }
}

/// Puts the section `rtrivial` behind a text.
fn push_r_trivial(
    text: &mut Vec<u8>,
    alphabet: &Alphabet,
    answer: &Option<PtWitness>,
) -> Result<(), Memory>
    requires { IsRTrivialOver (length alphabet.now) answer.now }
    ensures { OnOk result
        (text.new.items ≡ text.old.items ++ r_trivial_text alphabet.now answer.now) }
{
    push_r_trivial_head(text, answer)?;
    push_r_trivial_body(text, alphabet, answer)
}

/// Puts the first line of the section `rtrivial` behind a text.
pub(crate) fn push_r_trivial_head(
    text: &mut Vec<u8>,
    answer: &Option<PtWitness>,
) -> Result<(), Memory>
    ensures { OnOk result (text.new.items ≡ text.old.items ++ r_trivial_head answer.now) }
{
    match answer {
        None => push_bytes(text, b"rtrivial yes\n"),
        Some(_) => push_bytes(text, b"rtrivial no\n"),
    }
}

/// Puts the lines behind the first one of `rtrivial` behind a text.
fn push_r_trivial_body(
    text: &mut Vec<u8>,
    alphabet: &Alphabet,
    answer: &Option<PtWitness>,
) -> Result<(), Memory>
    requires { IsRTrivialOver (length alphabet.now) answer.now }
    ensures { OnOk result
        (text.new.items ≡ text.old.items ++ r_trivial_body alphabet.now answer.now) }
{
    match answer {
        None => Ok(()),
        Some(witness) => push_witness(text, alphabet, witness),
    }
}

/// Puts the first line of the answer no behind a text.
fn push_no_head(text: &mut Vec<u8>, witness: &PtWitness) -> Result<(), Memory>
    ensures { OnOk result (text.new.items ≡ text.old.items ++ no_head witness.now) }
{
    push_bytes(text, b"piecewise no ")?;
    push_side(text, witness.side)?;
    push_bytes(text, b"\n")
}

/// Puts the side of a witness behind a text.
fn push_side(text: &mut Vec<u8>, side: Side) -> Result<(), Memory>
    ensures { OnOk result (text.new.items ≡ text.old.items ++ side_text side) }
{
    match side {
        Side::Right => push_bytes(text, b"right"),
        Side::Left => push_bytes(text, b"left"),
    }
}

/// Puts the words of a witness behind a text, each in a line.
fn push_witness(text: &mut Vec<u8>, alphabet: &Alphabet, witness: &PtWitness) -> Result<(), Memory>
    requires { IsWitnessOver (length alphabet.now) witness.now }
    ensures { OnOk result
        (text.new.items ≡ text.old.items ++ witness_text alphabet.now witness.now) }
{
    push_word_line(text, alphabet, b"u", &witness.u)?;
    push_word_line(text, alphabet, b"s", &witness.s)?;
    push_letter_line(text, alphabet, witness.letter)?;
    push_word_line(text, alphabet, b"y", &witness.y)?;
    push_word_line(text, alphabet, b"v", &witness.v)?;
    push_first_line(text, witness.first_in)
}

/// Puts the letter of a witness behind a text.
fn push_letter_line(text: &mut Vec<u8>, alphabet: &Alphabet, letter: u8) -> Result<(), Memory>
    requires { letter < length alphabet.now }
    ensures { OnOk result (text.new.items ≡ text.old.items ++ letter_line alphabet.now letter) }
{
    push_bytes(text, b"letter ")?;
    push_letter(text, alphabet, letter)?;
    push_bytes(text, b"\n")
}
