//! The section `local` of a report.
ghost use Rattle.std.specs.Prelude.{◌≡◌, ◌++◌, length, false, OnOk};
ghost use Rattle.language_theory.specs.Words.{Over};
ghost use Rattle.report_buffer.specs.Saying.{Says, channel};
ghost use Rattle.report_text.specs.LocalSection.{IsLocalWitnessOver, IsLocalOver, kind_text, other_line, local_witness_text, local_head, local_body, local_text};

use answers::{LtAnswer, LtKind, LtWitness, MOST_WORK};
use report_buffer::{
    Buffer, SayFault, push_bytes, push_first_line, push_number_line, push_word_line, say_rendered,
};
use std::alloc::Global;
use syn_outside::Sink;
use syn_words::{Alphabet, Memory, Word};

/// Says the section `local`: the least level that suffices, words that no level tells apart, or the limit that was met.
/// `max_table` is the limit of the table.
///
/// Conditions: the words of the answer are over the letters of the alphabet, and the buffer is not broken. `Write` comes
/// only where the sink's count of faults rose in this call.
pub fn say_local<S: Sink>(
    alloc: Global,
    sink: &mut S,
    buffer: &mut Buffer,
    alphabet: &Alphabet,
    answer: &LtAnswer,
    max_table: u32,
) -> Result<(), SayFault>
    requires letters { IsLocalOver (length alphabet.now) answer.now }
    requires whole { buffer.old.broken ≡ false }
    ensures { Says (channel (S.written sink.old) (S.faults sink.old) buffer.old) result
        (channel (S.written sink.new) (S.faults sink.new) buffer.new)
        (local_text alphabet.now max_table answer.now) }
{
    let mut text = Vec::new(alloc);
    let rendered = push_local(&mut text, alphabet, answer, max_table);
    say_rendered(sink, buffer, rendered, &mut text)
}

/// Puts the section behind a text.
fn push_local(
    text: &mut Vec<u8>,
    alphabet: &Alphabet,
    answer: &LtAnswer,
    max_table: u32,
) -> Result<(), Memory>
    requires { IsLocalOver (length alphabet.now) answer.now }
    ensures { OnOk result
        (text.new.items ≡ text.old.items ++ local_text alphabet.now max_table answer.now) }
{
    push_local_head(text, answer, max_table)?;
    push_local_body(text, alphabet, answer)
}

/// Puts the first line of the section behind a text.
pub(crate) fn push_local_head(
    text: &mut Vec<u8>,
    answer: &LtAnswer,
    max_table: u32,
) -> Result<(), Memory>
    ensures { OnOk result (text.new.items ≡ text.old.items ++ local_head max_table answer.now) }
{
    match answer {
        LtAnswer::Yes(level) => push_number_line(text, b"local yes", *level),
        LtAnswer::No(witness) => push_kind(text, witness.kind),
        LtAnswer::TableLimit => push_number_line(text, b"local limit table", max_table),
        LtAnswer::WorkLimit => push_number_line(text, b"local limit work", MOST_WORK as u32),
        LtAnswer::Wide(level) => push_number_line(text, b"local limit width", *level),
        LtAnswer::Pairs(level) => push_number_line(text, b"local limit pairs", *level),
        LtAnswer::NoneTo(level) => push_number_line(text, b"local limit level", *level),
    }
}

/// Puts the lines behind the first one behind a text.
fn push_local_body(text: &mut Vec<u8>, alphabet: &Alphabet, answer: &LtAnswer) -> Result<(), Memory>
    requires { IsLocalOver (length alphabet.now) answer.now }
    ensures { OnOk result
        (text.new.items ≡ text.old.items ++ local_body alphabet.now answer.now) }
{
    match answer {
        LtAnswer::No(witness) => push_witness(text, alphabet, witness),
        LtAnswer::Yes(_) | LtAnswer::TableLimit | LtAnswer::WorkLimit => Ok(()),
        LtAnswer::Wide(_) | LtAnswer::Pairs(_) | LtAnswer::NoneTo(_) => Ok(()),
    }
}

/// Puts the words of a witness behind a text, each in a line.
fn push_witness(text: &mut Vec<u8>, alphabet: &Alphabet, witness: &LtWitness) -> Result<(), Memory>
    requires { IsLocalWitnessOver (length alphabet.now) witness.now }
    ensures { OnOk result
        (text.new.items ≡ text.old.items ++ local_witness_text alphabet.now witness.now) }
{
    push_word_line(text, alphabet, b"u", &witness.u)?;
    push_word_line(text, alphabet, b"x", &witness.x)?;
    push_word_line(text, alphabet, b"y", &witness.y)?;
    push_other(text, alphabet, witness.kind, &witness.z)?;
    push_word_line(text, alphabet, b"v", &witness.v)?;
    push_first_line(text, witness.first_in)
}

/// Puts behind a text what fails.
fn push_kind(text: &mut Vec<u8>, kind: LtKind) -> Result<(), Memory>
    ensures { OnOk result (text.new.items ≡ text.old.items ++ kind_text kind) }
{
    match kind {
        LtKind::Repeat => push_bytes(text, b"local no repeat\n"),
        LtKind::Swap => push_bytes(text, b"local no swap\n"),
    }
}

/// Puts the second word of a swap behind a text.
fn push_other(
    text: &mut Vec<u8>,
    alphabet: &Alphabet,
    kind: LtKind,
    word: &Word,
) -> Result<(), Memory>
    requires { Over (length alphabet.now) word.now }
    ensures { OnOk result
        (text.new.items ≡ text.old.items ++ other_line alphabet.now kind word.now) }
{
    match kind {
        LtKind::Repeat => Ok(()),
        LtKind::Swap => push_word_line(text, alphabet, b"z", word),
    }
}
