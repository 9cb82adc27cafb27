//! The section `automaton` of a report.
ghost use Rattle.std.specs.Prelude.{◌≡◌, ◌<◌, ◌++◌, length, false, OnOk};
ghost use Rattle.language_theory.specs.ShortlexGraph.{target};
ghost use Rattle.report_buffer.specs.Saying.{Says, channel};
ghost use Rattle.report_buffer.specs.Texts.{numbers_below};
ghost use Rattle.report_text.specs.AutomatonSection.{automaton_text, automaton_head, state_text};

use report_buffer::{
    Buffer, SayFault, push_bytes, push_membership, push_number, push_word, say_rendered,
};
use std::alloc::Global;
use subset_minimal::MinDfa;
use syn_outside::Sink;
use syn_words::{Alphabet, Memory};

/// Says the section `automaton`: the alphabet, the number of states, and a line for each state.
///
/// Conditions: the automaton has a letter for each of the alphabet's, and the buffer is not broken. `Write`
/// comes only where the sink's count of faults rose in this call.
pub fn say_automaton<S: Sink>(
    alloc: Global,
    sink: &mut S,
    buffer: &mut Buffer,
    alphabet: &Alphabet,
    dfa: &MinDfa,
) -> Result<(), SayFault>
    requires letters { dfa.now.graph.letters ≡ length alphabet.now }
    requires whole { buffer.old.broken ≡ false }
    ensures { Says (channel (S.written sink.old) (S.faults sink.old) buffer.old) result
        (channel (S.written sink.new) (S.faults sink.new) buffer.new)
        (automaton_text alphabet.now dfa.now) }
{
    let mut line = Vec::new(alloc);
    let head = push_head(&mut line, alphabet, dfa);
    say_rendered(sink, buffer, head, &mut line)?;
    for state in 0..dfa.len() {
        let rendered = push_state(&mut line, alphabet, dfa, state);
        say_rendered(sink, buffer, rendered, &mut line)?;
    }
    Ok(())
}

/// Puts the head of the section behind a text.
fn push_head(text: &mut Vec<u8>, alphabet: &Alphabet, dfa: &MinDfa) -> Result<(), Memory>
    ensures { OnOk result (text.new.items ≡ text.old.items ++ automaton_head alphabet.now dfa.now) }
{
    push_bytes(text, b"automaton\nalphabet ")?;
    push_bytes(text, alphabet.letters())?;
    push_bytes(text, b"\nstates ")?;
    push_number(text, dfa.len())?;
    push_bytes(text, b"\n")
}

/// Puts the line of a state behind a text.
fn push_state(
    text: &mut Vec<u8>,
    alphabet: &Alphabet,
    dfa: &MinDfa,
    state: u32,
) -> Result<(), Memory>
    requires letters { dfa.now.graph.letters ≡ length alphabet.now }
    requires state { state < dfa.now.graph.size }
    ensures { OnOk result
        (text.new.items ≡ text.old.items ++ state_text alphabet.now dfa.now state) }
{
    push_number(text, state)?;
    push_bytes(text, b" ")?;
    push_word(text, alphabet, dfa.access(state))?;
    push_bytes(text, b" ")?;
    push_membership(text, dfa.is_final(state))?;
    push_targets(text, dfa, state)?;
    push_bytes(text, b"\n")
}

/// Puts behind a text the state to which each letter leads from a state.
fn push_targets(text: &mut Vec<u8>, dfa: &MinDfa, state: u32) -> Result<(), Memory>
    requires { state < dfa.now.graph.size }
    ensures { OnOk result (text.new.items ≡ text.old.items
        ++ numbers_below (target dfa.now.graph state) dfa.now.graph.letters) }
{
    for letter in 0..dfa.letters() as u8 {
        push_bytes(text, b" ")?;
        push_number(text, dfa.step(state, letter))?;
    }
    Ok(())
}
