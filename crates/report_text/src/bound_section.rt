//! The section `bound` of a report.
ghost use Rattle.std.specs.Prelude.{◌≡◌, ◌<◌, ◌++◌, length, false, OnOk};
ghost use Rattle.report_buffer.specs.Saying.{Says, channel};
ghost use Rattle.report_text.specs.BoundSection.{IsChainToSay, bound_text, chain_text, chain_head, link_text, level_text};

use cayley_tables::Cayley;
use report_buffer::{Buffer, SayFault, push_bytes, push_number_line, push_word, say_rendered};
use simon_bound::{JChain, simon_level};
use std::alloc::Global;
use syn_outside::Sink;
use syn_words::{Alphabet, Memory};

/// Says the section `bound`: how many elements a longest chain has, a line for each with its least word, and the level
/// that the chain bounds, if `trivial` says that the monoid is J-trivial.
///
/// Conditions: the graphs are over the letters of the alphabet, the elements of the chain are elements of theirs, and
/// the buffer is not broken. `Write` comes only where the sink's count of faults rose in this call.
pub fn say_bound<S: Sink>(
    alloc: Global,
    sink: &mut S,
    buffer: &mut Buffer,
    alphabet: &Alphabet,
    cayley: &Cayley,
    chain: &JChain,
    trivial: bool,
) -> Result<(), SayFault>
    requires chain { IsChainToSay alphabet.now cayley.now chain.now }
    requires whole { buffer.old.broken ≡ false }
    ensures { Says (channel (S.written sink.old) (S.faults sink.old) buffer.old) result
        (channel (S.written sink.new) (S.faults sink.new) buffer.new)
        (bound_text alphabet.now cayley.now.words chain.now trivial) }
{
    say_chain(alloc, sink, buffer, alphabet, cayley, chain)?;
    say_level(alloc, sink, buffer, chain, trivial)
}

/// Says the number of elements of a chain, and a line for each. Conditions as for the section.
fn say_chain<S: Sink>(
    alloc: Global,
    sink: &mut S,
    buffer: &mut Buffer,
    alphabet: &Alphabet,
    cayley: &Cayley,
    chain: &JChain,
) -> Result<(), SayFault>
    requires chain { IsChainToSay alphabet.now cayley.now chain.now }
    requires whole { buffer.old.broken ≡ false }
    ensures { Says (channel (S.written sink.old) (S.faults sink.old) buffer.old) result
        (channel (S.written sink.new) (S.faults sink.new) buffer.new)
        (chain_text alphabet.now cayley.now.words chain.now) }
{
    let mut line = Vec::new(alloc);
    let head = push_chain_head(&mut line, chain);
    say_rendered(sink, buffer, head, &mut line)?;
    for place in 0..chain.len() {
        let rendered = push_link(&mut line, alphabet, cayley, chain, place);
        say_rendered(sink, buffer, rendered, &mut line)?;
    }
    Ok(())
}

/// Says the level that a chain bounds, if the monoid is J-trivial. Condition: the buffer is not broken.
fn say_level<S: Sink>(
    alloc: Global,
    sink: &mut S,
    buffer: &mut Buffer,
    chain: &JChain,
    trivial: bool,
) -> Result<(), SayFault>
    requires whole { buffer.old.broken ≡ false }
    ensures { Says (channel (S.written sink.old) (S.faults sink.old) buffer.old) result
        (channel (S.written sink.new) (S.faults sink.new) buffer.new)
        (level_text chain.now trivial) }
{
    let mut line = Vec::new(alloc);
    let rendered = push_level(&mut line, chain, trivial);
    say_rendered(sink, buffer, rendered, &mut line)
}

/// Puts the head of a chain behind a text.
fn push_chain_head(text: &mut Vec<u8>, chain: &JChain) -> Result<(), Memory>
    ensures { OnOk result (text.new.items ≡ text.old.items ++ chain_head chain.now) }
{
    push_bytes(text, b"bound\n")?;
    push_number_line(text, b"chain", chain.len())
}

/// Puts the line of the element at a place of a chain behind a text.
fn push_link(
    text: &mut Vec<u8>,
    alphabet: &Alphabet,
    cayley: &Cayley,
    chain: &JChain,
    place: u32,
) -> Result<(), Memory>
    requires chain { IsChainToSay alphabet.now cayley.now chain.now }
    requires place { place < length chain.now }
    ensures { OnOk result (text.new.items
        ≡ text.old.items ++ link_text alphabet.now cayley.now.words chain.now place) }
{
    let word = cayley.word(chain.at(place))?;
    push_word(text, alphabet, &word)?;
    push_bytes(text, b"\n")
}

/// Puts the line of the level behind a text.
fn push_level(text: &mut Vec<u8>, chain: &JChain, trivial: bool) -> Result<(), Memory>
    ensures { OnOk result (text.new.items ≡ text.old.items ++ level_text chain.now trivial) }
{
    if trivial {
        push_number_line(text, b"level", simon_level(chain))
    } else {
        push_bytes(text, b"level none\n")
    }
}
