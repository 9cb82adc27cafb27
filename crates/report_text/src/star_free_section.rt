//! The section `starfree` of a report.
ghost use Rattle.std.specs.Prelude.{◌≡◌, ◌<◌, ◌++◌, ℕ, length, false, OnOk};
ghost use Rattle.star_free_lists.specs.SfList.{AreLettersBelow};
ghost use Rattle.report_buffer.specs.Saying.{Says, channel};
ghost use Rattle.report_text.specs.StarFreeSection.{IsLoopOver, IsStarFreeOver, pair_text, node_text, node_line, list_head, nodes_text, list_text, loop_words, loop_numbers, loop_text, star_free_head, star_free_body, star_free_text};

use crate::lines::say_number_line;
use answers::{Loop, SfAnswer};
use report_buffer::{
    Buffer, SayFault, push_bytes, push_first_line, push_letter, push_number, push_number_line,
    push_word_line, say_rendered,
};
use star_free_lists::{SfList, SfNode};
use std::alloc::Global;
use syn_outside::Sink;
use syn_words::{Alphabet, Memory};

/// Says the section `starfree`: a star-free list of the language, a line for each node; or words whose powers never
/// settle; or the limit that was met. `max_table` and `max_nodes` are the limits of the table and of the nodes.
///
/// Conditions: the letters of the answer are of the alphabet, and the buffer is not broken. `Write` comes only where the
/// sink's count of faults rose in this call.
pub fn say_star_free<S: Sink>(
    alloc: Global,
    sink: &mut S,
    buffer: &mut Buffer,
    alphabet: &Alphabet,
    answer: &SfAnswer,
    max_table: u32,
    max_nodes: u32,
) -> Result<(), SayFault>
    requires letters { IsStarFreeOver (length alphabet.now) answer.now }
    requires whole { buffer.old.broken ≡ false }
    ensures { Says (channel (S.written sink.old) (S.faults sink.old) buffer.old) result
        (channel (S.written sink.new) (S.faults sink.new) buffer.new)
        (star_free_text alphabet.now max_table max_nodes answer.now) }
{
    say_head(alloc, sink, buffer, answer, max_table, max_nodes)?;
    say_body(alloc, sink, buffer, alphabet, answer)
}

/// Says the first line of the section. Condition: the buffer is not broken.
fn say_head<S: Sink>(
    alloc: Global,
    sink: &mut S,
    buffer: &mut Buffer,
    answer: &SfAnswer,
    max_table: u32,
    max_nodes: u32,
) -> Result<(), SayFault>
    requires whole { buffer.old.broken ≡ false }
    ensures { Says (channel (S.written sink.old) (S.faults sink.old) buffer.old) result
        (channel (S.written sink.new) (S.faults sink.new) buffer.new)
        (star_free_head max_table max_nodes answer.now) }
{
    let mut line = Vec::new(alloc);
    let rendered = push_star_free_head(&mut line, answer, max_table, max_nodes);
    say_rendered(sink, buffer, rendered, &mut line)
}

/// Says the lines behind the first one. Conditions as for the section.
fn say_body<S: Sink>(
    alloc: Global,
    sink: &mut S,
    buffer: &mut Buffer,
    alphabet: &Alphabet,
    answer: &SfAnswer,
) -> Result<(), SayFault>
    requires letters { IsStarFreeOver (length alphabet.now) answer.now }
    requires whole { buffer.old.broken ≡ false }
    ensures { Says (channel (S.written sink.old) (S.faults sink.old) buffer.old) result
        (channel (S.written sink.new) (S.faults sink.new) buffer.new)
        (star_free_body alphabet.now answer.now) }
{
    match answer {
        SfAnswer::Yes(list) => say_list(alloc, sink, buffer, alphabet, list),
        SfAnswer::No(found) => say_loop(alloc, sink, buffer, alphabet, found),
        SfAnswer::TableLimit | SfAnswer::Depth | SfAnswer::Nodes => Ok(()),
    }
}

/// Says a star-free list: its nodes, and its root. Conditions as for the section.
fn say_list<S: Sink>(
    alloc: Global,
    sink: &mut S,
    buffer: &mut Buffer,
    alphabet: &Alphabet,
    list: &SfList,
) -> Result<(), SayFault>
    requires letters { AreLettersBelow (length alphabet.now) list.now.nodes }
    requires whole { buffer.old.broken ≡ false }
    ensures { Says (channel (S.written sink.old) (S.faults sink.old) buffer.old) result
        (channel (S.written sink.new) (S.faults sink.new) buffer.new)
        (list_text alphabet.now list.now) }
{
    say_nodes(alloc, sink, buffer, alphabet, list)?;
    say_number_line(alloc, sink, buffer, b"root", list.root())
}

/// Says the number of nodes, and a line for each. Conditions as for the section.
fn say_nodes<S: Sink>(
    alloc: Global,
    sink: &mut S,
    buffer: &mut Buffer,
    alphabet: &Alphabet,
    list: &SfList,
) -> Result<(), SayFault>
    requires letters { AreLettersBelow (length alphabet.now) list.now.nodes }
    requires whole { buffer.old.broken ≡ false }
    ensures { Says (channel (S.written sink.old) (S.faults sink.old) buffer.old) result
        (channel (S.written sink.new) (S.faults sink.new) buffer.new)
        (nodes_text alphabet.now list.now) }
{
    let mut line = Vec::new(alloc);
    let head = push_list_head(&mut line, list);
    say_rendered(sink, buffer, head, &mut line)?;
    for number in 0..list.len() {
        let rendered = push_node_line(&mut line, alphabet, list, number);
        say_rendered(sink, buffer, rendered, &mut line)?;
    }
    Ok(())
}

/// Says words that never settle. Conditions as for the section.
fn say_loop<S: Sink>(
    alloc: Global,
    sink: &mut S,
    buffer: &mut Buffer,
    alphabet: &Alphabet,
    found: &Loop,
) -> Result<(), SayFault>
    requires letters { IsLoopOver (length alphabet.now) found.now }
    requires whole { buffer.old.broken ≡ false }
    ensures { Says (channel (S.written sink.old) (S.faults sink.old) buffer.old) result
        (channel (S.written sink.new) (S.faults sink.new) buffer.new)
        (loop_text alphabet.now found.now) }
{
    let mut text = Vec::new(alloc);
    let rendered = push_loop(&mut text, alphabet, found);
    say_rendered(sink, buffer, rendered, &mut text)
}

/// Puts the first line of the section behind a text.
pub(crate) fn push_star_free_head(
    text: &mut Vec<u8>,
    answer: &SfAnswer,
    max_table: u32,
    max_nodes: u32,
) -> Result<(), Memory>
    ensures { OnOk result
        (text.new.items ≡ text.old.items ++ star_free_head max_table max_nodes answer.now) }
{
    match answer {
        SfAnswer::Yes(_) => push_bytes(text, b"starfree yes\n"),
        SfAnswer::No(_) => push_bytes(text, b"starfree no\n"),
        SfAnswer::TableLimit => push_number_line(text, b"starfree limit table", max_table),
        SfAnswer::Depth => push_bytes(text, b"starfree limit depth 400\n"),
        SfAnswer::Nodes => push_number_line(text, b"starfree limit nodes", max_nodes),
    }
}

/// Puts the words and the numbers of their powers behind a text, each in a line.
fn push_loop(text: &mut Vec<u8>, alphabet: &Alphabet, found: &Loop) -> Result<(), Memory>
    requires { IsLoopOver (length alphabet.now) found.now }
    ensures { OnOk result
        (text.new.items ≡ text.old.items ++ loop_text alphabet.now found.now) }
{
    push_loop_words(text, alphabet, found)?;
    push_loop_numbers(text, found)
}

/// Puts the words behind a text.
fn push_loop_words(text: &mut Vec<u8>, alphabet: &Alphabet, found: &Loop) -> Result<(), Memory>
    requires { IsLoopOver (length alphabet.now) found.now }
    ensures { OnOk result
        (text.new.items ≡ text.old.items ++ loop_words alphabet.now found.now) }
{
    push_word_line(text, alphabet, b"u", &found.u)?;
    push_word_line(text, alphabet, b"x", &found.x)?;
    push_word_line(text, alphabet, b"v", &found.v)
}

/// Puts the index, the period, and whether the first power gives a word of the language behind a text.
fn push_loop_numbers(text: &mut Vec<u8>, found: &Loop) -> Result<(), Memory>
    ensures { OnOk result (text.new.items ≡ text.old.items ++ loop_numbers found.now) }
{
    push_number_line(text, b"index", found.index)?;
    push_number_line(text, b"period", found.period)?;
    push_first_line(text, found.first_in)
}

/// Puts the line of the number of nodes behind a text.
fn push_list_head(text: &mut Vec<u8>, list: &SfList) -> Result<(), Memory>
    ensures { OnOk result (text.new.items ≡ text.old.items ++ list_head list.now) }
{
    push_number_line(text, b"nodes", list.len())
}

/// Puts the line of a node behind a text.
fn push_node_line(
    text: &mut Vec<u8>,
    alphabet: &Alphabet,
    list: &SfList,
    number: u32,
) -> Result<(), Memory>
    requires letters { AreLettersBelow (length alphabet.now) list.now.nodes }
    requires number { number < length list.now.nodes }
    ensures { OnOk result
        (text.new.items ≡ text.old.items ++ node_line alphabet.now list.now number) }
{
    push_number(text, number)?;
    push_bytes(text, b" ")?;
    push_node(text, alphabet, list.node(number))?;
    push_bytes(text, b"\n")
}

/// Puts a node behind a text. Condition: a letter is of the alphabet.
fn push_node(text: &mut Vec<u8>, alphabet: &Alphabet, node: SfNode) -> Result<(), Memory>
    requires { (a : ℕ) → node ≡ SfNode.Letter a → a < length alphabet.now }
    ensures { OnOk result (text.new.items ≡ text.old.items ++ node_text alphabet.now node) }
{
    match node {
        SfNode::Empty => push_bytes(text, b"none"),
        SfNode::Eps => push_bytes(text, b"eps"),
        SfNode::Letter(letter) => {
            push_bytes(text, b"letter ")?;
            push_letter(text, alphabet, letter)
        }
        SfNode::Not(part) => {
            push_bytes(text, b"not ")?;
            push_number(text, part)
        }
        SfNode::Cat(left, right) => push_pair(text, b"cat", left, right),
        SfNode::Or(left, right) => push_pair(text, b"or", left, right),
        SfNode::And(left, right) => push_pair(text, b"and", left, right),
    }
}

/// Puts the name of a connective and the numbers of two nodes behind a text.
fn push_pair(text: &mut Vec<u8>, name: &[u8], left: u32, right: u32) -> Result<(), Memory>
    ensures { OnOk result (text.new.items ≡ text.old.items ++ pair_text name.now left right) }
{
    push_bytes(text, name)?;
    push_bytes(text, b" ")?;
    push_number(text, left)?;
    push_bytes(text, b" ")?;
    push_number(text, right)
}
