//! How the sections of answers are said.
ghost use Rattle.std.specs.Prelude.{◌≡◌, false, All};
ghost use Rattle.report_buffer.specs.Saying.{Says, channel};
ghost use Rattle.report_sections.specs.Limits.{limits_of};
ghost use Rattle.report_sections.specs.Answers.{IsSayable, text_of, said_of_all};

use crate::answering::Answer;
use command_line::Request;
use report_text::{
    Buffer, SayFault, say_automaton, say_bound, say_commutative, say_green, say_local, say_monoid,
    say_piecewise, say_r_trivial, say_star_free, say_summary, say_table,
};
use std::alloc::Global;
use syn_outside::Sink;
use syn_words::Alphabet;

/// Says the sections of the answers, one after another. Conditions: the parts of each answer belong together, over the
/// letters of the alphabet, and the buffer is not broken. `Write` comes only where the sink's count of faults rose in
/// this call.
pub fn say_answers<S: Sink>(
    alloc: Global,
    sink: &mut S,
    buffer: &mut Buffer,
    alphabet: &Alphabet,
    request: &Request<'_>,
    answers: &[Answer<'_>],
) -> Result<(), SayFault>
    requires sayable { All (IsSayable alphabet.now) answers.now }
    requires whole { buffer.old.broken ≡ false }
    ensures { Says (channel (S.written sink.old) (S.faults sink.old) buffer.old) result
        (channel (S.written sink.new) (S.faults sink.new) buffer.new)
        (said_of_all alphabet.now (limits_of request.now) answers.now).text }
{
    for answer in answers {
        say_answer(alloc, sink, buffer, alphabet, request, answer)?;
    }
    Ok(())
}

/// Says the section of an answer. Conditions: its parts belong together, over the letters of the alphabet, and the
/// buffer is not broken.
fn say_answer<S: Sink>(
    alloc: Global,
    sink: &mut S,
    buffer: &mut Buffer,
    alphabet: &Alphabet,
    request: &Request<'_>,
    answer: &Answer<'_>,
) -> Result<(), SayFault>
    requires sayable { IsSayable alphabet.now answer.now }
    requires whole { buffer.old.broken ≡ false }
    ensures { Says (channel (S.written sink.old) (S.faults sink.old) buffer.old) result
        (channel (S.written sink.new) (S.faults sink.new) buffer.new)
        (text_of alphabet.now (limits_of request.now) answer.now) }
{
    let (table, nodes) = (request.table, request.nodes);
    match answer {
        Answer::Automaton(dfa) => say_automaton(alloc, sink, buffer, alphabet, dfa),
        Answer::Monoid(monoid, rules) => say_monoid(alloc, sink, buffer, alphabet, monoid, rules),
        Answer::Green(monoid, green, boxes) => {
            say_green(alloc, sink, buffer, alphabet, monoid.cayley(), green, boxes)
        }
        Answer::StarFree(answer) => {
            say_star_free(alloc, sink, buffer, alphabet, answer, table, nodes)
        }
        Answer::Piecewise(answer) => say_piecewise(alloc, sink, buffer, alphabet, answer),
        Answer::Local(answer) => say_local(alloc, sink, buffer, alphabet, answer, table),
        Answer::RTrivial(answer) => say_r_trivial(alloc, sink, buffer, alphabet, answer),
        Answer::Commutative(answer) => say_commutative(alloc, sink, buffer, alphabet, answer),
        Answer::Bound(monoid, chain, trivial) => {
            say_bound(
                alloc,
                sink,
                buffer,
                alphabet,
                monoid.cayley(),
                chain,
                *trivial,
            )
        }
        Answer::Table(products) => say_table(alloc, sink, buffer, Some(*products), table),
        Answer::TableLimit => say_table(alloc, sink, buffer, None, table),
        Answer::Summary(counts, answers) => {
            say_summary(alloc, sink, buffer, counts, answers, table, nodes)
        }
    }
}
