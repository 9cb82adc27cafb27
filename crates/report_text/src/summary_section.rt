//! The section `summary` of a report.
ghost use Rattle.std.specs.Prelude.{◌≡◌, ◌++◌, false, OnOk};
ghost use Rattle.report_buffer.specs.Saying.{Says, channel};
ghost use Rattle.report_text.specs.SummarySection.{counts_text, heads_text, summary_text};

use crate::commutative_section::push_commutative_head;
use crate::local_section::push_local_head;
use crate::piecewise_section::{push_piecewise_head, push_r_trivial_head};
use crate::star_free_section::push_star_free_head;
use answers::{CWitness, LtAnswer, PtAnswer, PtWitness, SfAnswer};
use report_buffer::{Buffer, SayFault, push_number_line, say_rendered};
use std::alloc::Global;
use syn_outside::Sink;
use syn_words::Memory;

/// What a summary counts.
#[derive(Clone, Copy)]
pub struct Counts {
    /// The size of the generated file.
    pub size: u32,
    /// The states of the minimal automaton.
    pub states: u32,
    /// The elements of the syntactic monoid.
    pub elements: u32,
    /// The rules that present the monoid.
    pub rules: u32,
    /// The boxes of the egg-box diagram.
    pub boxes: u32,
    /// The elements that are idempotent.
    pub idempotents: u32,
}

/// The answers of the sections that a summary tells by their first lines.
#[derive(Drop)]
pub struct Summary {
    pub star_free: SfAnswer,
    pub piecewise: PtAnswer,
    pub local: LtAnswer,
    pub r_trivial: Option<PtWitness>,
    pub commutative: Option<CWitness>,
}

/// Says the section `summary`: the counts, and the first line of each of five sections. `max_table` and `max_nodes` are
/// the limits of the table and of the nodes.
///
/// No letter stands in these lines, so that they are the same for all letters. Condition: the buffer is not broken.
/// `Write` comes only where the sink's count of faults rose in this call.
pub fn say_summary<S: Sink>(
    alloc: Global,
    sink: &mut S,
    buffer: &mut Buffer,
    counts: &Counts,
    answers: &Summary,
    max_table: u32,
    max_nodes: u32,
) -> Result<(), SayFault>
    requires whole { buffer.old.broken ≡ false }
    ensures { Says (channel (S.written sink.old) (S.faults sink.old) buffer.old) result
        (channel (S.written sink.new) (S.faults sink.new) buffer.new)
        (summary_text counts.now max_table max_nodes answers.now) }
{
    let mut text = Vec::new(alloc);
    let rendered = push_summary(&mut text, counts, answers, max_table, max_nodes);
    say_rendered(sink, buffer, rendered, &mut text)
}

/// Puts the section behind a text.
fn push_summary(
    text: &mut Vec<u8>,
    counts: &Counts,
    answers: &Summary,
    max_table: u32,
    max_nodes: u32,
) -> Result<(), Memory>
    ensures { OnOk result (text.new.items ≡ text.old.items
        ++ summary_text counts.now max_table max_nodes answers.now) }
{
    push_counts(text, counts)?;
    push_heads(text, answers, max_table, max_nodes)
}

/// Puts the lines of the counts behind a text.
fn push_counts(text: &mut Vec<u8>, counts: &Counts) -> Result<(), Memory>
    ensures { OnOk result (text.new.items ≡ text.old.items ++ counts_text counts.now) }
{
    push_number_line(text, b"generate", counts.size)?;
    push_number_line(text, b"states", counts.states)?;
    push_number_line(text, b"elements", counts.elements)?;
    push_number_line(text, b"rules", counts.rules)?;
    push_number_line(text, b"boxes", counts.boxes)?;
    push_number_line(text, b"idempotents", counts.idempotents)
}

/// Puts the first lines of the five sections behind a text.
fn push_heads(
    text: &mut Vec<u8>,
    answers: &Summary,
    max_table: u32,
    max_nodes: u32,
) -> Result<(), Memory>
    ensures { OnOk result
        (text.new.items ≡ text.old.items ++ heads_text max_table max_nodes answers.now) }
{
    push_star_free_head(text, &answers.star_free, max_table, max_nodes)?;
    push_piecewise_head(text, &answers.piecewise)?;
    push_local_head(text, &answers.local, max_table)?;
    push_r_trivial_head(text, &answers.r_trivial)?;
    push_commutative_head(text, &answers.commutative)
}
