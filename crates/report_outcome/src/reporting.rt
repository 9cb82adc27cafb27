//! The report on a file.
ghost use Rattle.std.specs.Prelude.{ℕ, List, ◌≡◌, ◌≢◌, ◌≤◌, ◌↔◌, length, is_some, All, IsTrue, IfOk, IfSome, IsErrOf, OnOk, OnErr};
ghost use Rattle.std.specs.Io.KnownBytes.{Appends};
ghost use Rattle.language_theory.specs.Automaton.{Accepts};
ghost use Rattle.language_theory.specs.Congruence.{Syntactic as SyntacticCongruence};
ghost use Rattle.language_theory.specs.Nerode.{IsMinimal, accepted};
ghost use Rattle.language_theory.specs.Representatives.{HasMoreClasses};
ghost use Rattle.language_theory.specs.ShortlexGraph.{SameNode};
ghost use Rattle.syn_outside.specs.Counts.{Rose};
ghost use Rattle.automaton_file.specs.FileText.{source_text, body_text, language_of, IsBodyAutomaton, IsSource, IsSoundSource, CanBuild};
ghost use Rattle.command_line.specs.Line.{IsInRange};
ghost use Rattle.syntactic_monoid.specs.SyntacticMonoid.{IsSyntacticMonoid};
ghost use Rattle.report_sections.specs.Limits.{limits_of};
ghost use Rattle.report_sections.specs.RightAnswers.{IsTableWithin};
ghost use Rattle.report_sections.specs.Sections.{sections_of};
ghost use Rattle.report_sections.specs.Answers.{AreValues, HasNeeds, AreClassesOf, IsSayable, values_of, said_of_all};
ghost use Rattle.report_sections.specs.CommandNeeds.{NeedsElements, NeedsGreen, NeedsTable};
ghost use Rattle.report_outcome.specs.Reports.{HasMoreSubsets, IsWithin};
ghost use Rattle.report_outcome.specs.Outcome.{EndsOn, IsGivenPrefix};

use crate::ending::{Ending, Stop, Verdict};
use automata::Nfa;
use automaton_file::{Body, FileFault, Source, body_nfa, read_file};
use cayley_tables::Cayley;
use command_line::Request;
use green_relations::{Green, green_of};
use parallel_table::{Table, TableFault, fill, new_table};
use report_sections::{
    Answer, Values, answer_sections, have_limit, needs_elements, needs_green, needs_table,
    say_answers, sections_of,
};
use report_text::{Buffer, SayFault, flush};
use std::alloc::Global;
use std::thread::Threads;
use subset_minimal::{MOST_SUBSETS, MinDfa, MinFault, minimal};
use syn_outside::{Gate, Sink};
use syn_words::{Alphabet, Memory};
use syntactic_enumeration::{SynFault, syntactic_of};
use syntactic_monoid::Syntactic;

/// Writes what a request asks for about the source that the bytes spell, and says how that ended: never with
/// `CannotRead`, and with `CannotWrite` only where the output's count of faults rose. Condition: the numbers of the
/// request are in the ranges of their options.
pub fn report<R: Threads + Sync, O: Sink, G: Gate + Sync>(
    rt: &R,
    alloc: Global,
    bytes: &[u8],
    request: &Request<'_>,
    out: &mut O,
    gate: &G,
) -> Ending
    requires { IsInRange request.now }
    ensures ends { EndsOn bytes.now request.now result (O.written out.old) (O.written out.new) }
    ensures read { result ≢ Ending.CannotRead }
    ensures failed { result ≡ Ending.CannotWrite → Rose (O.faults out.old) (O.faults out.new) }
    ensures count { O.faults out.old ≤ O.faults out.new }
{
    match read_file(alloc, bytes) {
        Ok(source) => report_on_source(rt, alloc, &source, request, out, gate),
        Err(FileFault::Refused(refusal)) => Ending::Decided(Verdict::Refused {
            line: refusal.line,
            code: refusal.code,
        }),
        Err(FileFault::Memory) => Ending::NoMemory,
    }
}

/// The report on a source that a file spells. Conditions: the numbers of the request are in the ranges of their
/// options, and the source is one that is read.
fn report_on_source<R: Threads + Sync, O: Sink, G: Gate + Sync>(
    rt: &R,
    alloc: Global,
    source: &Source,
    request: &Request<'_>,
    out: &mut O,
    gate: &G,
) -> Ending
    requires range { IsInRange request.now }
    requires sound { IsSoundSource (source_text source.now) }
    requires buildable { CanBuild (length source.now.alphabet) (body_text source.now.body) }
    ensures ends { (bytes : List ℕ) → IsSource bytes (source_text source.now)
        → EndsOn bytes request.now result (O.written out.old) (O.written out.new) }
    ensures read { result ≢ Ending.CannotRead }
    ensures failed { result ≡ Ending.CannotWrite → Rose (O.faults out.old) (O.faults out.new) }
    ensures count { O.faults out.old ≤ O.faults out.new }
{
    match minimal_of(alloc, source, request.subsets) {
        Ok(dfa) => report_on_automaton(rt, alloc, source, &dfa, request, out, gate),
        Err(MinFault::SubsetLimit) => stopped(Stop::Subsets(request.subsets)),
        Err(MinFault::Memory) => Ending::NoMemory,
    }
}

/// The report on a source with its minimal automaton. Conditions: the numbers of the request are in the ranges of their
/// options, and words lead to no more sets of states than its limit of subsets.
fn report_on_automaton<R: Threads + Sync, O: Sink, G: Gate + Sync>(
    rt: &R,
    alloc: Global,
    source: &Source,
    dfa: &MinDfa,
    request: &Request<'_>,
    out: &mut O,
    gate: &G,
) -> Ending
    requires range { IsInRange request.now }
    requires minimal { IsMinimal (length source.now.alphabet) (language_of (source_text source.now))
        dfa.now }
    requires size { dfa.now.graph.size ≤ MOST_SUBSETS }
    requires few { ¬ HasMoreSubsets (source_text source.now) request.now.subsets }
    ensures ends { (bytes : List ℕ) → IsSource bytes (source_text source.now)
        → EndsOn bytes request.now result (O.written out.old) (O.written out.new) }
    ensures read { result ≢ Ending.CannotRead }
    ensures failed { result ≡ Ending.CannotWrite → Rose (O.faults out.old) (O.faults out.new) }
    ensures count { O.faults out.old ≤ O.faults out.new }
{
    let monoid = match monoid_of(rt, alloc, dfa, request, gate) {
        Ok(monoid) => monoid,
        Err(SynFault::ElementLimit) => return stopped(Stop::Elements(request.elements)),
        Err(SynFault::Memory) => return Ending::NoMemory,
    };
    let Ok(green) = classes_of(alloc, &monoid, request) else {
        return Ending::NoMemory;
    };
    let Ok(table) = table_of(rt, alloc, &monoid, request, gate) else {
        return Ending::NoMemory;
    };
    let values = Values {
        request,
        source,
        dfa,
        monoid: &monoid,
        green: &green,
        table: &table,
    };
    write_sections(alloc, &values, out)
}

/// The ending where a count passed its limit.
fn stopped(stop: Stop) -> Ending
    ensures { result ≡ Ending.Decided (Verdict.Stopped stop) }
{
    Ending::Decided(Verdict::Stopped(stop))
}

/// The minimal automaton of a source's language. The automaton of a file is lent, and that of an expression is built.
fn minimal_of(alloc: Global, source: &Source, max_subsets: u32) -> Result<MinDfa, MinFault>
    requires subsets { max_subsets ≤ MOST_SUBSETS }
    requires sound { IsSoundSource (source_text source.now) }
    requires buildable { CanBuild (length source.now.alphabet) (body_text source.now.body) }
    ensures minimal { IfOk result (λ dfa. IsMinimal (length source.now.alphabet)
        (language_of (source_text source.now)) dfa) }
    ensures size { IfOk result (λ dfa. dfa.graph.size ≤ MOST_SUBSETS) }
    ensures few { OnOk result (¬ HasMoreSubsets (source_text source.now) max_subsets) }
    ensures many { IsErrOf result MinFault.SubsetLimit
        → HasMoreSubsets (source_text source.now) max_subsets }
{
    if let Body::Nfa(nfa) = &source.body {
        return minimal_by(alloc, source, nfa, max_subsets);
    }
    let nfa = body_nfa(alloc, source)?;
    minimal_by(alloc, source, &nfa, max_subsets)
}

/// The minimal automaton of a source's language, by an automaton that is the source's.
fn minimal_by(
    alloc: Global,
    source: &Source,
    nfa: &Nfa,
    max_subsets: u32,
) -> Result<MinDfa, MinFault>
    requires subsets { max_subsets ≤ MOST_SUBSETS }
    requires sound { IsSoundSource (source_text source.now) }
    requires own { IsBodyAutomaton (length source.now.alphabet) (body_text source.now.body) nfa.now }
    requires language { (w : List ℕ) → Accepts nfa.now w ↔ language_of (source_text source.now) w }
    ensures minimal { IfOk result (λ dfa. IsMinimal (length source.now.alphabet)
        (language_of (source_text source.now)) dfa) }
    ensures size { IfOk result (λ dfa. dfa.graph.size ≤ MOST_SUBSETS) }
    ensures few { OnOk result (¬ HasMoreSubsets (source_text source.now) max_subsets) }
    ensures many { IsErrOf result MinFault.SubsetLimit
        → HasMoreSubsets (source_text source.now) max_subsets }
{
    minimal(alloc, nfa, max_subsets)
}

/// The syntactic monoid of the language that a minimal automaton accepts, if the command needs it. Conditions: the
/// automaton has at most as many states as the largest limit of subsets, and the numbers of the request are in the
/// ranges of their options.
fn monoid_of<R: Threads + Sync, G: Gate + Sync>(
    rt: &R,
    alloc: Global,
    dfa: &MinDfa,
    request: &Request<'_>,
    gate: &G,
) -> Result<Option<Syntactic>, SynFault>
    requires range { IsInRange request.now }
    requires size { dfa.now.graph.size ≤ MOST_SUBSETS }
    ensures there { NeedsElements request.now.command → IfOk result (λ m. IsTrue (is_some m)) }
    ensures syntactic { IfOk result (λ monoid. IfSome monoid (λ m.
        IsSyntacticMonoid dfa.now.graph.letters (accepted dfa.now) m)) }
    ensures few { OnOk result (NeedsElements request.now.command
        → ¬ HasMoreClasses dfa.now.graph.letters
        (SyntacticCongruence dfa.now.graph.letters (accepted dfa.now)) request.now.elements) }
    ensures needed { IsErrOf result SynFault.ElementLimit → NeedsElements request.now.command }
    ensures many { IsErrOf result SynFault.ElementLimit → HasMoreClasses dfa.now.graph.letters
        (SyntacticCongruence dfa.now.graph.letters (accepted dfa.now)) request.now.elements }
{
    if !needs_elements(request.command) {
        return Ok(None);
    }
    let monoid = syntactic_of(rt, alloc, dfa, request.elements, request.workers, gate)?;
    Ok(Some(monoid))
}

/// Green's classes of a monoid, if the command needs them.
fn classes_of(
    alloc: Global,
    monoid: &Option<Syntactic>,
    request: &Request<'_>,
) -> Result<Option<Green>, Memory>
    ensures { NeedsGreen request.now.command → IfOk result (λ green. IfSome monoid.now (λ m.
        AreClassesOf m.graphs green)) }
{
    let Some(monoid) = monoid else {
        return Ok(None);
    };
    if !needs_green(request.command) {
        return Ok(None);
    }
    let green = green_of(alloc, monoid.cayley())?;
    Ok(Some(green))
}

/// The table of a monoid's products, if the command needs it and there are no more elements than its limit. Condition:
/// the numbers of the request are in the ranges of their options.
fn table_of<R: Threads + Sync, G: Gate + Sync>(
    rt: &R,
    alloc: Global,
    monoid: &Option<Syntactic>,
    request: &Request<'_>,
    gate: &G,
) -> Result<Option<Table>, Memory>
    requires range { IsInRange request.now }
    ensures { NeedsTable request.now.command → IfOk result (λ table. IfSome monoid.now (λ m.
        IsTableWithin request.now.table (SameNode m.graphs.right) m.graphs.words table)) }
{
    let Some(monoid) = monoid else {
        return Ok(None);
    };
    if !needs_table(request.command) {
        return Ok(None);
    }
    table_within(rt, alloc, monoid.cayley(), request, gate)
}

/// The table of a monoid's products, if there are no more elements than its limit. Condition: the numbers of the
/// request are in the ranges of their options.
fn table_within<R: Threads + Sync, G: Gate + Sync>(
    rt: &R,
    alloc: Global,
    cayley: &Cayley,
    request: &Request<'_>,
    gate: &G,
) -> Result<Option<Table>, Memory>
    requires range { IsInRange request.now }
    ensures { IfOk result (λ table. IsTableWithin request.now.table (SameNode cayley.now.right)
        cayley.now.words table) }
{
    let mut table = match new_table(alloc, cayley, request.table) {
        Ok(table) => table,
        Err(TableFault::TableLimit) => return Ok(None),
        Err(TableFault::Memory) => return Err(Memory),
    };
    fill(rt, cayley, &mut table, request.workers, gate);
    Ok(Some(table))
}

/// Computes the answers of the sections that are asked for, and writes them. Conditions: the values are those of the
/// source's language, and what the sections need is there.
fn write_sections<O: Sink>(alloc: Global, values: &Values<'_, '_>, out: &mut O) -> Ending
    requires values { AreValues (values_of values.now) }
    requires needs { All (HasNeeds (values_of values.now))
        (sections_of values.now.request.now.command) }
    ensures ends { (bytes : List ℕ) → IsSource bytes (values_of values.now).source
        → IsWithin values.now.request.now (values_of values.now).source
        → EndsOn bytes values.now.request.now result (O.written out.old) (O.written out.new) }
    ensures read { result ≢ Ending.CannotRead }
    ensures failed { result ≡ Ending.CannotWrite → Rose (O.faults out.old) (O.faults out.new) }
    ensures count { O.faults out.old ≤ O.faults out.new }
{
    let sections = sections_of(&values.request.command);
    let Ok(answers) = answer_sections(alloc, sections, values) else {
        return Ending::NoMemory;
    };
    let all = answers.as_slice();
    match print(alloc, &values.source.alphabet, values.request, all, out) {
        Ok(()) => Ending::Decided(Verdict::Said {
            limited: have_limit(all),
        }),
        Err(SayFault::Write) => Ending::CannotWrite,
        Err(SayFault::Memory) => Ending::NoMemory,
    }
}

/// Writes the sections of the answers.
fn print<O: Sink>(
    alloc: Global,
    alphabet: &Alphabet,
    request: &Request<'_>,
    answers: &[Answer<'_>],
    out: &mut O,
) -> Result<(), SayFault>
    requires { All (IsSayable alphabet.now) answers.now }
    ensures whole { OnOk result (Appends (O.written out.old) (O.written out.new)
        (said_of_all alphabet.now (limits_of request.now) answers.now).text) }
    ensures cut { OnErr result (IsGivenPrefix (O.written out.old) (O.written out.new)
        (said_of_all alphabet.now (limits_of request.now) answers.now).text) }
    ensures failed { IsErrOf result SayFault.Write → Rose (O.faults out.old) (O.faults out.new) }
    ensures count { O.faults out.old ≤ O.faults out.new }
{
    let mut buffer = Buffer::new(alloc)?;
    say_answers(alloc, out, &mut buffer, alphabet, request, answers)?;
    flush(out, &mut buffer)?;
    Ok(())
}
