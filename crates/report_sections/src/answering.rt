//! What is computed for a request, and the answers of its sections.
ghost use Rattle.std.specs.Prelude.{◌≡◌, map, option_map, All, IfOk};
ghost use Rattle.std.specs.List.{list_any};
ghost use Rattle.language_theory.specs.ShortlexGraph.{SameNode};
ghost use Rattle.automaton_file.specs.FileText.{language_of};
ghost use Rattle.command_line.specs.declared.commands.Command.TheVariants as command;
ghost use Rattle.report_sections.specs.RightAnswers.{IsTableWithin};
ghost use Rattle.report_sections.specs.Sections.{IsSection, AreSections};
ghost use Rattle.report_sections.specs.Answers.{AreValues, HasNeeds, HasElements, HasGreen, HasTable, IsMonoidOf, AreGreensOf, IsSayable, is_limit, values_of, said_of};

use crate::questions::{
    answer_commutative, answer_local, answer_piecewise, answer_r_trivial, answer_star_free,
    is_local_limit, is_piecewise_limit, is_star_free_limit,
};
use crate::summary::{answer_summary, counts_of, is_summary_limit};
use answers::{CWitness, LtAnswer, PtAnswer, PtWitness, SfAnswer};
use automaton_file::Source;
use command_line::{Command, Request};
use green_relations::{Boxes, Green, boxes_of};
use parallel_table::Table;
use presentation::{Rules, rules_of};
use report_text::{Counts, Summary};
use simon_bound::{JChain, j_trivial, longest_chain};
use std::alloc::Global;
use subset_minimal::MinDfa;
use syn_words::Memory;
use syntactic_monoid::Syntactic;

/// What is computed once for a request and lent to its sections.
#[derive(Clone, Copy)]
pub struct Values<'a, 'w> {
    /// What is asked for, and within which limits.
    pub request: &'a Request<'w>,
    /// What the file spells.
    pub source: &'a Source,
    /// The minimal automaton of its language.
    pub dfa: &'a MinDfa,
    /// The syntactic monoid of its language, if the command needs it.
    pub monoid: &'a Option<Syntactic>,
    /// Green's classes of the monoid, if the command needs them.
    pub green: &'a Option<Green>,
    /// The table of its products, if the command needs it and it is within its limit.
    pub table: &'a Option<Table>,
}

impl<'a> Values<'a, '_> {
    /// The syntactic monoid. Conditions: the values are those of the source's language, and it is there.
    pub(crate) fn elements(&self) -> &'a Syntactic
        requires values { AreValues (values_of self.now) }
        requires needs { HasElements (values_of self.now) }
        ensures { IsMonoidOf (values_of self.now) result.now }
    {
        self.monoid.as_ref().unwrap()
    }

    /// The syntactic monoid and its classes. Conditions: the values are those of the source's language, and they are
    /// there.
    pub(crate) fn classes(&self) -> (&'a Syntactic, &'a Green)
        requires values { AreValues (values_of self.now) }
        requires needs { HasGreen (values_of self.now) }
        ensures monoid { IsMonoidOf (values_of self.now) result.0.now }
        ensures green { AreGreensOf result.0.now.graphs result.1.now }
    {
        let monoid = self.monoid.as_ref().unwrap();
        let green = self.green.as_ref().unwrap();
        (monoid, green)
    }

    /// The syntactic monoid and the table of its products, or none where it is above its limit. Conditions: the values
    /// are those of the source's language, and the monoid and such a table are there.
    pub(crate) fn products(&self) -> (&'a Syntactic, Option<&'a Table>)
        requires values { AreValues (values_of self.now) }
        requires needs { HasTable (values_of self.now) }
        ensures monoid { IsMonoidOf (values_of self.now) result.0.now }
        ensures table { IsTableWithin (values_of self.now).limits.table
            (SameNode result.0.now.graphs.right) result.0.now.graphs.words
            (option_map (λ t. t.now) result.1) }
    {
        let monoid = self.monoid.as_ref().unwrap();
        (monoid, self.table.as_ref())
    }
}

/// What a section has to tell, with what it is told of.
#[derive(Drop)]
pub enum Answer<'a> {
    /// The minimal automaton.
    Automaton(&'a MinDfa),
    /// The syntactic monoid, and its rules.
    Monoid(&'a Syntactic, Rules),
    /// The syntactic monoid, Green's classes, and its egg-box diagram.
    Green(&'a Syntactic, &'a Green, Boxes),
    /// A star-free list of the language, words whose powers never settle, or a limit.
    StarFree(SfAnswer),
    /// From which length on subwords tell the language, words that no length tells apart, or a limit.
    Piecewise(PtAnswer),
    /// From which length on factors tell the language, words that no length tells apart, or a limit.
    Local(LtAnswer),
    /// Words that show that the syntactic monoid is not R-trivial, if there are any.
    RTrivial(Option<PtWitness>),
    /// Letters that show that the syntactic monoid is not commutative, if there are any.
    Commutative(Option<CWitness>),
    /// The syntactic monoid, a longest chain of its ideals, and whether it is J-trivial.
    Bound(&'a Syntactic, JChain, bool),
    /// The products of all elements.
    Table(&'a Table),
    /// That there are more elements than the limit of the table.
    TableLimit,
    /// The counts of a generated file's language, and the answers of which the first lines are said.
    Summary(Counts, Summary),
}

impl Answer<'_> {
    /// Whether it is a limit.
    fn is_limit(&self) -> bool
        ensures { result ≡ is_limit self.now }
    {
        match self {
            Answer::StarFree(answer) => is_star_free_limit(answer),
            Answer::Piecewise(answer) => is_piecewise_limit(answer),
            Answer::Local(answer) => is_local_limit(answer),
            Answer::TableLimit => true,
            Answer::Summary(_, answers) => is_summary_limit(answers),
            _ => false,
        }
    }
}

/// Whether one of the answers is a limit.
pub fn have_limit(answers: &[Answer<'_>]) -> bool
    ensures { result ≡ list_any is_limit answers.now }
{
    answers.iter().any(|answer| answer.is_limit())
}

/// The answers of sections, in their order. Conditions: the values are those of the source's language, and what the
/// sections need is there. Fault: want of memory.
pub fn answer_sections<'a>(
    alloc: Global,
    sections: &[Command],
    values: &Values<'a, '_>,
) -> Result<Vec<Answer<'a>>, Memory>
    requires values { AreValues (values_of values.now) }
    requires needs { All (HasNeeds (values_of values.now)) sections.now }
    ensures sayable { IfOk result
        (λ answers. All (IsSayable (values_of values.now).source.letters) answers.items) }
    ensures said { IfOk result (λ answers. AreSections sections.now (values_of values.now).limits
        (values_of values.now).source.letters (language_of (values_of values.now).source)
        (map (said_of (values_of values.now).source.letters (values_of values.now).limits)
        answers.items)) }
{
    let mut answers = Vec::with_capacity(alloc, sections.len())?;
    for section in sections {
        answers.push(answer_section(alloc, *section, values)?)?;
    }
    Ok(answers)
}

/// The answer of a section. Conditions: the values are those of the source's language, it is a section, and what it
/// needs is there.
fn answer_section<'a>(
    alloc: Global,
    section: Command,
    values: &Values<'a, '_>,
) -> Result<Answer<'a>, Memory>
    requires values { AreValues (values_of values.now) }
    requires needs { HasNeeds (values_of values.now) section }
    ensures sayable { IfOk result (IsSayable (values_of values.now).source.letters) }
    ensures said { IfOk result (λ answer. IsSection section (values_of values.now).limits
        (values_of values.now).source.letters (language_of (values_of values.now).source)
        (said_of (values_of values.now).source.letters (values_of values.now).limits answer)) }
{
    match section {
        Command::Automaton => Ok(Answer::Automaton(values.dfa)),
        Command::Monoid => answer_monoid(alloc, values),
        Command::Green => answer_green(alloc, values),
        Command::StarFree => Ok(Answer::StarFree(answer_star_free(alloc, values)?)),
        Command::Piecewise => Ok(Answer::Piecewise(answer_piecewise(alloc, values)?)),
        Command::Local => Ok(Answer::Local(answer_local(alloc, values)?)),
        Command::RTrivial => Ok(Answer::RTrivial(answer_r_trivial(alloc, values)?)),
        Command::Commutative => Ok(Answer::Commutative(answer_commutative(alloc, values)?)),
        Command::Bound => answer_bound(alloc, values),
        Command::Table => Ok(answer_table(values)),
        Command::Generate => {
            let counts = counts_of(alloc, values)?;
            let answers = answer_summary(alloc, values)?;
            Ok(Answer::Summary(counts, answers))
        }
        Command::Report => unreachable!(),
    }
}

/// The answer of the section `monoid`. Conditions: the values are those of the source's language, and the monoid is
/// there.
fn answer_monoid<'a>(alloc: Global, values: &Values<'a, '_>) -> Result<Answer<'a>, Memory>
    requires values { AreValues (values_of values.now) }
    requires needs { HasElements (values_of values.now) }
    ensures sayable { IfOk result (IsSayable (values_of values.now).source.letters) }
    ensures said { IfOk result (λ answer. IsSection command.Monoid (values_of values.now).limits
        (values_of values.now).source.letters (language_of (values_of values.now).source)
        (said_of (values_of values.now).source.letters (values_of values.now).limits answer)) }
{
    let monoid = values.elements();
    let rules = rules_of(alloc, monoid.cayley())?;
    Ok(Answer::Monoid(monoid, rules))
}

/// The answer of the section `green`. Conditions: the values are those of the source's language, and the monoid and its
/// classes are there.
fn answer_green<'a>(alloc: Global, values: &Values<'a, '_>) -> Result<Answer<'a>, Memory>
    requires values { AreValues (values_of values.now) }
    requires needs { HasGreen (values_of values.now) }
    ensures sayable { IfOk result (IsSayable (values_of values.now).source.letters) }
    ensures said { IfOk result (λ answer. IsSection command.Green (values_of values.now).limits
        (values_of values.now).source.letters (language_of (values_of values.now).source)
        (said_of (values_of values.now).source.letters (values_of values.now).limits answer)) }
{
    let (monoid, green) = values.classes();
    let boxes = boxes_of(alloc, green)?;
    Ok(Answer::Green(monoid, green, boxes))
}

/// The answer of the section `bound`. Conditions: the values are those of the source's language, and the monoid and its
/// classes are there.
fn answer_bound<'a>(alloc: Global, values: &Values<'a, '_>) -> Result<Answer<'a>, Memory>
    requires values { AreValues (values_of values.now) }
    requires needs { HasGreen (values_of values.now) }
    ensures sayable { IfOk result (IsSayable (values_of values.now).source.letters) }
    ensures said { IfOk result (λ answer. IsSection command.Bound (values_of values.now).limits
        (values_of values.now).source.letters (language_of (values_of values.now).source)
        (said_of (values_of values.now).source.letters (values_of values.now).limits answer)) }
{
    let (monoid, green) = values.classes();
    let cayley = monoid.cayley();
    let chain = longest_chain(alloc, cayley, green)?;
    let trivial = j_trivial(cayley, green);
    Ok(Answer::Bound(monoid, chain, trivial))
}

/// The answer of the section `table`. Conditions: the values are those of the source's language, and the monoid is
/// there, with the table of its products where it is within its limit.
fn answer_table<'a>(values: &Values<'a, '_>) -> Answer<'a>
    requires values { AreValues (values_of values.now) }
    requires needs { HasTable (values_of values.now) }
    ensures sayable { IsSayable (values_of values.now).source.letters result }
    ensures said { IsSection command.Table (values_of values.now).limits
        (values_of values.now).source.letters (language_of (values_of values.now).source)
        (said_of (values_of values.now).source.letters (values_of values.now).limits result) }
{
    let (_, table) = values.products();
    match table {
        Some(table) => Answer::Table(table),
        None => Answer::TableLimit,
    }
}
