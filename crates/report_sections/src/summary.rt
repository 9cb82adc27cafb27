//! The parts of the section `summary`: counts of a language, and the answers of which the first lines are said.
ghost use Rattle.std.specs.Prelude.{◌≡◌, length, IfOk};
ghost use Rattle.automaton_file.specs.FileText.{language_of};
ghost use Rattle.report_sections.specs.RightAnswers.{AnswersAll, AreCounts, is_summary_limit};
ghost use Rattle.report_sections.specs.Answers.{AreValues, HasElements, HasGreen, HasTable, values_of};

use crate::answering::Values;
use crate::questions::{
    answer_commutative, answer_local, answer_piecewise, answer_r_trivial, answer_star_free,
    is_local_limit, is_piecewise_limit, is_star_free_limit,
};
use green_relations::boxes_of;
use presentation::rules_of;
use report_text::{Counts, Summary, idempotents_of};
use std::alloc::Global;
use syn_words::Memory;

/// The answers of the section `summary`. Conditions: the values are those of the source's language, and the monoid and
/// its classes are there, with the table of its products where it is within its limit.
pub(crate) fn answer_summary(alloc: Global, values: &Values<'_, '_>) -> Result<Summary, Memory>
    requires values { AreValues (values_of values.now) }
    requires elements { HasElements (values_of values.now) }
    requires green { HasGreen (values_of values.now) }
    requires table { HasTable (values_of values.now) }
    ensures { IfOk result (AnswersAll (values_of values.now).limits
        (length (values_of values.now).source.letters) (language_of (values_of values.now).source)) }
{
    let star_free = answer_star_free(alloc, values)?;
    let piecewise = answer_piecewise(alloc, values)?;
    let local = answer_local(alloc, values)?;
    let r_trivial = answer_r_trivial(alloc, values)?;
    let commutative = answer_commutative(alloc, values)?;
    Ok(Summary {
        star_free,
        piecewise,
        local,
        r_trivial,
        commutative,
    })
}

/// The counts of the language. Conditions: the values are those of the source's language, and the monoid and its
/// classes are there.
pub(crate) fn counts_of(alloc: Global, values: &Values<'_, '_>) -> Result<Counts, Memory>
    requires values { AreValues (values_of values.now) }
    requires green { HasGreen (values_of values.now) }
    ensures { IfOk result (AreCounts (values_of values.now).limits
        (length (values_of values.now).source.letters) (language_of (values_of values.now).source)) }
{
    let (monoid, green) = values.classes();
    let rules = rules_of(alloc, monoid.cayley())?;
    let boxes = boxes_of(alloc, green)?;
    Ok(Counts {
        size: values.request.size,
        states: values.dfa.len(),
        elements: monoid.cayley().len(),
        rules: rules.len(),
        boxes: boxes.len(),
        idempotents: idempotents_of(green),
    })
}

/// Whether one of the answers is a limit.
pub(crate) fn is_summary_limit(answers: &Summary) -> bool
    ensures { result ≡ is_summary_limit answers.now }
{
    is_star_free_limit(&answers.star_free)
        || is_piecewise_limit(&answers.piecewise)
        || is_local_limit(&answers.local)
}
