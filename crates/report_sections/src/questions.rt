//! The answers of the sections that ask something of the language.
ghost use Rattle.std.specs.Prelude.{◌≡◌, length, IfOk};
ghost use Rattle.report_text.specs.StarFreeSection.{is_star_free_limit};
ghost use Rattle.report_text.specs.PiecewiseSection.{is_piecewise_limit};
ghost use Rattle.report_text.specs.LocalSection.{is_local_limit};
ghost use Rattle.automaton_file.specs.FileText.{language_of};
ghost use Rattle.piecewise_testable.specs.Commuting.{IsCommutativeAnswer};
ghost use Rattle.report_sections.specs.RightAnswers.{AnswersStarFree, AnswersPiecewise, AnswersLocal, AnswersRTrivial};
ghost use Rattle.report_sections.specs.Answers.{AreValues, HasElements, HasGreen, HasTable, values_of};

use crate::answering::Values;
use answers::{CWitness, LtAnswer, PtAnswer, PtWitness, SfAnswer};
use locally_testable::local;
use piecewise_testable::{commutative, piecewise, r_trivial};
use star_free::star_free;
use std::alloc::Global;
use syn_words::Memory;

/// The answer of the section `starfree`. Conditions: the values are those of the source's language, and the monoid is
/// there, with the table of its products where it is within its limit.
pub(crate) fn answer_star_free(alloc: Global, values: &Values<'_, '_>) -> Result<SfAnswer, Memory>
    requires values { AreValues (values_of values.now) }
    requires needs { HasTable (values_of values.now) }
    ensures { IfOk result (AnswersStarFree (values_of values.now).limits
        (length (values_of values.now).source.letters) (language_of (values_of values.now).source)) }
{
    let (monoid, table) = values.products();
    let answer = star_free(alloc, monoid, table, values.request.nodes)?;
    Ok(answer)
}

/// The answer of the section `piecewise`. Conditions: the values are those of the source's language, and the monoid and
/// its classes are there.
pub(crate) fn answer_piecewise(alloc: Global, values: &Values<'_, '_>) -> Result<PtAnswer, Memory>
    requires values { AreValues (values_of values.now) }
    requires needs { HasGreen (values_of values.now) }
    ensures { IfOk result (AnswersPiecewise (values_of values.now).limits
        (length (values_of values.now).source.letters) (language_of (values_of values.now).source)) }
{
    let (monoid, green) = values.classes();
    let limits = values.request;
    let answer = piecewise(alloc, monoid, green, values.dfa, limits.level, limits.pairs)?;
    Ok(answer)
}

/// The answer of the section `local`. Conditions: the values are those of the source's language, and the monoid is
/// there, with the table of its products where it is within its limit.
pub(crate) fn answer_local(alloc: Global, values: &Values<'_, '_>) -> Result<LtAnswer, Memory>
    requires values { AreValues (values_of values.now) }
    requires needs { HasTable (values_of values.now) }
    ensures { IfOk result (AnswersLocal (values_of values.now).limits
        (length (values_of values.now).source.letters) (language_of (values_of values.now).source)) }
{
    let (monoid, table) = values.products();
    let limits = values.request;
    let answer = local(alloc, monoid, table, values.dfa, limits.level, limits.pairs)?;
    Ok(answer)
}

/// The answer of the section `rtrivial`. Conditions: the values are those of the source's language, and the monoid and
/// its classes are there.
pub(crate) fn answer_r_trivial(
    alloc: Global,
    values: &Values<'_, '_>,
) -> Result<Option<PtWitness>, Memory>
    requires values { AreValues (values_of values.now) }
    requires needs { HasGreen (values_of values.now) }
    ensures { IfOk result (AnswersRTrivial (values_of values.now).limits
        (length (values_of values.now).source.letters) (language_of (values_of values.now).source)) }
{
    let (monoid, green) = values.classes();
    let answer = r_trivial(alloc, monoid, green)?;
    Ok(answer)
}

/// The answer of the section `commutative`. Conditions: the values are those of the source's language, and the monoid
/// is there.
pub(crate) fn answer_commutative(
    alloc: Global,
    values: &Values<'_, '_>,
) -> Result<Option<CWitness>, Memory>
    requires values { AreValues (values_of values.now) }
    requires needs { HasElements (values_of values.now) }
    ensures { IfOk result (IsCommutativeAnswer (length (values_of values.now).source.letters)
        (language_of (values_of values.now).source)) }
{
    let answer = commutative(alloc, values.elements())?;
    Ok(answer)
}

/// Whether the answer of the section `starfree` is a limit.
pub(crate) fn is_star_free_limit(answer: &SfAnswer) -> bool
    ensures { result ≡ is_star_free_limit answer.now }
{
    match answer {
        SfAnswer::Yes(_) | SfAnswer::No(_) => false,
        SfAnswer::TableLimit | SfAnswer::Depth | SfAnswer::Nodes => true,
    }
}

/// Whether the answer of the section `piecewise` is a limit.
pub(crate) fn is_piecewise_limit(answer: &PtAnswer) -> bool
    ensures { result ≡ is_piecewise_limit answer.now }
{
    match answer {
        PtAnswer::Yes(_) | PtAnswer::No(_) => false,
        PtAnswer::Wide(_) | PtAnswer::Pairs(_) | PtAnswer::NoneTo(_) => true,
    }
}

/// Whether the answer of the section `local` is a limit.
pub(crate) fn is_local_limit(answer: &LtAnswer) -> bool
    ensures { result ≡ is_local_limit answer.now }
{
    match answer {
        LtAnswer::Yes(_) | LtAnswer::No(_) => false,
        LtAnswer::TableLimit
        | LtAnswer::WorkLimit
        | LtAnswer::Wide(_)
        | LtAnswer::Pairs(_)
        | LtAnswer::NoneTo(_) => true,
    }
}
