//! What a search through the levels of short subwords answers.
ghost use Rattle.std.specs.Prelude.{◌≡◌};
ghost use Rattle.piecewise_testable.specs.Answers.{answer_of};

use answers::PtAnswer;
use level_search::Level;

/// The answer of a search through the levels, as an answer.
pub(crate) fn level_answer(level: Level) -> PtAnswer
    ensures { result ≡ answer_of level }
{
    match level {
        Level::Yes(n) => PtAnswer::Yes(n),
        Level::Wide(n) => PtAnswer::Wide(n),
        Level::Pairs(n) => PtAnswer::Pairs(n),
        Level::NoneTo(n) => PtAnswer::NoneTo(n),
    }
}
