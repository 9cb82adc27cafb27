//! Products and classes on either side.
ghost use Rattle.std.specs.Prelude.{◌≡◌, ◌<◌, ◌∷◌, [], length, slice_index};
ghost use Rattle.language_theory.specs.Words.{word_at};
ghost use Rattle.language_theory.specs.ShortlexGraph.{SameNode};
ghost use Rattle.language_theory.specs.Representatives.{IsPlaceOf};
ghost use Rattle.piecewise_testable.specs.Sides.{beside};
ghost use Rattle.piecewise_testable.specs.Rounds.{labels_on};

use answers::Side;
use cayley_tables::Cayley;
use green_relations::Green;

/// The least element of the class of an element, in R on the right and in L on the left. Condition: the element is in
/// range.
pub(crate) fn class_on(side: Side, green: &Green, element: u32) -> u32
    requires { element < length green.now.r }
    ensures { result ≡ slice_index (labels_on side green.now) element }
{
    match side {
        Side::Right => green.r_class(element),
        Side::Left => green.l_class(element),
    }
}

/// The element with a letter beside it. Condition: both are in range.
pub(crate) fn with_letter(side: Side, cayley: &Cayley, element: u32, letter: u8) -> u32
    requires element { element < length cayley.now.words }
    requires letter { letter < cayley.now.right.letters }
    ensures place { IsPlaceOf (SameNode cayley.now.right) cayley.now.words
        (beside side (word_at cayley.now.words element) (letter ∷ [])) result }
    ensures within { result < length cayley.now.words }
{
    // Its contract tells that these are the graphs of a monoid.
    let _len = cayley.len();
    match side {
        Side::Right => cayley.right(element, letter),
        Side::Left => cayley.left(letter, element),
    }
}

/// The element with another one beside it. Condition: both are in range.
pub(crate) fn with_element(side: Side, cayley: &Cayley, element: u32, other: u32) -> u32
    requires element { element < length cayley.now.words }
    requires other { other < length cayley.now.words }
    ensures place { IsPlaceOf (SameNode cayley.now.right) cayley.now.words
        (beside side (word_at cayley.now.words element) (word_at cayley.now.words other)) result }
    ensures within { result < length cayley.now.words }
{
    match side {
        Side::Right => cayley.product(element, other),
        Side::Left => cayley.product(other, element),
    }
}
