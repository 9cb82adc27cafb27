//! Elements that a letter leads to another element of their class, and a word leads back.
ghost use Rattle.std.specs.Prelude.{◌<◌, ◌↔◌, List, ℕ, length, IsTrue, IfSome, MatchOption};
ghost use Rattle.language_theory.specs.Words.{Over, word_at};
ghost use Rattle.language_theory.specs.ShortlexGraph.{SameNode};
ghost use Rattle.language_theory.specs.Languages.{IsLeastWord};
ghost use Rattle.green_relations.specs.GreenClasses.{AreGreens};
ghost use Rattle.piecewise_testable.specs.Sides.{IsTrivialOn, HasOther, Moves, Leads, IsLeastLetter};
ghost use Rattle.piecewise_testable.specs.Rounds.{IsRoundOf};

use crate::sides::{class_on, with_element, with_letter};
use answers::Side;
use cayley_tables::Cayley;
use green_relations::Green;

/// An element, the letter that leads from it to another element of its class, that element, and the element that leads
/// back.
#[derive(Clone, Copy)]
pub(crate) struct Round {
    pub(crate) element: u32,
    pub(crate) letter: u8,
    pub(crate) moved: u32,
    pub(crate) back: u32,
}

/// The round of the least element with another one in its class on a side, if there is one. Condition: the classes are
/// those of the graphs.
pub(crate) fn first_round(side: Side, cayley: &Cayley, green: &Green) -> Option<Round>
    requires { AreGreens cayley.now.right.letters (SameNode cayley.now.right) cayley.now.words
        green.now }
    ensures { MatchOption result
        (IsTrivialOn side cayley.now.right.letters (SameNode cayley.now.right))
        (λ r. IsRoundOf side cayley.now.right.letters (SameNode cayley.now.right)
        cayley.now.words r) }
{
    // Its contract tells that these are the graphs of a monoid.
    let _len = cayley.len();
    let element = first_other(side, cayley, green)?;
    let letter = first_letter(side, cayley, green, element);
    let moved = with_letter(side, cayley, element, letter);
    let back = first_back(side, cayley, moved, element);
    Some(Round {
        element,
        letter,
        moved,
        back,
    })
}

/// The least element with another one in its class, if there is one.
fn first_other(side: Side, cayley: &Cayley, green: &Green) -> Option<u32>
    requires { AreGreens cayley.now.right.letters (SameNode cayley.now.right) cayley.now.words
        green.now }
    ensures within { IfSome result (λ i. i < length cayley.now.words) }
    ensures other { MatchOption result
        (IsTrivialOn side cayley.now.right.letters (SameNode cayley.now.right))
        (λ i. IsLeastWord cayley.now.right.letters
        (HasOther side cayley.now.right.letters (SameNode cayley.now.right))
        (word_at cayley.now.words i)) }
{
    let mut first = cayley.len();
    for element in 0..cayley.len() {
        let least = class_on(side, green, element);
        if least < element {
            first = first.min(least);
        }
    }
    if first < cayley.len() {
        Some(first)
    } else {
        None
    }
}

/// The least letter that leads from an element to another one of its class. Conditions: the element is in range, and
/// has another one in its class.
fn first_letter(side: Side, cayley: &Cayley, green: &Green, element: u32) -> u8
    requires green { AreGreens cayley.now.right.letters (SameNode cayley.now.right)
        cayley.now.words green.now }
    requires element { element < length cayley.now.words }
    requires other { HasOther side cayley.now.right.letters (SameNode cayley.now.right)
        (word_at cayley.now.words element) }
    ensures { IsLeastLetter cayley.now.right.letters
        (Moves side cayley.now.right.letters (SameNode cayley.now.right)
        (word_at cayley.now.words element)) result }
{
    // Their contracts tell that these are the graphs of a monoid, with few letters.
    let _len = cayley.len();
    let _letters = cayley.letters();
    let mut letter = 0;
    while !moves(side, cayley, green, element, letter) {
        letter += 1;
    }
    letter
}

/// Whether a letter leads from an element to another one of its class. Condition: both are in range.
fn moves(side: Side, cayley: &Cayley, green: &Green, element: u32, letter: u8) -> bool
    requires green { AreGreens cayley.now.right.letters (SameNode cayley.now.right)
        cayley.now.words green.now }
    requires element { element < length cayley.now.words }
    requires letter { letter < cayley.now.right.letters }
    ensures { IsTrue result
        ↔ Moves side cayley.now.right.letters (SameNode cayley.now.right)
        (word_at cayley.now.words element) letter }
{
    // Its contract tells that these are the graphs of a monoid.
    let _len = cayley.len();
    let moved = with_letter(side, cayley, element, letter);
    moved != element && class_on(side, green, moved) == class_on(side, green, element)
}

/// The element of the least word that leads from one element to another one. Conditions: both are in range, and some
/// word does.
fn first_back(side: Side, cayley: &Cayley, from: u32, to: u32) -> u32
    requires from { from < length cayley.now.words }
    requires to { to < length cayley.now.words }
    requires some { (x : List ℕ) × Over cayley.now.right.letters x
        × Leads side (SameNode cayley.now.right) (word_at cayley.now.words from)
        (word_at cayley.now.words to) x }
    ensures within { result < length cayley.now.words }
    ensures least { IsLeastWord cayley.now.right.letters
        (Leads side (SameNode cayley.now.right) (word_at cayley.now.words from)
        (word_at cayley.now.words to))
        (word_at cayley.now.words result) }
{
    // Its contract tells that these are the graphs of a monoid.
    let _len = cayley.len();
    let mut element = 0;
    while with_element(side, cayley, from, element) != to {
        element += 1;
    }
    element
}
