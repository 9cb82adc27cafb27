//! How the elements act on the states of the minimal automaton.
ghost use Rattle.std.specs.Prelude.{◌≡◌, ◌<◌, ◌≤◌, ◌↔◌, ◌+◌, ℕ, length, IsTrue, IfOk};
ghost use Rattle.language_theory.specs.Automaton.{is_marked};
ghost use Rattle.syntactic_monoid.specs.Action.{AreStateRows, AreMarksOfStates, Part, TellApart, IsFirstBelow, taken, state_of};

use image_rows::Rows;
use std::alloc::Global;
use syn_words::Memory;

/// Where the word of each element takes each state, and which states are final. State 0 is the initial one.
#[derive(Drop)]
pub(crate) struct Action {
    pub(crate) rows: Rows,
    pub(crate) finals: Vec<bool>,
    ghost states: { AreStateRows (length finals.items) rows },
}

impl Action {
    /// The state to which the word of an element takes a state. Condition: both are in range.
    pub(crate) fn image(&self, i: u32, state: u32) -> u32
        requires element { i < length self.now.rows }
        requires state { state < length self.now.finals.items }
        ensures taken { result ≡ taken self.now.rows i state }
        ensures within { result < length self.now.finals.items }
    {
        self.rows.image(i, state)
    }

    /// For each element whether its word leads to a final state.
    pub(crate) fn marks(&self, alloc: Global) -> Result<Vec<bool>, Memory>
        ensures { IfOk result
            (λ marks. AreMarksOfStates self.now.rows self.now.finals.items marks.items) }
    {
        let mut marks = Vec::with_capacity(alloc, self.rows.len() as usize)?;
        for element in 0..self.rows.len() {
            marks.push(self.finals[self.image(element, 0) as usize])?;
        }
        Ok(marks)
    }

    /// The first element from whose state the words of i and j lead to two states. Conditions: i and j are in range,
    /// and there is one.
    pub(crate) fn first_parting(&self, i: u32, j: u32) -> u32
        requires one { i < length self.now.rows }
        requires other { j < length self.now.rows }
        requires some { (e : ℕ) × (e < length self.now.rows) × Part self.now.rows i j e }
        ensures { IsFirstBelow (length self.now.rows) (Part self.now.rows i j) result }
    {
        let mut element = 0;
        while !self.part(i, j, element) {
            element += 1;
        }
        element
    }

    /// Whether the words of i and j lead to two states from that of an element.
    fn part(&self, i: u32, j: u32, element: u32) -> bool
        requires one { i < length self.now.rows }
        requires other { j < length self.now.rows }
        requires element { element < length self.now.rows }
        ensures { IsTrue result ↔ Part self.now.rows i j element }
    {
        let state = self.image(element, 0);
        self.image(i, state) != self.image(j, state)
    }

    /// The first element whose word leads from exactly one of two states to a final state. Conditions: the states are
    /// in range, and there is one.
    pub(crate) fn first_telling_apart(&self, p: u32, q: u32) -> u32
        requires one { p < length self.now.finals.items }
        requires other { q < length self.now.finals.items }
        requires some { (e : ℕ) × (e < length self.now.rows)
            × TellApart self.now.rows self.now.finals.items p q e }
        ensures { IsFirstBelow (length self.now.rows)
            (TellApart self.now.rows self.now.finals.items p q) result }
    {
        let mut element = 0;
        while !self.tells_apart(p, q, element) {
            element += 1;
        }
        element
    }

    /// Whether the word of an element leads from exactly one of two states to a final state.
    fn tells_apart(&self, p: u32, q: u32, element: u32) -> bool
        requires one { p < length self.now.finals.items }
        requires other { q < length self.now.finals.items }
        requires element { element < length self.now.rows }
        ensures { IsTrue result ↔ TellApart self.now.rows self.now.finals.items p q element }
    {
        let one = self.finals[self.image(element, p) as usize];
        let other = self.finals[self.image(element, q) as usize];
        one != other
    }
}
