//! The longest chain of two-sided ideals, and the level of Simon's theorem.
ghost use Rattle.std.specs.Prelude.{◌≡◌, ◌<◌, ◌≤◌, ◌-◌, ◌*◌, ◌↔◌, length, slice_index, IsTrue};
ghost use Rattle.std.specs.Prelude.{IfOk};
ghost use Rattle.language_theory.specs.ShortlexGraph.{SameNode};
ghost use Rattle.monoid_theory.specs.Green.{IsJTrivial};
ghost use Rattle.green_relations.specs.GreenClasses.{AreGreens};
ghost use Rattle.green_relations.specs.Chains.{IsLongestChain};

use crate::descent::descend;
use crate::heights::heights_of;
use crate::steps::steps_of;
use cayley_tables::{Cayley, MOST_ELEMENTS};
use green_relations::Green;
use std::alloc::Global;
use std::marker::Model;
use syn_words::Memory;

/// A chain of two-sided ideals of a finite monoid, each inside the one before. Its value is the list of the elements
/// that generate them.
#[derive(Debug, Drop)]
pub struct JChain {
    elements: Vec<u32>,
}

impl Model for JChain {
    ghost use Rattle.std.specs.Prelude.{◌≤◌, ℕ, List, length};
    ghost use Rattle.cayley_tables.specs.declared.limits.TheConstants.{MOST_ELEMENTS};

    ghost Value = { List ℕ };

    ghost view = { λ c. c.elements.items };

    ghost invariant = { λ c. (1 ≤ length c.elements.items)
        × (length c.elements.items ≤ MOST_ELEMENTS) };
}

impl JChain {
    /// The number of elements, from 1 to `MOST_ELEMENTS`.
    pub fn len(&self) -> u32
        ensures len { result ≡ length self.now }
        ensures some { 1 ≤ result }
        ensures few { result ≤ MOST_ELEMENTS }
    {
        self.elements.len() as u32
    }

    /// The element at a place. Condition: the place is in range.
    pub fn at(&self, place: u32) -> u32
        requires { place < length self.now }
        ensures { result ≡ slice_index self.now place }
    {
        self.elements[place as usize]
    }
}

/// The longest chain of two-sided ideals of a finite monoid: of the chains with the greatest number of elements the
/// least as a list. Takes a time that is linear in the number of elements and letters. Condition: the classes are those
/// of the graphs.
pub fn longest_chain(alloc: Global, cayley: &Cayley, green: &Green) -> Result<JChain, Memory>
    requires green { AreGreens cayley.now.right.letters (SameNode cayley.now.right)
        cayley.now.words green.now }
    ensures { IfOk result (λ c. IsLongestChain cayley.now.right.letters (SameNode cayley.now.right)
        cayley.now.words c) }
{
    let nodes = cayley.len();
    let steps = steps_of(alloc, cayley, green)?;
    let heights = heights_of(alloc, nodes, &steps)?;
    let elements = descend(alloc, nodes, &steps, heights.as_slice())?;
    Ok(JChain { elements })
}

/// Whether each class of J has one element. Condition: the classes are those of the graphs.
pub fn j_trivial(cayley: &Cayley, green: &Green) -> bool
    requires green { AreGreens cayley.now.right.letters (SameNode cayley.now.right)
        cayley.now.words green.now }
    ensures { IsTrue result ↔ IsJTrivial cayley.now.right.letters (SameNode cayley.now.right) }
{
    for element in 0..cayley.len() {
        if green.j_class(element) != element {
            return false;
        }
    }
    true
}

/// The level that suffices for a language whose monoid is J-trivial and has this longest chain (Simon 1975).
pub fn simon_level(chain: &JChain) -> u32
    ensures { result ≡ 2 * length chain.now - 1 }
{
    2 * chain.len() - 1
}
