//! Green's classes and the idempotents of a finite monoid.
ghost use Rattle.std.specs.Prelude.{◌≡◌, ◌<◌, ◌≤◌, ◌↔◌, ℕ, IsTrue, length, slice_index, IfOk};
ghost use Rattle.language_theory.specs.Words.{word_at};
ghost use Rattle.language_theory.specs.Automaton.{is_marked};
ghost use Rattle.language_theory.specs.ShortlexGraph.{SameNode};
ghost use Rattle.monoid_theory.specs.Green.{IsIdempotent};
ghost use Rattle.green_relations.specs.GreenClasses.{AreGreens};
ghost use Rattle.green_relations.specs.Classes.{AreClasses};

use crate::pairs::pair_mates;
use cayley_tables::{Cayley, MOST_ELEMENTS};
use components::{side_by_side, strong_components};
use std::alloc::Global;
use std::marker::Model;
use syn_words::Memory;

/// Green's classes of a finite monoid with at most `MOST_ELEMENTS` elements. Its value is the record
/// `GreenClasses`: for each element the least element of its class, for R, L, J and H, and whether
/// it is idempotent.
#[derive(Debug, Drop)]
pub struct Green {
    r: Vec<u32>,
    l: Vec<u32>,
    j: Vec<u32>,
    h: Vec<u32>,
    idempotents: Vec<bool>,
}

impl Model for Green {
    ghost use Rattle.green_relations.specs.GreenClasses.{GreenClasses};
    ghost use Rattle.green_relations.specs.Classes.{AreClasses};

    ghost Value = { GreenClasses };

    ghost view = { λ g. record {
      r = g.r.items;
      l = g.l.items;
      j = g.j.items;
      h = g.h.items;
      idempotents = g.idempotents.items;
    } };

    ghost invariant = { λ g. AreClasses
        (record {
          r = g.r.items;
          l = g.l.items;
          j = g.j.items;
          h = g.h.items;
          idempotents = g.idempotents.items;
        }) };
}

impl Green {
    /// The number of elements, at most `MOST_ELEMENTS`.
    pub fn len(&self) -> u32
        ensures len { result ≡ length self.now.r }
        ensures few { result ≤ MOST_ELEMENTS }
        ensures classes { AreClasses self.now }
    {
        self.r.len() as u32
    }

    /// The least element of the R-class of an element. Condition: the element is in range.
    pub fn r_class(&self, i: u32) -> u32
        requires { i < length self.now.r }
        ensures { result ≡ slice_index self.now.r i }
    {
        self.r[i as usize]
    }

    /// The least element of the L-class of an element. Condition: the element is in range.
    pub fn l_class(&self, i: u32) -> u32
        requires { i < length self.now.r }
        ensures { result ≡ slice_index self.now.l i }
    {
        self.l[i as usize]
    }

    /// The least element of the J-class of an element. Condition: the element is in range.
    pub fn j_class(&self, i: u32) -> u32
        requires { i < length self.now.r }
        ensures { result ≡ slice_index self.now.j i }
    {
        self.j[i as usize]
    }

    /// The least element of the H-class of an element. Condition: the element is in range.
    pub fn h_class(&self, i: u32) -> u32
        requires { i < length self.now.r }
        ensures { result ≡ slice_index self.now.h i }
    {
        self.h[i as usize]
    }

    /// The least element of each element's R-class.
    pub(crate) fn r_labels(&self) -> &[u32]
        ensures { result.now ≡ self.now.r }
    {
        self.r.as_slice()
    }

    /// The least element of each element's L-class.
    pub(crate) fn l_labels(&self) -> &[u32]
        ensures { result.now ≡ self.now.l }
    {
        self.l.as_slice()
    }

    /// The least element of each element's J-class.
    pub(crate) fn j_labels(&self) -> &[u32]
        ensures { result.now ≡ self.now.j }
    {
        self.j.as_slice()
    }

    /// Whether an element is idempotent. Condition: the element is in range.
    pub fn is_idempotent(&self, i: u32) -> bool
        requires { i < length self.now.r }
        ensures { result ≡ is_marked self.now.idempotents i }
    {
        self.idempotents[i as usize]
    }
}

/// Green's classes and the idempotents of a finite monoid. The classes take a time that is linear
/// in the number of elements and letters, the idempotents one that is linear in the lengths of the
/// least words.
pub fn green_of(alloc: Global, cayley: &Cayley) -> Result<Green, Memory>
    ensures green { IfOk result (λ g. AreGreens cayley.now.right.letters (SameNode cayley.now.right)
        cayley.now.words g) }
{
    let size = cayley.len();
    let letters = cayley.letters();
    let right = cayley.right_targets();
    let left = cayley.left_targets();
    let both = side_by_side(alloc, size, letters, right, letters, left)?;
    let r = strong_components(alloc, size, letters, right)?;
    let l = strong_components(alloc, size, letters, left)?;
    let j = strong_components(alloc, size, letters + letters, &both)?;
    let h = pair_mates(alloc, &r, &l)?;
    let idempotents = idempotents_of(alloc, cayley)?;
    Ok(Green {
        r,
        l,
        j,
        h,
        idempotents,
    })
}

/// Whether each element is its own square.
fn idempotents_of(alloc: Global, cayley: &Cayley) -> Result<Vec<bool>, Memory>
    ensures long { IfOk result (λ marks. length marks.items ≡ length cayley.now.words) }
    ensures marks { IfOk result (λ marks. (i : ℕ) → i < length cayley.now.words
        → IsTrue (is_marked marks.items i)
        ↔ IsIdempotent (SameNode cayley.now.right) (word_at cayley.now.words i)) }
{
    let mut marks = Vec::with_capacity(alloc, cayley.len() as usize)?;
    for element in 0..cayley.len() {
        marks.push(cayley.product(element, element) == element)?;
    }
    Ok(marks)
}
