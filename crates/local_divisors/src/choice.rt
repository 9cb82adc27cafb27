//! The letter that an instance is cut at, and the elements of the two instances made from it.
ghost use Rattle.std.specs.Prelude.{◌≡◌, ◌<◌, eqb, length, slice_index, IfOk};
ghost use Rattle.star_free_theory.specs.Construction.{is_none_left};
ghost use Rattle.local_divisors.specs.Tasks.{Flat, IsReady, IsChosen};

use crate::instances::{Product, chosen, divisor, marked, others, span_marks};
use std::alloc::Global;
use std::marker::Model;
use syn_words::Memory;

/// An instance: its elements, and its letters with tables of their images and nodes.
#[derive(Drop)]
pub(crate) struct Task {
    pub(crate) elements: Vec<u32>,
    pub(crate) identity: u32,
    pub(crate) letters: Vec<u32>,
    pub(crate) images: Vec<u32>,
    pub(crate) nodes: Vec<u32>,
    pub(crate) universe: u32,
}

impl Model for Task {
    ghost use Rattle.local_divisors.specs.Tasks.{Flat};

    ghost Value = { Flat };

    ghost view = { λ t. record {
      elements = t.elements.items;
      identity = t.identity;
      letters = t.letters.items;
      images = t.images.items;
      nodes = t.nodes.items;
      universe = t.universe;
    } };
}

impl Task {
    /// Whether there is one element.
    pub(crate) fn is_single(&self) -> bool
        ensures { result ≡ eqb (length self.now.elements) 1 }
    {
        self.elements.len() == 1
    }

    /// The elements, in order.
    pub(crate) fn elements(&self) -> &[u32]
        ensures { result.now ≡ self.now.elements }
    {
        self.elements.as_slice()
    }

    /// The identity.
    fn identity(&self) -> u32
        ensures { result ≡ self.now.identity }
    {
        self.identity
    }

    /// The letters, in order.
    fn letters(&self) -> &[u32]
        ensures { result.now ≡ self.now.letters }
    {
        self.letters.as_slice()
    }

    /// The table of the images.
    fn images(&self) -> &[u32]
        ensures { result.now ≡ self.now.images }
    {
        self.images.as_slice()
    }

    /// The image of a letter. Condition: it has one.
    pub(crate) fn image(&self, letter: u32) -> u32
        requires { letter < length self.now.images }
        ensures { result ≡ slice_index self.now.images letter }
    {
        self.images[letter as usize]
    }

    /// The node of a letter. Condition: it has one.
    pub(crate) fn node(&self, letter: u32) -> u32
        requires { letter < length self.now.nodes }
        ensures { result ≡ slice_index self.now.nodes letter }
    {
        self.nodes[letter as usize]
    }

    /// The node of the universe.
    pub(crate) fn universe(&self) -> u32
        ensures { result ≡ self.now.universe }
    {
        self.universe
    }
}

/// The chosen letter, the others, the submonoid that their images generate, and the local divisor at its image.
#[derive(Drop)]
pub(crate) struct Choice {
    pub(crate) letter: u32,
    pub(crate) others: Vec<u32>,
    pub(crate) submonoid: Vec<u32>,
    pub(crate) divisor: Vec<u32>,
}

/// Whether there is no other letter than the chosen one.
#[tactic(auto, using(crate::proofs::Choosing::none_left))]
pub(crate) fn is_alone(choice: &Choice) -> bool
    ensures { result ≡ is_none_left choice.now.others.items }
{
    choice.others.as_slice().is_empty()
}

/// Chooses the first letter whose image is not the identity. Condition: there is more than one element.
pub(crate) fn choose(alloc: Global, product: &Product<'_>, task: &Task) -> Result<Choice, Memory>
    requires ready { IsReady product.now task.now }
    requires many { ¬ (length task.now.elements ≡ 1) }
    ensures { IfOk result (λ c. IsChosen product.now task.now c.letter c.others.items
        c.submonoid.items c.divisor.items) }
{
    let elements = task.elements();
    let images = task.images();
    let letters = task.letters();
    let identity = task.identity();
    let letter = chosen(letters, images, identity);
    let others = others(alloc, letters, letter)?;
    let marks = span_marks(alloc, product, identity, others.as_slice(), images)?;
    let submonoid = marked(alloc, elements, marks.as_slice())?;
    let divisor = divisor(alloc, product, elements, images[letter as usize])?;
    Ok(Choice {
        letter,
        others,
        submonoid,
        divisor,
    })
}
