//! The elements from their right Cayley graph alone.
ghost use Rattle.std.specs.Prelude.{◌≡◌, ◌<◌, ◌≤◌, ◌+◌, ◌*◌, length, IfOk, OnOk};
ghost use Rattle.language_theory.specs.ShortlexGraph.{target};
ghost use Rattle.cayley_tables.specs.CayleyGraphs.{AreCayleyGraphs};
ghost use Rattle.cayley_tables.specs.Tables.{AreMonoidTargets, IsLinking, right_graph};
ghost use Rattle.syn_words.specs.Alphabet.{most_letters};

use crate::cayley::Cayley;
use crate::left_rows::push_left_rows;
use crate::links::Links;
use std::alloc::Global;
use syn_words::Memory;

impl Cayley {
    /// The elements whose right Cayley graph has these targets: those of element 0 by each letter, then those of
    /// element 1, and so on. Condition: these are the targets of a monoid (`AreMonoidTargets`): of a shortlex graph in
    /// which words that lead from the root to one node lead from each node to one node.
    pub fn from_right(alloc: Global, letters: u32, right: &[u32]) -> Result<Cayley, Memory>
        requires { AreMonoidTargets letters right.now }
        ensures letters { IfOk result (λ c. c.right.letters ≡ letters) }
        ensures targets { IfOk result (λ c. c.right.targets ≡ right.now) }
        ensures graphs { IfOk result (λ c. AreCayleyGraphs c) }
    {
        let size = right.len() as u32 / letters;
        let links = links_of(alloc, size, letters, right)?;
        let mut left = Vec::with_capacity(alloc, right.len())?;
        push_left_rows(letters, right, &links, 0, size, &mut left)?;
        let targets = Vec::from_slice(alloc, right)?;
        let (prefix, last, suffix, first) = links.into_lists();
        Ok(Cayley::from_parts(alloc, letters, targets, left, prefix, last, suffix, first))
    }
}

/// The links of all elements, each found where it first occurs as a target.
fn links_of(alloc: Global, size: u32, letters: u32, right: &[u32]) -> Result<Links, Memory>
    requires monoid { AreMonoidTargets letters right.now }
    requires size { length right.now ≡ size * letters }
    ensures { IfOk result (λ l. IsLinking (right_graph size letters right.now) (size * letters) l) }
{
    let mut links = Links::new(alloc);
    links.push(0, 0, 0, 0)?;
    for element in 0..size {
        link_row(size, letters, right, element, &mut links)?;
    }
    Ok(links)
}

/// Links the elements that first occur as targets of this element.
fn link_row(
    size: u32,
    letters: u32,
    right: &[u32],
    element: u32,
    links: &mut Links,
) -> Result<(), Memory>
    requires linking { IsLinking (right_graph size letters right.now)
        (element * letters) links.old }
    requires element { element < size }
    requires letters { letters ≤ most_letters }
    ensures { OnOk result
        (IsLinking (right_graph size letters right.now) ((element + 1) * letters) links.new) }
{
    for letter in 0..letters {
        link(size, letters, right, element, letter as u8, links)?;
    }
    Ok(())
}

/// Links the element to which a letter leads, if this is its first place.
fn link(
    size: u32,
    letters: u32,
    right: &[u32],
    element: u32,
    letter: u8,
    links: &mut Links,
) -> Result<(), Memory>
    requires linking { IsLinking (right_graph size letters right.now)
        (element * letters + letter) links.old }
    requires element { element < size }
    requires letter { letter < letters }
    requires linked { element < length links.old.prefix }
    ensures linking { OnOk result
        (IsLinking (right_graph size letters right.now) (element * letters + letter + 1) links.new) }
    ensures linked { OnOk result (element < length links.new.prefix) }
{
    let target = right[element as usize * letters as usize + letter as usize];
    if target as usize != links.len() {
        return Ok(());
    }
    if element == 0 {
        links.push(0, letter, 0, letter)?;
        return Ok(());
    }
    let suffix = right[links.suffix(element) as usize * letters as usize + letter as usize];
    let first = links.first(element);
    links.push(element, letter, suffix, first)?;
    Ok(())
}
