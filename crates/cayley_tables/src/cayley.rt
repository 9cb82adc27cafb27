//! The elements of a finite monoid as values of the program.
ghost use Rattle.std.specs.Prelude.{◌≡◌, ◌<◌, ◌≤◌, ℕ, List, length, IfOk};
ghost use Rattle.language_theory.specs.Words.{Over, word_at};
ghost use Rattle.language_theory.specs.ShortlexGraph.{target, node, SameNode};
ghost use Rattle.language_theory.specs.Links.{IsPrefixLink, IsSuffixLink};
ghost use Rattle.monoid_theory.specs.Products.{IsProduct};
ghost use Rattle.cayley_tables.specs.CayleyGraphs.{AreCayleyGraphs};
ghost use Rattle.cayley_tables.specs.Tables.{AreTables, tables};
ghost use Rattle.syn_words.specs.Alphabet.{most_letters};

use crate::limits::MOST_ELEMENTS;
use crate::links::Links;
use std::alloc::Global;
use std::marker::Model;
use syn_words::{Memory, Word};

/// The elements of a finite monoid that letters generate, in shortlex order of their least words, with both Cayley
/// graphs. Element 0 is that of the empty word. Its value is the record `CayleyGraphs`: the two graphs and the least
/// words.
#[derive(Drop)]
pub struct Cayley {
    alloc: Global,
    letters: u32,
    right: Vec<u32>,
    left: Vec<u32>,
    links: Links,
}

impl Model for Cayley {
    ghost use Rattle.std.specs.Prelude.{ℕ, List};
    ghost use Rattle.cayley_tables.specs.CayleyGraphs.{CayleyGraphs};
    ghost use Rattle.cayley_tables.specs.Links.{spelled};
    ghost use Rattle.cayley_tables.specs.Tables.{AreTables, tables, graphs_of};

    ghost Value = { CayleyGraphs };

    ghost view = { λ c. graphs_of (tables c.letters c.right.items c.left.items c.links) };

    ghost invariant = { λ c. AreTables (tables c.letters c.right.items c.left.items c.links)
        (spelled c.links.prefix c.links.last) };
}

impl Cayley {
    /// The elements with these parts. Condition: the targets in the right graph are those of a monoid with these words
    /// (`AreTables`): they stand at `i * letters + a` for element i and letter a, those in the left graph likewise, and
    /// there are four links for each element. It takes no memory; the allocator is kept for the words of elements.
    pub fn from_parts(
        alloc: Global,
        letters: u32,
        right: Vec<u32>,
        left: Vec<u32>,
        prefix: Vec<u32>,
        last: Vec<u8>,
        suffix: Vec<u32>,
        first: Vec<u8>,
    ) -> Cayley
        requires { (words : List (List ℕ))
            × AreTables (tables letters right.items left.items
            (record {
              prefix = prefix.items;
              last = last.items;
              suffix = suffix.items;
              first = first.items;
            })) words }
        ensures right { result.right ≡ record {
          size = length prefix.items;
          letters = letters;
          targets = right.items;
        } }
        ensures left { result.left ≡ record {
          size = length prefix.items;
          letters = letters;
          targets = left.items;
        } }
        ensures graphs { AreCayleyGraphs result }
    {
        let links = Links {
            prefix,
            last,
            suffix,
            first,
        };
        Cayley {
            alloc,
            letters,
            right,
            left,
            links,
        }
    }

    /// The number of elements, from 1 to `MOST_ELEMENTS`.
    pub fn len(&self) -> u32
        ensures len { result ≡ length self.now.words }
        ensures size { result ≡ self.now.right.size }
        ensures some { 1 ≤ result }
        ensures few { result ≤ MOST_ELEMENTS }
        ensures graphs { AreCayleyGraphs self.now }
    {
        self.links.prefix.len() as u32
    }

    /// The number of letters, from 1 to 60.
    pub fn letters(&self) -> u32
        ensures letters { result ≡ self.now.right.letters }
        ensures some { 1 ≤ result }
        ensures few { result ≤ most_letters }
    {
        self.letters
    }

    /// The targets in the right graph: those of element 0 by each letter, then those of element 1, and so on.
    pub fn right_targets(&self) -> &[u32]
        ensures { result.now ≡ self.now.right.targets }
    {
        self.right.as_slice()
    }

    /// The targets in the left graph, in the same order.
    pub fn left_targets(&self) -> &[u32]
        ensures { result.now ≡ self.now.left.targets }
    {
        self.left.as_slice()
    }

    /// The element followed by a letter. Condition: both are in range.
    pub fn right(&self, i: u32, letter: u8) -> u32
        requires element { i < length self.now.words }
        requires letter { letter < self.now.right.letters }
        ensures right { result ≡ target self.now.right i letter }
        ensures within { result < length self.now.words }
    {
        self.right[i as usize * self.letters as usize + letter as usize]
    }

    /// A letter followed by the element. Condition: both are in range.
    pub fn left(&self, letter: u8, i: u32) -> u32
        requires element { i < length self.now.words }
        requires letter { letter < self.now.right.letters }
        ensures left { result ≡ target self.now.left i letter }
        ensures within { result < length self.now.words }
    {
        self.left[i as usize * self.letters as usize + letter as usize]
    }

    /// The element whose word is that of i without its last letter. Condition: `0 < i < len`.
    pub fn prefix(&self, i: u32) -> u32
        requires some { 0 < i }
        requires element { i < length self.now.words }
        ensures link { (a : ℕ) × IsPrefixLink self.now.words i result a }
        ensures earlier { result < i }
    {
        self.prefix_link(i).0
    }

    /// The last letter of the word of i. Condition: `0 < i < len`.
    pub fn last(&self, i: u32) -> u8
        requires some { 0 < i }
        requires element { i < length self.now.words }
        ensures link { (p : ℕ) × IsPrefixLink self.now.words i p result }
        ensures within { result < self.now.right.letters }
    {
        self.prefix_link(i).1
    }

    /// The element whose word is that of i without its first letter. Condition: `0 < i < len`.
    pub fn suffix(&self, i: u32) -> u32
        requires some { 0 < i }
        requires element { i < length self.now.words }
        ensures link { (a : ℕ) × IsSuffixLink self.now.words i a result }
        ensures earlier { result < i }
    {
        self.suffix_link(i).1
    }

    /// The first letter of the word of i. Condition: `0 < i < len`.
    pub fn first(&self, i: u32) -> u8
        requires some { 0 < i }
        requires element { i < length self.now.words }
        ensures link { (s : ℕ) × IsSuffixLink self.now.words i result s }
        ensures within { result < self.now.right.letters }
    {
        self.suffix_link(i).0
    }

    /// The prefix and the last letter of i. Condition: `0 < i < len`.
    fn prefix_link(&self, i: u32) -> (u32, u8)
        requires some { 0 < i }
        requires element { i < length self.now.words }
        ensures link { IsPrefixLink self.now.words i result.0 result.1 }
        ensures earlier { result.0 < i }
        ensures within { result.1 < self.now.right.letters }
    {
        (self.links.prefix(i), self.links.last(i))
    }

    /// The first letter and the suffix of i. Condition: `0 < i < len`.
    fn suffix_link(&self, i: u32) -> (u8, u32)
        requires some { 0 < i }
        requires element { i < length self.now.words }
        ensures link { IsSuffixLink self.now.words i result.0 result.1 }
        ensures earlier { result.1 < i }
        ensures within { result.0 < self.now.right.letters }
    {
        (self.links.first(i), self.links.suffix(i))
    }

    /// The least word of an element. Condition: the element is in range.
    pub fn word(&self, i: u32) -> Result<Word, Memory>
        requires { i < length self.now.words }
        ensures word { IfOk result (λ w. w ≡ word_at self.now.words i) }
        ensures over { IfOk result (λ w. Over self.now.right.letters w) }
    {
        // Its contract tells that the word of element 0 is empty.
        let _len = self.len();
        let mut word = Word::new(self.alloc);
        let mut rest = i;
        while rest > 0 {
            let (first, suffix) = self.suffix_link(rest);
            word.push(first)?;
            rest = suffix;
        }
        Ok(word)
    }

    /// The product of two elements. Condition: both are in range.
    pub fn product(&self, i: u32, j: u32) -> u32
        requires left { i < length self.now.words }
        requires right { j < length self.now.words }
        ensures product { IsProduct (SameNode self.now.right) self.now.words i j result }
        ensures within { result < length self.now.words }
    {
        // Its contract tells that these are the graphs of a monoid.
        let _len = self.len();
        let mut product = i;
        let mut rest = j;
        while rest > 0 {
            let (first, suffix) = self.suffix_link(rest);
            product = self.right(product, first);
            rest = suffix;
        }
        product
    }

    /// The element of a word. Condition: the word's letters are in range.
    pub fn find(&self, word: &Word) -> u32
        requires { Over self.now.right.letters word.now }
        ensures node { result ≡ node self.now.right word.now }
        ensures within { result < length self.now.words }
    {
        // Its contract tells that these are the graphs of a monoid.
        let _len = self.len();
        let mut element = 0;
        for letter in word.letters() {
            element = self.right(element, *letter);
        }
        element
    }
}

/// The elements are read by several workers: this call is proved only where that is allowed.
fn is_shared<T: Send + Sync>(_value: &T) {}

fn elements_are_shared(cayley: &Cayley) {
    is_shared(cayley)
}
