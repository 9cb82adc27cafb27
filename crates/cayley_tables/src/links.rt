//! The links of elements that are found one after another.
ghost use Rattle.std.specs.Prelude.{◌≡◌, ◌<◌, [], ◌∷◌, length, slice_index, IfOk, OnOk, OnErr};
ghost use Rattle.cayley_tables.specs.Links.{with_link, BeginsWith};

use std::alloc::Global;
use std::marker::Model;
use syn_words::Memory;

/// Four links for each element: its prefix (the element of its least word without the last letter), that last letter,
/// its suffix (the element of its least word without the first letter) and that first letter. Its value is the record
/// `LinkLists`.
#[derive(Debug, Drop)]
pub struct Links {
    pub(crate) prefix: Vec<u32>,
    pub(crate) last: Vec<u8>,
    pub(crate) suffix: Vec<u32>,
    pub(crate) first: Vec<u8>,
}

impl Model for Links {
    ghost use Rattle.cayley_tables.specs.Links.{LinkLists};

    ghost Value = { LinkLists };

    ghost view = { λ l. record {
      prefix = l.prefix.items;
      last = l.last.items;
      suffix =
          l.suffix.items;
      first = l.first.items;
    } };
}

impl Links {
    /// The links of no element. They take no memory.
    pub fn new(alloc: Global) -> Links
        ensures { result ≡ record { prefix = []; last = []; suffix = []; first = [] } }
    {
        Links {
            prefix: Vec::new(alloc),
            last: Vec::new(alloc),
            suffix: Vec::new(alloc),
            first: Vec::new(alloc),
        }
    }

    /// Puts the links of the next element behind those that are there. After `Memory` those that were there stand, and
    /// some lists may have one link more.
    pub fn push(&mut self, prefix: u32, last: u8, suffix: u32, first: u8) -> Result<(), Memory>
        ensures ok { OnOk result (self.new ≡ with_link self.old prefix last suffix first) }
        ensures err { OnErr result (BeginsWith self.old self.new) }
    {
        self.prefix.push(prefix)?;
        self.last.push(last)?;
        self.suffix.push(suffix)?;
        self.first.push(first)?;
        Ok(())
    }

    /// The number of elements.
    pub fn len(&self) -> usize
        ensures { result ≡ length self.now.prefix }
    {
        self.prefix.len()
    }

    /// The four lists: prefixes, last letters, suffixes and first letters.
    pub fn into_lists(self) -> (Vec<u32>, Vec<u8>, Vec<u32>, Vec<u8>)
        ensures prefix { result.0.items ≡ self.prefix }
        ensures last { result.1.items ≡ self.last }
        ensures suffix { result.2.items ≡ self.suffix }
        ensures first { result.3.items ≡ self.first }
    {
        (self.prefix, self.last, self.suffix, self.first)
    }

    /// The prefix of an element. Condition: its links are there.
    pub fn prefix(&self, element: u32) -> u32
        requires { element < length self.now.prefix }
        ensures { result ≡ slice_index self.now.prefix element }
    {
        self.prefix[element as usize]
    }

    /// The last letter of an element. Condition: its links are there.
    pub fn last(&self, element: u32) -> u8
        requires { element < length self.now.last }
        ensures { result ≡ slice_index self.now.last element }
    {
        self.last[element as usize]
    }

    /// The suffix of an element. Condition: its links are there.
    pub fn suffix(&self, element: u32) -> u32
        requires { element < length self.now.suffix }
        ensures { result ≡ slice_index self.now.suffix element }
    {
        self.suffix[element as usize]
    }

    /// The first letter of an element. Condition: its links are there.
    pub fn first(&self, element: u32) -> u8
        requires { element < length self.now.first }
        ensures { result ≡ slice_index self.now.first element }
    {
        self.first[element as usize]
    }
}
