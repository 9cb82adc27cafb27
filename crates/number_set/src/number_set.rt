//! Sets of numbers below a size, as words of 64 marks.
ghost use Rattle.std.specs.Prelude.{◌≡◌, ◌<◌, ◌≤◌, ◌/◌, ◌%◌, false, true, length, replicate, slice_set, IfOk, IsTrue, ◌↔◌, ◌^◌};
ghost use Rattle.std.specs.Bool.{beq};
ghost use Rattle.std.specs.Cmp.Lexicographic.{pointwise, lists_per, lists_equiv};
ghost use Rattle.std.proofs.Common.{rules};
ghost use Rattle.language_theory.specs.Automaton.{is_marked};
ghost use Rattle.number_set.specs.Marks.{IsWord, IsWindowOf, HasGained, IsIntersection, Meet, fed_words, same_fed};

use crate::members::Members;
use std::alloc::Global;
use std::hash::{Hash, Hasher};
use std::marker::Model;
use syn_words::Memory;

/// A set of numbers below a size. A contract sees the row of its marks, with a place for each number.
#[derive(Drop)]
pub struct NumberSet {
    size: u32,
    /// All words before this place are 0.
    first: u32,
    /// All words from this place on are 0. So the union with a set of few members that stand near to each other costs
    /// few words.
    last: u32,
    words: Vec<u64>,
}

impl Model for NumberSet {
    ghost use Rattle.std.specs.Prelude.{◌≡◌, List, Bool};
    ghost use Rattle.number_set.specs.Marks.{marks_in, AreWords};

    ghost Value = { List Bool };

    ghost view = { λ s. marks_in s.size s.words.items };

    ghost invariant = { λ s. AreWords s.size s.first s.last s.words.items };
}

impl NumberSet {
    /// The set with no member.
    pub fn empty(alloc: Global, size: u32) -> Result<NumberSet, Memory>
        ensures { IfOk result (λ s. s ≡ replicate size false) }
    {
        let words = vec![in alloc; 0u64; size.div_ceil(64) as usize]?;
        Ok(NumberSet {
            size,
            first: 0,
            last: 0,
            words,
        })
    }

    /// The set with a row of marks. Condition: fewer than 2^32 marks.
    #[tactic(auto, using(crate::proofs::Packing::none_taken, crate::proofs::Packing::one_taken, crate::proofs::Packing::none_more))]
    pub fn from_marks(alloc: Global, marks: &[bool]) -> Result<NumberSet, Memory>
        requires { length marks.now < 2 ^ 32 }
        ensures { IfOk result (λ s. s ≡ marks.now) }
    {
        let mut set = NumberSet::empty(alloc, marks.len() as u32)?;
        for number in 0..marks.len() as u32 {
            if marks[number as usize] {
                set.insert(number);
            }
        }
        Ok(set)
    }

    /// The row of marks: for each number below the size whether it is in the set.
    pub fn to_marks(&self) -> Result<Vec<bool>, Memory>
        ensures { IfOk result (λ marks. marks.items ≡ self.now) }
    {
        let mut marks = Vec::with_capacity(*self.words.allocator(), self.size() as usize)?;
        for number in 0..self.size() {
            marks.push(self.contains(number))?;
        }
        Ok(marks)
    }

    /// The size: all members are below it.
    pub fn size(&self) -> u32
        ensures { result ≡ length self.now }
    {
        self.size
    }

    /// Whether a number is in the set. Condition: it is below the size.
    pub fn contains(&self, number: u32) -> bool
        requires { number < length self.now }
        ensures { result ≡ is_marked self.now number }
    {
        (self.words[(number / 64) as usize] >> (number % 64)) & 1 == 1
    }

    /// A walk over the members, which begins with the least one.
    pub fn members(&self) -> Members<'_>
        ensures { result ≡ record { marks = self.now; from = 0 } }
    {
        Members::of(self)
    }

    /// The marks from `64 * place` on, as a word, if there are any.
    pub(crate) fn word(&self, place: u32) -> Option<u64>
        ensures { IsWord self.now place result }
    {
        let place = place as usize;
        if place >= self.words.len() {
            return None;
        }
        Some(self.words[place])
    }

    /// Puts a number into the set. Condition: it is below the size.
    pub fn insert(&mut self, number: u32)
        requires { number < length self.old }
        ensures { self.new ≡ slice_set self.old number true }
    {
        let place = number / 64;
        let word = self.words[place as usize] | (1 << (number % 64));
        self.words[place as usize] = word;
        let (first, last) = window_of(self.first, self.last, place, place + 1);
        self.first = first;
        self.last = last;
    }

    /// Puts the members of another set into this one too. Condition: its size is no more than this one's.
    pub fn union_with(&mut self, other: &NumberSet)
        requires { length other.now ≤ length self.old }
        ensures { HasGained self.old self.new (length self.old) (is_marked other.now) }
    {
        for place in other.first as usize..other.last as usize {
            self.words[place] = self.words[place] | other.words[place];
        }
        let (first, last) = window_of(self.first, self.last, other.first, other.last);
        self.first = first;
        self.last = last;
    }

    /// Takes all members out.
    pub fn clear(&mut self)
        ensures { self.new ≡ replicate (length self.old) false }
    {
        for place in self.first as usize..self.last as usize {
            self.words[place] = 0;
        }
        self.first = 0;
        self.last = 0;
    }

    /// Takes out the members that another set doesn't have. Condition: both have one size.
    pub fn intersect_with(&mut self, other: &NumberSet)
        requires { length other.now ≡ length self.old }
        ensures { IsIntersection self.old other.now self.new }
    {
        for place in 0..self.words.len() {
            self.words[place] = self.words[place] & other.words[place];
        }
    }

    /// Whether two sets have a member in common. Condition: the size of the other is no more than this one's.
    pub fn meets(&self, other: &NumberSet) -> bool
        requires { length other.now ≤ length self.now }
        ensures { IsTrue result ↔ Meet self.now other.now }
    {
        for place in other.first as usize..other.last as usize {
            if self.words[place] & other.words[place] != 0 {
                return true;
            }
        }
        false
    }

    /// The set of the same size with no member.
    pub fn bare(&self) -> Result<NumberSet, Memory>
        ensures { IfOk result (λ s. s ≡ replicate (length self.now) false) }
    {
        let set = NumberSet::empty(*self.words.allocator(), self.size())?;
        Ok(set)
    }

    /// An equal set of its own.
    pub fn copy(&self) -> Result<NumberSet, Memory>
        ensures { IfOk result (λ s. s ≡ self.now) }
    {
        let words = Vec::from_slice(*self.words.allocator(), self.words.as_slice())?;
        Ok(NumberSet {
            size: self.size,
            first: self.first,
            last: self.last,
            words,
        })
    }
}

/// The least window with what two windows have. A window is its first place and the place behind its last. Condition:
/// neither ends before it begins.
fn window_of(first: u32, last: u32, other_first: u32, other_last: u32) -> (u32, u32)
    requires one { first ≤ last }
    requires other { other_first ≤ other_last }
    ensures { IsWindowOf first last other_first other_last result }
{
    if first == last {
        return (other_first, other_last);
    }
    if other_first == other_last {
        return (first, last);
    }
    (first.min(other_first), last.max(other_last))
}

impl PartialEq for NumberSet {
    ghost eq = { pointwise beq };

    ghost laws = { lists_per (Prim.search rules) };

    fn eq(&self, other: &NumberSet) -> bool {
        self.size == other.size && self.words.as_slice() == other.words.as_slice()
    }
}

impl Eq for NumberSet {
    ghost laws = { lists_equiv (Prim.search rules) };
}

impl Hash for NumberSet {
    ghost hash_input = { fed_words };

    ghost respects_eq = { same_fed };

    fn hash<H: Hasher>(&self, state: &mut H) {
        u64::hash_slice(self.words.as_slice(), state);
    }
}
