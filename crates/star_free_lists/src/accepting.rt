//! Whether a list denotes a word.
ghost use Rattle.std.specs.Prelude.{◌≡◌, ◌<◌, ◌≤◌, ◌+◌, ◌↔◌, ℕ, length, IsTrue, IfOk, OnOk};
ghost use Rattle.language_theory.specs.Words.{Over};
ghost use Rattle.language_theory.specs.Automaton.{is_marked};
ghost use Rattle.star_free_theory.specs.StarFree.{Denotes, NameEarlier};
ghost use Rattle.star_free_theory.specs.declared.nodes.SfNode.TheVariants as node;
ghost use Rattle.star_free_lists.specs.Accepting.{mark_place, AreMarks, IsCut, Tells, CanTell, CanMark};

use crate::list::SfList;
use star_free_theory::SfNode;
use std::alloc::Global;
use syn_words::{Memory, Word};

impl SfList {
    /// Whether the list denotes a word, in any alphabet that has its letters. It takes a mark for each node and each
    /// two places of the word.
    pub fn accepts(&self, word: &Word) -> Result<bool, Memory>
        ensures { IfOk result (λ b. (k : ℕ) → Over k word.now
            → IsTrue b ↔ Denotes k self.now.nodes self.now.root word.now) }
    {
        let letters = word.letters();
        let marks = all_marks(self.allocator(), self.nodes(), letters)?;
        Ok(mark(letters, marks.as_slice(), self.root(), 0, letters.len()))
    }
}

/// The marks of all nodes, node by node.
fn all_marks(alloc: Global, nodes: &[SfNode], word: &[u8]) -> Result<Vec<bool>, Memory>
    requires { NameEarlier 0 nodes.now }
    ensures marks { IfOk result (λ v. AreMarks nodes.now word.now v.items) }
    ensures long { IfOk result (λ v. length v.items ≡ mark_place word.now (length nodes.now) 0 0) }
{
    let side = word.len() + 1;
    // A number that saturates is a size that there is no memory for.
    let size = nodes.len().saturating_mul(side).saturating_mul(side);
    let mut marks = Vec::with_capacity(alloc, size)?;
    for n in 0..nodes.len() {
        mark_starts(nodes, word, &mut marks, n)?;
    }
    Ok(marks)
}

/// Puts the marks of a node behind those of the nodes before it.
fn mark_starts(nodes: &[SfNode], word: &[u8], marks: &mut Vec<bool>, n: usize) -> Result<(), Memory>
    requires { CanMark nodes.now word.now marks.old.items n 0 }
    ensures marks { OnOk result (AreMarks nodes.now word.now marks.new.items) }
    ensures long { OnOk result (length marks.new.items ≡ mark_place word.now (n + 1) 0 0) }
{
    for start in 0..word.len() + 1 {
        mark_ends(nodes, word, marks, n, start)?;
    }
    Ok(())
}

/// Puts the marks of a node for one start behind those of the starts before it.
fn mark_ends(
    nodes: &[SfNode],
    word: &[u8],
    marks: &mut Vec<bool>,
    n: usize,
    start: usize,
) -> Result<(), Memory>
    requires able { CanMark nodes.now word.now marks.old.items n start }
    requires within { start ≤ length word.now }
    ensures marks { OnOk result (AreMarks nodes.now word.now marks.new.items) }
    ensures long { OnOk result (length marks.new.items ≡ mark_place word.now n (start + 1) 0) }
{
    for end in 0..word.len() + 1 {
        let told = start <= end && tells(word, marks.as_slice(), nodes[n], start, end);
        marks.push(told)?;
    }
    Ok(())
}

/// What the marks of the nodes that a node names tell of a factor.
fn tells(word: &[u8], marks: &[bool], node: SfNode, start: usize, end: usize) -> bool
    requires { CanTell word.now marks.now node start end }
    ensures { IsTrue result ↔ Tells word.now marks.now node start end }
{
    match node {
        SfNode::Empty => false,
        SfNode::Eps => start == end,
        SfNode::Letter(letter) => start + 1 == end && word[start] == letter,
        SfNode::Not(part) => !mark(word, marks, part, start, end),
        SfNode::Cat(left, right) => is_cut(word, marks, left, right, start, end),
        SfNode::Or(left, right) => {
            mark(word, marks, left, start, end) || mark(word, marks, right, start, end)
        }
        SfNode::And(left, right) => {
            mark(word, marks, left, start, end) && mark(word, marks, right, start, end)
        }
    }
}

/// Whether a factor can be cut into one with a mark of the left node and one with a mark of the right node.
fn is_cut(word: &[u8], marks: &[bool], left: u32, right: u32, start: usize, end: usize) -> bool
    requires { CanTell word.now marks.now (node.Cat left right) start end }
    ensures { IsTrue result ↔ IsCut word.now marks.now left right start end }
{
    for middle in start..end + 1 {
        if mark(word, marks, left, start, middle) && mark(word, marks, right, middle, end) {
            return true;
        }
    }
    false
}

/// The mark of a node and a factor. Condition: it is there.
fn mark(word: &[u8], marks: &[bool], n: u32, start: usize, end: usize) -> bool
    requires { mark_place word.now n start end < length marks.now }
    ensures { result ≡ is_marked marks.now (mark_place word.now n start end) }
{
    let side = word.len() + 1;
    marks[(n as usize * side + start) * side + end]
}
