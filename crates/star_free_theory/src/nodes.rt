//! The nodes of star-free lists.

/// A node of a star-free list. The numbers are those of nodes that stand before it.
#[derive(Clone, Copy, Debug, PartialEq, Eq, Hash)]
pub enum SfNode {
    /// No word.
    Empty,
    /// The empty word.
    Eps,
    /// The word of one letter, which is given by its number.
    Letter(u8),
    /// The words over the letters that are not words of a node.
    Not(u32),
    /// A word of the first node, and a word of the second behind it.
    Cat(u32, u32),
    /// The words of either node.
    Or(u32, u32),
    /// The words of both nodes.
    And(u32, u32),
}
