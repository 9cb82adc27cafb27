//! Shortlex graphs as values of the program.
ghost use Rattle.std.specs.Prelude.{◌≡◌, ◌<◌, ◌+◌, ◌*◌, ◌++◌, ℕ, List, [], ◌∷◌, length, IfOk, OnOk};
ghost use Rattle.language_theory.specs.ShortlexGraph.{Graph, IsGraph, IsShortlex, target, walk};
ghost use Rattle.language_theory.specs.Words.{Over};
ghost use Rattle.exploration.specs.Listing.{IsListing};

use std::alloc::Global;
use std::marker::Model;
use syn_words::{Memory, Word};

/// A finite complete deterministic graph with root 0. Its value is the record `Graph`: the number of nodes, the number
/// of letters, and the targets of node 0 by each letter, then those of node 1, and so on.
#[derive(Debug, Drop)]
pub struct ShortlexGraph {
    size: u32,
    letters: u8,
    targets: Vec<u32>,
}

impl Model for ShortlexGraph {
    ghost Value = { Graph };

    ghost view = { λ g. record { size = g.size; letters = g.letters; targets = g.targets.items } };

    ghost invariant = { λ g.
        IsGraph (record { size = g.size; letters = g.letters; targets = g.targets.items }) };
}

impl ShortlexGraph {
    /// The graph of these targets. Condition: they are those of a graph.
    pub fn new(size: u32, letters: u8, targets: Vec<u32>) -> ShortlexGraph
        requires { IsGraph (record { size = size; letters = letters; targets = targets.items }) }
        ensures { result ≡ record { size = size; letters = letters; targets = targets.items } }
    {
        ShortlexGraph {
            size,
            letters,
            targets,
        }
    }

    /// The number of nodes.
    pub fn size(&self) -> u32
        ensures size { result ≡ self.now.size }
        ensures graph { IsGraph self.now }
    {
        self.size
    }

    /// The number of letters.
    pub fn letters(&self) -> u8
        ensures { result ≡ self.now.letters }
    {
        self.letters
    }

    /// The targets of node 0 by each letter, then those of node 1, and so on.
    pub fn into_targets(self) -> Vec<u32>
        ensures { result.items ≡ self.targets }
    {
        self.targets
    }

    /// The node to which a letter leads. Condition: node and letter are in range.
    pub fn step(&self, node: u32, letter: u8) -> u32
        requires node { node < self.now.size }
        requires letter { letter < self.now.letters }
        ensures step { result ≡ target self.now node letter }
        ensures within { result < self.now.size }
    {
        self.targets[node as usize * self.letters as usize + letter as usize]
    }

    /// The node to which a word leads from a node. Condition: the node and the word's letters are in range.
    pub fn walk(&self, from: u32, word: &Word) -> u32
        requires node { from < self.now.size }
        requires word { Over self.now.letters word.now }
        ensures walk { result ≡ walk self.now from word.now }
        ensures within { result < self.now.size }
    {
        // Its contract tells that this is a graph.
        let _size = self.size();
        let mut node = from;
        for letter in word.letters() {
            node = self.step(node, *letter);
        }
        node
    }

    /// The least word of each node, in order (`IsShortlex`). Condition: the graph is a shortlex graph. Each word is
    /// that of the node where the node first occurs as a target, with that letter behind it.
    pub fn least_words(&self, alloc: Global) -> Result<Vec<Word>, Memory>
        requires { (words : List (List ℕ)) × IsShortlex self.now words }
        ensures { IfOk result (λ v. IsShortlex self.now v.items) }
    {
        let mut words = Vec::new(alloc);
        words.push(Word::new(alloc))?;
        for node in 0..self.size() {
            list_words_behind(self, node, &mut words)?;
        }
        Ok(words)
    }
}

/// Lists the words of the nodes that first occur as targets of this node.
fn list_words_behind(graph: &ShortlexGraph, node: u32, words: &mut Vec<Word>) -> Result<(), Memory>
    requires listing { IsListing graph.now (node * graph.now.letters) words.old.items }
    requires node { node < graph.now.size }
    ensures { OnOk result (IsListing graph.now ((node + 1) * graph.now.letters) words.new.items) }
{
    for letter in 0..graph.letters() {
        list_word_behind(graph, node, letter, words)?;
    }
    Ok(())
}

/// Lists the word of the node to which a letter leads, if this is the first place of that node.
fn list_word_behind(
    graph: &ShortlexGraph,
    node: u32,
    letter: u8,
    words: &mut Vec<Word>,
) -> Result<(), Memory>
    requires listing { IsListing graph.now (node * graph.now.letters + letter) words.old.items }
    requires node { node < graph.now.size }
    requires letter { letter < graph.now.letters }
    requires listed { node < length words.old.items }
    ensures listing { OnOk result
        (IsListing graph.now (node * graph.now.letters + letter + 1) words.new.items) }
    ensures listed { OnOk result (node < length words.new.items) }
{
    if graph.step(node, letter) as usize != words.len() {
        return Ok(());
    }
    let word = longer(&words[node as usize], letter)?;
    words.push(word)?;
    Ok(())
}

/// The word with a letter behind it.
fn longer(word: &Word, letter: u8) -> Result<Word, Memory>
    ensures { IfOk result (λ w. w ≡ word.now ++ letter ∷ []) }
{
    let mut longer = word.copy()?;
    longer.push(letter)?;
    Ok(longer)
}
