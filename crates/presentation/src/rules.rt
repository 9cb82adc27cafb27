//! Lists of rules as values of the program.
ghost use Rattle.std.specs.Prelude.{◌≡◌, ◌<◌, ◌+◌, ◌^◌, ◌++◌, ℕ, List, [], ◌∷◌, length, OnOk, OnErr};
ghost use Rattle.monoid_theory.specs.Presentation.{rule_at};

use std::alloc::Global;
use std::marker::Model;
use syn_words::{Memory, Word};

/// A rule: words that have the left side as a factor may have the word of the element `right` in
/// its place. Its value is the pair of both sides.
#[derive(Drop)]
struct Rule {
    left: Word,
    right: u32,
}

impl Model for Rule {
    ghost use Rattle.std.specs.Prelude.{List, ℕ};

    ghost Value = { List ℕ × ℕ };

    ghost view = { λ r. (r.left, r.right) };
}

/// The rules of a finite monoid, fewer than 2^32. Its value is the list of the pairs of both sides:
/// a word, and the element whose word stands in its place.
#[derive(Drop)]
pub struct Rules {
    rules: Vec<Rule>,
}

impl Model for Rules {
    ghost use Rattle.std.specs.Prelude.{List, ℕ, length, ◌<◌, ◌^◌};

    ghost Value = { List (List ℕ × ℕ) };

    ghost view = { λ r. r.rules.items };

    ghost invariant = { λ r. length r.rules.items < 2 ^ 32 };
}

impl Rules {
    /// No rules. They take no memory.
    pub(crate) fn new(alloc: Global) -> Rules
        ensures { result ≡ [] }
    {
        Rules {
            rules: Vec::new(alloc),
        }
    }

    /// Puts a rule behind those that are there. After `Memory` they are as they were. Condition:
    /// there is room for its number.
    pub(crate) fn push(&mut self, left: Word, right: u32) -> Result<(), Memory>
        requires { length self.old + 1 < 2 ^ 32 }
        ensures ok { OnOk result (self.new ≡ self.old ++ (left, right) ∷ []) }
        ensures err { OnErr result (self.new ≡ self.old) }
    {
        self.rules.push(Rule { left, right })?;
        Ok(())
    }

    /// The number of rules.
    pub fn len(&self) -> u32
        ensures { result ≡ length self.now }
    {
        self.rules.len() as u32
    }

    /// The left side of a rule. Condition: `n < len`.
    pub fn left(&self, n: u32) -> &Word
        requires { n < length self.now }
        ensures { result.now ≡ (rule_at self.now n).0 }
    {
        &self.rules[n as usize].left
    }

    /// The element that is the right side of a rule. Condition: `n < len`.
    pub fn right(&self, n: u32) -> u32
        requires { n < length self.now }
        ensures { result ≡ (rule_at self.now n).1 }
    {
        self.rules[n as usize].right
    }
}
