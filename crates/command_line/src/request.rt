//! What the words of a line ask for.
ghost use Rattle.std.specs.Prelude.{◌≡◌};

use crate::commands::Command;
use std::marker::Model;

/// The name of a file, a word of the line. Its value is the list of its bytes.
#[derive(Drop)]
pub struct Name<'a> {
    text: &'a str,
}

impl<'a> Model for Name<'a> {
    ghost use Rattle.std.specs.Prelude.{List, ℕ};

    ghost Value = { List ℕ };

    ghost view = { λ n. n.text.now };
}

impl<'a> Name<'a> {
    /// The name that is this text.
    pub(crate) fn of(text: &'a str) -> Name<'a>
        ensures { result ≡ text.now }
    {
        Name { text }
    }

    /// The name as a text.
    pub fn text(&self) -> &'a str
        ensures { result.now ≡ self.now }
    {
        self.text
    }
}

/// What the words of a line ask for: a command, the name of the file that it is about or the size of the generated file,
/// and the number of each option.
#[derive(Drop)]
pub struct Request<'a> {
    /// What to print.
    pub command: Command,
    /// The name of the file, or the digits of the size for `generate`.
    pub operand: Name<'a>,
    /// The size of the generated file; 0 for a command other than `generate`.
    pub size: u32,
    /// The most sets of states that words may lead to.
    pub subsets: u32,
    /// The most elements of the syntactic monoid.
    pub elements: u32,
    /// The longest side of the table of products.
    pub table: u32,
    /// The most nodes of a list that is built for a star-free expression.
    pub nodes: u32,
    /// The greatest level that is tried.
    pub level: u32,
    /// The most pairs of a state and a key at one level.
    pub pairs: u32,
    /// The parts of the work that may run side by side.
    pub workers: u32,
}
