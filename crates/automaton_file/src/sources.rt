//! What a file gives: a source, or a refusal.

ghost use Rattle.std.specs.Prelude.{◌≡◌};
ghost use Rattle.automaton_file.specs.FileText.{code_of};

use automata::Nfa;
use regex_reader::Expr;
use syn_words::Alphabet;
use thiserror::Error;

/// The body of a file: an automaton, or an expression.
#[derive(Drop)]
pub enum Body {
    Nfa(Nfa),
    Expr(Expr),
}

/// What a file spells: an alphabet and a body over it.
#[derive(Drop)]
pub struct Source {
    pub alphabet: Alphabet,
    pub body: Body,
}

/// What is wrong with a line, or with a whole file. Each has a code.
#[derive(Clone, Copy, Debug, PartialEq, Eq)]
pub enum Wrong {
    /// 1: the header isn't `synmon 1`.
    Header,
    /// 2: the alphabet isn't `alphabet` and 1 to 26 distinct lower-case letters.
    Alphabet,
    /// 3: the body line begins neither with `expr` nor with `nfa`.
    Body,
    /// 4: the count of states isn't one number from 1 to 1,000.
    Count,
    /// 5: a field that must be a state number isn't one.
    State,
    /// 6: a field that must be a letter isn't one of the alphabet.
    Letter,
    /// 7: `initial` or `final` doesn't stand where it must, or the file ends before its last part.
    Missing,
    /// 8: the text behind `expr` spells no expression.
    Expression,
    /// 9: a step line hasn't three fields, or a line stands behind an expression.
    OutOfPlace,
    /// 10: a byte that isn't printable ASCII or a tab; a CR is allowed directly before an LF alone.
    Byte,
    /// 11: more than 1,048,576 bytes.
    TooLong,
}

impl Wrong {
    /// The code that stands for it.
    pub fn code(self) -> u8
        ensures { result ≡ code_of self }
    {
        match self {
            Wrong::Header => 1,
            Wrong::Alphabet => 2,
            Wrong::Body => 3,
            Wrong::Count => 4,
            Wrong::State => 5,
            Wrong::Letter => 6,
            Wrong::Missing => 7,
            Wrong::Expression => 8,
            Wrong::OutOfPlace => 9,
            Wrong::Byte => 10,
            Wrong::TooLong => 11,
        }
    }
}

/// Why a file isn't taken: the line, counted from 1, or 0 for the whole input, and the code of the first test that
/// fails there.
#[derive(Clone, Copy, Debug, PartialEq, Eq)]
pub struct Refusal {
    pub line: u32,
    pub code: u8,
}

/// A file that isn't taken, or want of memory.
#[derive(Debug, Drop, PartialEq, Eq, Error)]
pub enum FileFault {
    #[error("the file is refused")]
    Refused(Refusal),
    #[error("out of memory")]
    Memory,
}
