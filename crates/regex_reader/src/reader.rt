//! A reader of signs, which goes from the left.
ghost use Rattle.std.specs.Prelude.{◌≡◌, ◌∷◌, [], ◌≤◌, length, MatchResult, None};
ghost use Rattle.expression_theory.specs.Frames as frames;
ghost use Rattle.expression_theory.specs.Scan as scan;
ghost use Rattle.regex_reader.specs.Expressions.{tree_of};
ghost use Rattle.regex_reader.specs.Readers.{is_due, frame_of, frames_of, IsFaultAt, failing_here, HasRead, IsReader};

use crate::frames::{Frame, applied, leaf, settle, whole};
use crate::{Expr, ExprFault};
use expression_theory::{Class, Leaf, Quantifier, Sign};
use std::alloc::Global;

/// At most so many parentheses are open.
const MOST_OPEN: usize = 200;

/// A tree has at most so many nodes.
const MOST_NODES: u32 = 4000;

/// What was read up to a byte.
#[derive(Drop)]
pub struct Reader {
    /// The frames outside of each open parenthesis.
    pub waiting: Vec<Frame>,
    pub top: Frame,
    /// The last piece inside the innermost parenthesis. Where there is none, an operand must come.
    pub piece: Option<Expr>,
    /// How many nodes the tree will have at least.
    pub nodes: u32,
}

/// A frame in which nothing was read.
fn empty_frame() -> Frame
    ensures { frame_of None result ≡ frames.frame None None None }
{
    Frame {
        alternatives: None,
        sequence: None,
    }
}

/// A reader before the first byte.
pub fn start(alloc: Global) -> Reader
    ensures frames { frames_of result ≡ frames.start }
    ensures nodes { result.nodes ≡ 0 }
    ensures depth { result.waiting.items ≡ [] }
    ensures piece { result.piece ≡ None }
{
    Reader {
        waiting: Vec::new(alloc),
        top: empty_frame(),
        piece: None,
        nodes: 0,
    }
}

/// The count of nodes, where it is within the limit.
fn within_nodes(nodes: u32, at: u64) -> Result<u32, ExprFault>
    ensures { MatchResult result (λ n. (n ≡ nodes)
        × (scan.size_test nodes ≡ None)) (λ f. IsFaultAt (scan.size_test nodes) at f) }
{
    if nodes > MOST_NODES {
        return Err(ExprFault::TooLarge { at });
    }
    Ok(nodes)
}

/// Reads a letter, `0` or `1`.
fn read_operand(alloc: Global, reader: Reader, operand: Leaf, at: u64) -> Result<Reader, ExprFault>
    requires { IsReader reader }
    ensures { let class = Class.Good (Sign.Operand operand) in
        MatchResult result (HasRead reader class) (IsFaultAt (failing_here reader class) at) }
{
    let cost = if reader.piece.is_none() { 1 } else { 2 };
    let nodes = within_nodes(reader.nodes + cost, at)?;
    let top = settle(alloc, reader.top, reader.piece)?;
    Ok(Reader {
        waiting: reader.waiting,
        top,
        piece: Some(leaf(operand)),
        nodes,
    })
}

/// Reads `(`.
fn read_open(alloc: Global, reader: Reader, at: u64) -> Result<Reader, ExprFault>
    requires { IsReader reader }
    ensures { MatchResult result (HasRead reader (Class.Good Sign.Open))
        (IsFaultAt (failing_here reader (Class.Good Sign.Open)) at) }
{
    if reader.waiting.len() >= MOST_OPEN {
        return Err(ExprFault::TooDeep { at });
    }
    let cost = if reader.piece.is_none() { 0 } else { 1 };
    let nodes = within_nodes(reader.nodes + cost, at)?;
    let mut waiting = reader.waiting;
    waiting.push(settle(alloc, reader.top, reader.piece)?)?;
    Ok(Reader {
        waiting,
        top: empty_frame(),
        piece: None,
        nodes,
    })
}

/// Reads `|`.
fn read_bar(alloc: Global, reader: Reader, at: u64) -> Result<Reader, ExprFault>
    requires { IsReader reader }
    ensures { MatchResult result (HasRead reader (Class.Good Sign.Bar))
        (IsFaultAt (failing_here reader (Class.Good Sign.Bar)) at) }
{
    let Reader {
        waiting,
        top,
        piece,
        nodes,
    } = reader;
    let Some(piece) = piece else {
        return Err(ExprFault::Unexpected { at });
    };
    let nodes = within_nodes(nodes + 1, at)?;
    let alternatives = whole(alloc, top, piece)?;
    Ok(Reader {
        waiting,
        top: Frame {
            alternatives: Some(alternatives),
            sequence: None,
        },
        piece: None,
        nodes,
    })
}

/// Reads a postfix sign.
fn read_postfix(
    alloc: Global,
    reader: Reader,
    quantifier: Quantifier,
    at: u64,
) -> Result<Reader, ExprFault>
    requires { IsReader reader }
    ensures { let class = Class.Good (Sign.Postfix quantifier) in
        MatchResult result (HasRead reader class) (IsFaultAt (failing_here reader class) at) }
{
    let Reader {
        waiting,
        top,
        piece,
        nodes,
    } = reader;
    let Some(piece) = piece else {
        return Err(ExprFault::Unexpected { at });
    };
    let nodes = within_nodes(nodes + 1, at)?;
    let piece = applied(alloc, quantifier, piece)?;
    Ok(Reader {
        waiting,
        top,
        piece: Some(piece),
        nodes,
    })
}

/// Reads `)`.
fn read_close(alloc: Global, reader: Reader, at: u64) -> Result<Reader, ExprFault>
    requires { IsReader reader }
    ensures { MatchResult result (HasRead reader (Class.Good Sign.Close))
        (IsFaultAt (failing_here reader (Class.Good Sign.Close)) at) }
{
    let Reader {
        mut waiting,
        top,
        piece,
        nodes,
    } = reader;
    let Some(piece) = piece else {
        return Err(ExprFault::Unexpected { at });
    };
    let Some(outer) = waiting.pop() else {
        return Err(ExprFault::Unexpected { at });
    };
    let inner = whole(alloc, top, piece)?;
    Ok(Reader {
        waiting,
        top: outer,
        piece: Some(inner),
        nodes,
    })
}

/// Reads a byte of a class, at a place.
pub fn read_class(alloc: Global, reader: Reader, class: Class, at: u64) -> Result<Reader, ExprFault>
    requires { IsReader reader }
    ensures { MatchResult result (HasRead reader class)
        (IsFaultAt (failing_here reader class) at) }
{
    match class {
        Class::Skipped => Ok(reader),
        Class::Unknown => Err(ExprFault::UnknownLetter { at }),
        Class::Strange => Err(ExprFault::Unexpected { at }),
        Class::Good(Sign::Operand(operand)) => read_operand(alloc, reader, operand, at),
        Class::Good(Sign::Bar) => read_bar(alloc, reader, at),
        Class::Good(Sign::Postfix(quantifier)) => read_postfix(alloc, reader, quantifier, at),
        Class::Good(Sign::Open) => read_open(alloc, reader, at),
        Class::Good(Sign::Close) => read_close(alloc, reader, at),
    }
}
