//! What was read inside one pair of parentheses.
ghost use Rattle.std.specs.Prelude.{◌≡◌, IfOk};
ghost use Rattle.expression_theory.specs.Grammar as grammar;
ghost use Rattle.expression_theory.specs.Frames as frames;
ghost use Rattle.regex_reader.specs.Expressions.{tree_of, tree_in};

use crate::Expr;
use expression_theory::{Leaf, Quantifier};
use std::alloc::Global;
use syn_words::Memory;

/// The union before the last `|`, and the sequence behind it before the last piece.
#[derive(Drop)]
pub struct Frame {
    pub alternatives: Option<Expr>,
    pub sequence: Option<Expr>,
}

/// The tree of a letter, `0` or `1`.
pub fn leaf(operand: Leaf) -> Expr
    ensures { tree_of result ≡ grammar.leaf_tree operand }
{
    match operand {
        Leaf::Zero => Expr::Zero,
        Leaf::One => Expr::One,
        Leaf::Letter(letter) => Expr::Letter(letter),
    }
}

/// A piece and a postfix sign behind it.
pub fn applied(alloc: Global, quantifier: Quantifier, piece: Expr) -> Result<Expr, Memory>
    ensures { IfOk result
        (λ e. tree_of e ≡ grammar.applied quantifier (tree_of piece)) }
{
    let part = Box::new(alloc, piece)?;
    Ok(match quantifier {
        Quantifier::Star => Expr::Star(part),
        Quantifier::Plus => Expr::Plus(part),
        Quantifier::Opt => Expr::Opt(part),
    })
}

/// A sequence and a piece behind it.
fn joined(alloc: Global, sequence: Option<Expr>, piece: Expr) -> Result<Expr, Memory>
    ensures { IfOk result (λ e. tree_of e ≡ frames.joined (tree_in sequence) (tree_of piece)) }
{
    match sequence {
        None => Ok(piece),
        Some(before) => Ok(Expr::Cat(Box::new(alloc, before)?, Box::new(alloc, piece)?)),
    }
}

/// A union and a sequence beside it.
fn either(alloc: Global, alternatives: Option<Expr>, sequence: Expr) -> Result<Expr, Memory>
    ensures { IfOk result
        (λ e. tree_of e ≡ frames.either (tree_in alternatives) (tree_of sequence)) }
{
    match alternatives {
        None => Ok(sequence),
        Some(before) => Ok(Expr::Or(Box::new(alloc, before)?, Box::new(alloc, sequence)?)),
    }
}

/// All that was read in a frame, whose last piece is given.
pub fn whole(alloc: Global, frame: Frame, piece: Expr) -> Result<Expr, Memory>
    ensures { IfOk result
        (λ e. tree_of e ≡ frames.whole (tree_in frame.alternatives) (tree_in frame.sequence)
        (tree_of piece)) }
{
    let last = joined(alloc, frame.sequence, piece)?;
    either(alloc, frame.alternatives, last)
}

/// The frame whose last piece, if there is one, has joined its sequence.
pub fn settle(alloc: Global, frame: Frame, piece: Option<Expr>) -> Result<Frame, Memory>
    ensures alternatives { IfOk result (λ f. tree_in f.alternatives ≡ tree_in frame.alternatives) }
    ensures sequence { IfOk result
        (λ f. tree_in f.sequence ≡ frames.settle (tree_in frame.sequence) (tree_in piece)) }
{
    let Some(last) = piece else {
        return Ok(frame);
    };
    let sequence = joined(alloc, frame.sequence, last)?;
    Ok(Frame {
        alternatives: frame.alternatives,
        sequence: Some(sequence),
    })
}
