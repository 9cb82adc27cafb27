//! Polish notation of an expression: its nodes, each before its parts.
ghost use Rattle.std.specs.Prelude.{◌≡◌, ◌∷◌, IfOk};
ghost use Rattle.expression_theory.specs.Polish as notation;
ghost use Rattle.regex_reader.specs.Expressions.{tree_of, waiting_trees};

use crate::Expr;
use expression_theory::Node;
use std::alloc::Global;
use syn_words::Memory;

/// The root of an expression, whose parts are put on top of those that wait, the left one last.
fn take_root<'a>(expr: &'a Expr, waiting: &mut Vec<&'a Expr>) -> Result<Node, Memory>
    ensures { IfOk result
        (λ n. n ∷ notation.polish_all
        (waiting_trees waiting.new.items) ≡ notation.polish_all
        (tree_of expr.now ∷ waiting_trees waiting.old.items)) }
{
    Ok(match expr {
        Expr::Zero => Node::Zero,
        Expr::One => Node::One,
        Expr::Letter(letter) => Node::Letter(*letter),
        Expr::Or(left, right) => {
            waiting.push(right)?;
            waiting.push(left)?;
            Node::Or
        }
        Expr::Cat(left, right) => {
            waiting.push(right)?;
            waiting.push(left)?;
            Node::Cat
        }
        Expr::Star(inner) => {
            waiting.push(inner)?;
            Node::Star
        }
        Expr::Plus(inner) => {
            waiting.push(inner)?;
            Node::Plus
        }
        Expr::Opt(inner) => {
            waiting.push(inner)?;
            Node::Opt
        }
    })
}

/// The Polish notation of an expression.
pub fn polish(alloc: Global, expr: &Expr) -> Result<Vec<Node>, Memory>
    ensures { IfOk result (λ nodes. nodes.items ≡ notation.polish (tree_of expr.now)) }
{
    let mut nodes = Vec::new(alloc);
    let mut waiting = Vec::new(alloc);
    waiting.push(expr)?;
    while let Some(next) = waiting.pop() {
        let node = take_root(next, &mut waiting)?;
        nodes.push(node)?;
    }
    Ok(nodes)
}
