//! The reader of expressions.
ghost use Rattle.std.specs.Prelude.{◌≡◌, IfOk, IfErr, length};
ghost use Rattle.expression_theory.specs.Scan.{classes, IsAccepted, SpellsTree};
ghost use Rattle.expression_theory.specs.Positions.{IsWithin};
ghost use Rattle.regex_reader.specs.Expressions.{tree_of};
ghost use Rattle.regex_reader.specs.Readers.{IsFirstFault};

use crate::frames::whole;
use crate::reader::{Reader, read_class, start};
use crate::sign::classify;
use crate::{Expr, ExprFault};
use std::alloc::Global;
use syn_words::Alphabet;

/// The expression that a text spells.
///
/// The signs are the letters of the alphabet, `0` (no word), `1` (the empty word), `|` (union), juxtaposition
/// (concatenation), the postfix signs `*` (any number of times), `+` (once or more) and `?` (once or not), and
/// parentheses. Spaces and tabs are skipped. A postfix sign binds tightest, then juxtaposition, then `|`; both group
/// to the left. At most 200 parentheses are open at once, and the tree has at most 4,000 nodes.
///
/// Each fault but `Memory` comes exactly where the tests, taken at one byte after the other, first fail with it there.
pub fn read_expr(alloc: Global, text: &[u8], alphabet: &Alphabet) -> Result<Expr, ExprFault>
    ensures accepted { IfOk result (λ e. IsAccepted (classes alphabet.now text.now)) }
    ensures spells { IfOk result (λ e. SpellsTree (classes alphabet.now text.now) (tree_of e)) }
    ensures within { IfOk result (λ e. IsWithin (length alphabet.now) (tree_of e)) }
    ensures fault { IfErr result (λ f. IsFirstFault (classes alphabet.now text.now) f) }
{
    let letters = alphabet.letters();
    let mut reader = start(alloc);
    for (at, byte) in text.iter().enumerate() {
        reader = read_class(alloc, reader, classify(*byte, letters), at as u64)?;
    }
    let Reader {
        waiting,
        top,
        piece,
        ..
    } = reader;
    let at = text.len() as u64;
    if !waiting.is_empty() {
        return Err(ExprFault::Unexpected { at });
    }
    let Some(piece) = piece else {
        return Err(ExprFault::Unexpected { at });
    };
    Ok(whole(alloc, top, piece)?)
}
