//! Rewriting words by the rules of a finite monoid.
ghost use Rattle.std.specs.Prelude.{IfOk};
ghost use Rattle.language_theory.specs.Words.{Over};
ghost use Rattle.language_theory.specs.Representatives.{IsReduced};
ghost use Rattle.language_theory.specs.ShortlexGraph.{SameNode};
ghost use Rattle.monoid_theory.specs.Presentation.{AreRules, Rewrites};

use crate::rules::Rules;
use cayley_tables::Cayley;
use syn_words::{Memory, Word};

/// The reduced word that the rules of a monoid lead a word to: finitely many replacements lead
/// there, and no rule goes on from it. Conditions: these are the rules of the monoid, and the
/// word's letters are in range.
pub fn rewrite(cayley: &Cayley, rules: &Rules, word: &Word) -> Result<Word, Memory>
    requires rules { AreRules cayley.now.right.letters (SameNode cayley.now.right) cayley.now.words
        rules.now }
    requires over { Over cayley.now.right.letters word.now }
    ensures reduced { IfOk result (λ w. IsReduced cayley.now.right.letters
        (SameNode cayley.now.right) w) }
    ensures related { IfOk result (λ w. SameNode cayley.now.right word.now w) }
    ensures rewritten { IfOk result (λ w. Rewrites cayley.now.words rules.now word.now w) }
{
    // Its contract tells that these are the graphs of a monoid.
    let _len = cayley.len();
    // Replacements lead each word to the least word of its element, so the graph tells at once
    // where they end.
    let reduced = cayley.word(cayley.find(word))?;
    Ok(reduced)
}
