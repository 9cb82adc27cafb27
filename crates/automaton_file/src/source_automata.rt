//! Automata of sources.

ghost use Rattle.std.specs.Prelude.{◌↔◌, ℕ, List, length, IfOk};
ghost use Rattle.language_theory.specs.Automaton.{Accepts};
ghost use Rattle.automaton_file.specs.FileText.{body_text, source_text, language_of, IsBodyAutomaton, CanBuild};

use crate::sources::{Body, Source};
use automata::Nfa;
use regex_reader::positions;
use std::alloc::Global;
use syn_words::Memory;

/// The automaton of a source: that of the file, or the position automaton of its expression. It accepts exactly the
/// words of the source's language. Condition: an expression meets the condition of `positions` for the alphabet's
/// number of letters.
pub fn body_nfa(alloc: Global, source: &Source) -> Result<Nfa, Memory>
    requires { CanBuild (length source.now.alphabet) (body_text source.now.body) }
    ensures automaton { IfOk result
        (λ m. IsBodyAutomaton (length source.now.alphabet) (body_text source.now.body) m) }
    ensures language { IfOk result (λ m. (w : List ℕ) → Accepts m w
        ↔ language_of (source_text source.now) w) }
{
    match &source.body {
        Body::Nfa(nfa) => nfa.copy(),
        Body::Expr(expr) => positions(alloc, expr, source.alphabet.len()),
    }
}
