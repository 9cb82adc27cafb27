//! The parts of a file, each read from its line.

ghost use Rattle.std.specs.Prelude.{◌≡◌, ◌≢◌, ◌<◌, None, Some, true, false, [], ◌∷◌, length, MatchOption, MatchResult, IfOk, IfErr, OnOk};
ghost use Rattle.std.specs.List.{list_all, concat};
ghost use Rattle.syn_words.specs.Alphabet.{IsAlphabet};
ghost use Rattle.expression_theory.specs.Scan.{classes, SpellsTree};
ghost use Rattle.expression_theory.specs.Positions.{IsWithin};
ghost use Rattle.regex_reader.specs.Expressions.{tree_of};
ghost use Rattle.automaton_file.specs.LineText.{fields};
ghost use Rattle.automaton_file.specs.ExprText.{is_expression};
ghost use Rattle.automaton_file.specs.FileText.{unless, header_fault, alphabet_fault, letters_of, count_of, body_fault, is_state, marks_fault, letter_of, step_fault};
ghost use Rattle.automaton_file.specs.Reading.{with_marks, with_line, with_step_line, IsBodyLine, mark_word, mark_state, IsLineFault};

use crate::faults::LineFault;
use crate::fields::{first_field, number_below};
use crate::sources::Wrong;
use automata::Nfa;
use regex_reader::{Expr, read_expr};
use std::alloc::Global;
use syn_words::{Alphabet, AlphabetFault, Memory};

/// The most states that the automaton of a file may have.
const MOST_STATES: u32 = 1000;

/// The body that a body line begins.
#[derive(Drop)]
pub enum BodyLine {
    Expr(Expr),
    /// An automaton with this count of states.
    Nfa(u32),
}

/// What a line of state numbers says of them.
#[derive(Clone, Copy)]
pub enum Mark {
    Initial,
    Final,
}

/// The field of a line with exactly one.
fn one_field(text: &[u8]) -> Option<&[u8]>
    ensures { MatchOption result (length (fields text.now) ≢ 1)
        (λ f. fields text.now ≡ f.now ∷ []) }
{
    let first = first_field(text)?;
    match first_field(first.rest) {
        Some(_) => None,
        None => Some(first.bytes),
    }
}

/// The fields of a line with exactly two.
fn two_fields(text: &[u8]) -> Option<(&[u8], &[u8])>
    ensures { MatchOption result (length (fields text.now) ≢ 2)
        (λ p. fields text.now ≡ p.0.now ∷ p.1.now ∷ []) }
{
    let first = first_field(text)?;
    let second = one_field(first.rest)?;
    Some((first.bytes, second))
}

/// The fields of a line with exactly three.
fn three_fields(text: &[u8]) -> Option<(&[u8], &[u8], &[u8])>
    ensures { MatchOption result (length (fields text.now) ≢ 3)
        (λ p. fields text.now ≡ p.0.now ∷ p.1.now ∷ p.2.now ∷ []) }
{
    let first = first_field(text)?;
    let (second, third) = two_fields(first.rest)?;
    Some((first.bytes, second, third))
}

/// Tests the header line. The error is the test that it fails.
pub fn read_header(text: &[u8]) -> Result<(), Wrong>
    ensures { MatchResult result (λ _. header_fault (fields text.now) ≡ None)
        (λ wrong. header_fault (fields text.now) ≡ Some wrong) }
{
    match two_fields(text) {
        Some((word, version)) => {
            if word == b"synmon".as_slice() && version == b"1".as_slice() {
                Ok(())
            } else {
                Err(Wrong::Header)
            }
        }
        None => Err(Wrong::Header),
    }
}

/// The fields of a text, put together.
fn joined_fields(alloc: Global, text: &[u8]) -> Result<Vec<u8>, Memory>
    ensures { IfOk result (λ joined. joined.items ≡ concat (fields text.now)) }
{
    let mut joined = Vec::new(alloc);
    let mut rest = text;
    'fields: while let Some(field) = first_field(rest) {
        joined.extend_from_slice(field.bytes)?;
        rest = field.rest;
    }
    Ok(joined)
}

/// The alphabet of an alphabet line.
pub fn read_alphabet(alloc: Global, text: &[u8]) -> Result<Alphabet, LineFault>
    ensures ok { IfOk result (λ letters. (alphabet_fault (fields text.now) ≡ None)
        × (letters ≡ letters_of (fields text.now)) × IsAlphabet letters) }
    ensures err { IfErr result (λ e. IsLineFault (alphabet_fault (fields text.now)) e) }
{
    match first_field(text) {
        Some(word) if word.bytes == b"alphabet".as_slice() => {
            let letters = joined_fields(alloc, word.rest)?;
            match Alphabet::from_text(alloc, letters.as_slice()) {
                Ok(alphabet) => Ok(alphabet),
                Err(AlphabetFault::Bad) => Err(LineFault::Bad(Wrong::Alphabet)),
                Err(AlphabetFault::Memory) => Err(LineFault::Memory),
            }
        }
        _ => Err(LineFault::Bad(Wrong::Alphabet)),
    }
}

/// The count of states that a text spells, or 0.
fn read_count(text: &[u8]) -> u32
    ensures { result ≡ count_of (fields text.now) }
{
    match one_field(text) {
        Some(number) => number_below(MOST_STATES + 1, number).unwrap_or(0),
        None => 0,
    }
}

/// The expression that a text spells.
fn read_expression(alloc: Global, alphabet: &Alphabet, text: &[u8]) -> Result<Expr, LineFault>
    ensures accepted { OnOk result (is_expression alphabet.now text.now ≡ true) }
    ensures spells { IfOk result (λ e. SpellsTree (classes alphabet.now text.now) (tree_of e)) }
    ensures within { IfOk result (λ e. IsWithin (length alphabet.now) (tree_of e)) }
    ensures err { IfErr result
        (IsLineFault (unless (is_expression alphabet.now text.now) Wrong.Expression)) }
{
    let expr = read_expr(alloc, text, alphabet)?;
    Ok(expr)
}

/// What a body line begins.
pub fn read_body(alloc: Global, alphabet: &Alphabet, text: &[u8]) -> Result<BodyLine, LineFault>
    ensures ok { IfOk result (λ body. (body_fault alphabet.now text.now ≡ None)
        × IsBodyLine alphabet.now text.now body) }
    ensures err { IfErr result (IsLineFault (body_fault alphabet.now text.now)) }
{
    let Some(word) = first_field(text) else {
        return Err(LineFault::Bad(Wrong::Body));
    };
    if word.bytes == b"expr".as_slice() {
        let expr = read_expression(alloc, alphabet, word.rest)?;
        return Ok(BodyLine::Expr(expr));
    }
    if word.bytes != b"nfa".as_slice() {
        return Err(LineFault::Bad(Wrong::Body));
    }
    let count = read_count(word.rest);
    if count == 0 {
        return Err(LineFault::Bad(Wrong::Count));
    }
    Ok(BodyLine::Nfa(count))
}

/// The field that a line of state numbers begins with.
fn word_of(mark: Mark) -> &'static [u8]
    ensures { result.now ≡ mark_word mark }
{
    match mark {
        Mark::Initial => b"initial",
        Mark::Final => b"final",
    }
}

/// Marks a state.
fn mark_state(mark: Mark, nfa: &mut Nfa, state: u32)
    requires { state < nfa.old.states }
    ensures { nfa.new ≡ mark_state mark nfa.old state }
{
    match mark {
        Mark::Initial => nfa.set_initial(state),
        Mark::Final => nfa.set_final(state),
    }
}

/// Marks each state whose number the text spells. The error is that a field is no state number.
fn mark_states(mark: Mark, nfa: &mut Nfa, text: &[u8]) -> Result<(), Wrong>
    ensures ok { OnOk result ((list_all (is_state nfa.old.states) (fields text.now) ≡ true)
        × (nfa.new ≡ with_marks (mark_state mark) nfa.old (fields text.now))) }
    ensures err { IfErr result
        (λ wrong. (list_all (is_state nfa.old.states) (fields text.now) ≡ false)
        × (wrong ≡ Wrong.State)) }
    ensures states { nfa.new.states ≡ nfa.old.states }
    ensures letters { nfa.new.letters ≡ nfa.old.letters }
{
    let states = nfa.states();
    let mut rest = text;
    'fields: while let Some(field) = first_field(rest) {
        let Some(state) = number_below(states, field.bytes) else {
            return Err(Wrong::State);
        };
        mark_state(mark, nfa, state);
        rest = field.rest;
    }
    Ok(())
}

/// Marks the states of a line `initial` or `final`. The error is the first test that the line fails.
pub fn read_marks(mark: Mark, nfa: &mut Nfa, text: &[u8]) -> Result<(), Wrong>
    ensures ok { OnOk result
        ((marks_fault (mark_word mark) nfa.old.states (fields text.now) ≡ None)
        × (nfa.new ≡ with_line (mark_state mark) nfa.old (fields text.now))) }
    ensures err { IfErr result
        (λ wrong. marks_fault (mark_word mark) nfa.old.states (fields text.now) ≡ Some wrong) }
    ensures states { nfa.new.states ≡ nfa.old.states }
    ensures letters { nfa.new.letters ≡ nfa.old.letters }
{
    let Some(word) = first_field(text) else {
        return Err(Wrong::Missing);
    };
    if word.bytes != word_of(mark) {
        return Err(Wrong::Missing);
    }
    mark_states(mark, nfa, word.rest)
}

/// The number of the letter that a field is.
fn read_letter(alphabet: &Alphabet, field: &[u8]) -> Option<u8>
    requires { IsAlphabet alphabet.now }
    ensures { result ≡ letter_of alphabet.now field.now }
{
    match field {
        [byte] => alphabet.number(*byte),
        _ => None,
    }
}

/// Adds the step of a step line.
pub fn read_step(alphabet: &Alphabet, nfa: &mut Nfa, text: &[u8]) -> Result<(), LineFault>
    requires alphabet { IsAlphabet alphabet.now }
    requires letters { nfa.old.letters ≡ length alphabet.now }
    ensures ok { OnOk result ((step_fault alphabet.now nfa.old.states (fields text.now) ≡ None)
        × (nfa.new ≡ with_step_line alphabet.now nfa.old (fields text.now))) }
    ensures err { IfErr result
        (λ e. IsLineFault (step_fault alphabet.now nfa.old.states (fields text.now)) e) }
    ensures states { nfa.new.states ≡ nfa.old.states }
    ensures same_letters { nfa.new.letters ≡ nfa.old.letters }
{
    let Some((from, letter, to)) = three_fields(text) else {
        return Err(LineFault::Bad(Wrong::OutOfPlace));
    };
    let states = nfa.states();
    let Some(from) = number_below(states, from) else {
        return Err(LineFault::Bad(Wrong::State));
    };
    let Some(letter) = read_letter(alphabet, letter) else {
        return Err(LineFault::Bad(Wrong::Letter));
    };
    let Some(to) = number_below(states, to) else {
        return Err(LineFault::Bad(Wrong::State));
    };
    nfa.add_step(from, letter, to)?;
    Ok(())
}
