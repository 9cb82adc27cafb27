//! The position automaton (Glushkov).
ghost use Rattle.std.specs.Prelude.{◌≡◌, ◌+◌, ◌++◌, ◌∷◌, [], ◌<◌, ◌≤◌, ◌&&◌, ◌==◌, ℕ, ◌↔◌, List, length, IfOk, OnOk};
ghost use Rattle.std.specs.List.{All};
ghost use Rattle.language_theory.specs.Automaton.{Automaton, Accepts};
ghost use Rattle.syn_words.specs.Alphabet.{most_letters};
ghost use Rattle.expression_theory.specs.Expression.{Means};
ghost use Rattle.expression_theory.specs.Positions.{IsPositions, IsWithin};
ghost use Rattle.expression_theory.specs.FirstLast.{has};
ghost use Rattle.expression_theory.specs.Polish as notation;
ghost use Rattle.regex_reader.specs.Expressions.{tree_of};
ghost use Rattle.regex_reader.specs.Marks.{widest, is_marked};
ghost use Rattle.regex_reader.specs.Growth.{HasFinals, HasGrown, HasPositions, IsRowStep, IsLetterStep, IsEarlyStep, IsBuilt};

use crate::Expr;
use crate::evaluation::evaluate;
use crate::marks::Marks;
use crate::parts::Part;
use crate::polish::polish;
use automata::Nfa;
use expression_theory::Node;
use number_set::NumberSet;
use std::alloc::Global;
use syn_words::Memory;

/// Appends the letter of a node, if it is one.
fn push_letter(node: Node, letters: &mut Vec<u8>) -> Result<(), Memory>
    ensures { OnOk result
        (letters.new.items ≡ letters.old.items ++ notation.letters (node ∷ [])) }
{
    if let Node::Letter(letter) = node {
        letters.push(letter)?;
    }
    Ok(())
}

/// The letters at the positions, from the left.
fn position_letters(alloc: Global, nodes: &[Node]) -> Result<Vec<u8>, Memory>
    ensures { IfOk result (λ letters. letters.items ≡ notation.letters nodes.now) }
{
    let mut letters = Vec::new(alloc);
    for node in nodes {
        push_letter(*node, &mut letters)?;
    }
    Ok(letters)
}

/// Makes a state final, if it is to be.
fn set_final_if(nfa: &mut Nfa, is_final: bool, state: u32)
    requires state { state < nfa.old.states }
    requires long { length nfa.old.finals ≡ nfa.old.states }
    ensures { HasFinals nfa.old nfa.new (λ p. is_final && (state == p)) }
{
    if is_final {
        nfa.set_final(state);
    }
}

/// Makes each of the states final.
fn set_finals(nfa: &mut Nfa, states: &[u32])
    requires states { All (λ p. p < nfa.old.states) states.now }
    requires long { length nfa.old.finals ≡ nfa.old.states }
    ensures { HasFinals nfa.old nfa.new (has states.now) }
{
    for state in states {
        set_final_if(nfa, true, *state);
    }
}

/// The positions that have a letter, where the letters of all positions are given. State 0 is no position.
fn positions_with(alloc: Global, positions: &[u8], letter: u8) -> Result<NumberSet, Memory>
    requires { length positions.now < widest }
    ensures { IfOk result (HasPositions positions.now (length positions.now) letter) }
{
    let mut found = NumberSet::empty(alloc, positions.len() as u32 + 1)?;
    for (place, other) in positions.iter().enumerate() {
        if *other == letter {
            found.insert(place as u32 + 1);
        }
    }
    Ok(found)
}

/// Adds the steps by a letter from a state, where the positions that have the letter are given.
fn add_steps(
    nfa: &mut Nfa,
    marks: &Marks,
    state: u32,
    letter: u8,
    found: &NumberSet,
) -> Result<(), Memory>
    requires states { nfa.old.states ≡ marks.now.width }
    requires state { state < marks.now.width }
    requires letter { letter < nfa.old.letters }
    requires long { length found.now ≡ marks.now.width }
    ensures { OnOk result (HasGrown nfa.old nfa.new (IsRowStep marks.now found.now state letter)) }
{
    let next = marks.row(state);
    if next.meets(found) {
        let mut row = next.copy()?;
        row.intersect_with(found);
        nfa.add_row(state, letter, row);
    }
    Ok(())
}

/// Adds the steps by a letter from each state, where the positions that have the letter are given.
fn add_letter(nfa: &mut Nfa, marks: &Marks, letter: u8, found: &NumberSet) -> Result<(), Memory>
    requires states { nfa.old.states ≡ marks.now.width }
    requires letter { letter < nfa.old.letters }
    requires long { length found.now ≡ marks.now.width }
    ensures { OnOk result
        (HasGrown nfa.old nfa.new (IsLetterStep marks.now found.now letter marks.now.width)) }
{
    for state in 0..marks.width() as u32 {
        add_steps(nfa, marks, state, letter, found)?;
    }
    Ok(())
}

/// Adds the steps by each letter from each state, where the letters of the positions are given.
fn add_letters(
    alloc: Global,
    nfa: &mut Nfa,
    marks: &Marks,
    positions: &[u8],
    letters: u8,
) -> Result<(), Memory>
    requires states { nfa.old.states ≡ marks.now.width }
    requires letters { nfa.old.letters ≡ letters }
    requires width { marks.now.width ≡ length positions.now + 1 }
    requires narrow { marks.now.width ≤ widest }
    ensures { OnOk result
        (HasGrown nfa.old nfa.new (IsEarlyStep marks.now positions.now letters)) }
{
    for letter in 0..letters {
        let found = positions_with(alloc, positions, letter)?;
        add_letter(nfa, marks, letter, &found)?;
    }
    Ok(())
}

/// Builds the automaton from the positions that can end a word, what follows what, and the letters at the positions.
fn build(
    alloc: Global,
    part: &Part,
    marks: &Marks,
    positions: &[u8],
    letters: u32,
) -> Result<Nfa, Memory>
    requires some { 1 ≤ letters }
    requires few { letters ≤ most_letters }
    requires width { marks.now.width ≡ length positions.now + 1 }
    requires narrow { marks.now.width ≤ widest }
    requires last { All (λ p. p < length positions.now + 1) part.now.last }
    requires letters { All (λ a. a < letters) positions.now }
    ensures { IfOk result
        (IsBuilt part.now.has_empty part.now.last marks.now positions.now letters) }
{
    let mut nfa = Nfa::new(alloc, positions.len() as u32 + 1, letters)?;
    nfa.set_initial(0);
    set_final_if(&mut nfa, part.has_empty(), 0);
    set_finals(&mut nfa, part.last());
    add_letters(alloc, &mut nfa, marks, positions, letters as u8)?;
    // An automaton tells with its size that its steps stand in order.
    let _size = nfa.states();
    Ok(nfa)
}

/// The position automaton of an expression over the first `letters` letters. It accepts exactly the expression's words.
///
/// Condition: the expression has at most 4,000 nodes, `letters` is from 1 to 60, and every letter is below `letters`.
/// State 0 is the only initial state, and state i is the i-th position from the left: a position is an occurrence of a
/// letter. A step leads from 0 to each position that can begin a word, and from a position to each that can follow it,
/// where each position counts as a letter of its own: a position that stands in no word has no step. Final are the
/// positions that can end a word, and 0 where the empty word belongs (Glushkov).
pub fn positions(alloc: Global, expr: &Expr, letters: u32) -> Result<Nfa, Memory>
    requires within { IsWithin letters (tree_of expr.now) }
    requires some { 1 ≤ letters }
    requires few { letters ≤ most_letters }
    ensures positions { IfOk result (λ m. IsPositions (tree_of expr.now) letters m) }
    ensures language { IfOk result (λ m. (w : List ℕ) → Accepts m w ↔ Means (tree_of expr.now) w) }
{
    let nodes = polish(alloc, expr)?;
    let positions = position_letters(alloc, &nodes)?;
    let mut marks = Marks::new(alloc, positions.len() + 1)?;
    let part = evaluate(alloc, &nodes, &mut marks)?;
    marks.add_row(0, part.first());
    let nfa = build(alloc, &part, &marks, &positions, letters)?;
    Ok(nfa)
}
