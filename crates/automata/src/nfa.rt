//! Automata with any number of initial states, of steps from one state by one letter, and of empty moves.
ghost use Rattle.std.specs.Prelude.{◌≡◌, ◌≢◌, ◌+◌, ◌*◌, ◌<◌, ◌≤◌, ◌&&◌, ◌||◌, ◌==◌, ◌⊎◌, ℕ, false, [], length, replicate, IfOk, IsTrue, OnOk, OnErr};
ghost use Rattle.language_theory.specs.Automaton.{Automaton, IsAutomaton, IsInOrder, HasMovesTakenIn, has_step, has_move, is_step, is_move, is_initial, is_final, is_marked};
ghost use Rattle.number_set.specs.Marks.{HasGained};
ghost use Rattle.automata.specs.Closures.{AreTakenIn};
ghost use Rattle.automata.specs.Nfa.{most_states, IsSized, IsRow, AreMoves, AreNear, HasMove, bare, with_initial, with_final, with_step, with_row, with_move};
ghost use Rattle.syn_words.specs.Alphabet.{most_letters};

use crate::closures::{closed, closed_rows, closures};
use number_set::NumberSet;
use std::alloc::Global;
use std::marker::Model;
use syn_words::Memory;

/// An automaton with 1 to 4,001 states and 1 to 60 letters. States and letters are numbers, counted from 0.
///
/// For each state and letter that have steps it keeps a row of marks, 64 to a word, so that all targets of a state by a
/// letter are at hand as a set; and so it keeps the empty moves of each state. A contract sees the steps in the order of
/// their states, letters and targets, and the empty moves in the order of their states and targets.
#[derive(Drop)]
pub struct Nfa {
    letters: u32,
    initial: Vec<bool>,
    finals: Vec<bool>,
    /// A set for each state and letter, first those of state 0: below 0 where there is no step yet, else below the
    /// number of states.
    rows: Vec<NumberSet>,
    /// No set where there is no empty move. Else a set for each state: below 0 where no empty move leads from it, else
    /// below the number of states.
    moves: Vec<NumberSet>,
}

impl Model for Nfa {
    ghost use Rattle.std.specs.Prelude.{◌≡◌, length};
    ghost use Rattle.language_theory.specs.Automaton.{Automaton};
    ghost use Rattle.automata.specs.Nfa.{IsSized, AreRows, AreMoves, of_rows};

    ghost Value = { Automaton };

    ghost view = { λ n.
        of_rows n.letters n.initial.items n.finals.items n.rows.items n.moves.items };

    ghost invariant = { λ n.
        IsSized (of_rows n.letters n.initial.items n.finals.items n.rows.items n.moves.items)
        × AreRows (length n.initial.items) n.letters n.rows.items
        × AreMoves (length n.initial.items) n.moves.items };
}

impl Nfa {
    /// An automaton with no initial states, final states, steps or empty moves. Condition: 1 to 4,001 states and 1 to 60
    /// letters.
    pub fn new(alloc: Global, states: u32, letters: u32) -> Result<Nfa, Memory>
        requires some_states { 1 ≤ states }
        requires few_states { states ≤ most_states }
        requires some_letters { 1 ≤ letters }
        requires few_letters { letters ≤ most_letters }
        ensures bare { IfOk result (λ m. m ≡ bare states letters) }
        ensures sized { IfOk result (λ m. IsSized m) }
    {
        let initial = vec![in alloc; false; states as usize]?;
        let finals = vec![in alloc; false; states as usize]?;
        let moves = Vec::new(alloc);
        let rows = no_rows(alloc, states as usize * letters as usize)?;
        Ok(Nfa {
            letters,
            initial,
            finals,
            rows,
            moves,
        })
    }

    /// An equal automaton of its own.
    pub fn copy(&self) -> Result<Nfa, Memory>
        ensures same { IfOk result (λ m. m ≡ self.now) }
        ensures sized { IfOk result (λ m. IsSized m) }
    {
        let alloc = self.allocator();
        Ok(Nfa {
            letters: self.letters,
            initial: Vec::from_slice(alloc, self.initial.as_slice())?,
            finals: Vec::from_slice(alloc, self.finals.as_slice())?,
            rows: copy_rows(alloc, self.rows.as_slice())?,
            moves: copy_rows(alloc, self.moves.as_slice())?,
        })
    }

    /// The number of states. The steps and the empty moves stand in order.
    pub fn states(&self) -> u32
        ensures states { result ≡ self.now.states }
        ensures sized { IsSized self.now }
        ensures ordered { IsInOrder self.now }
    {
        self.initial.len() as u32
    }

    /// The number of letters.
    pub fn letters(&self) -> u32
        ensures letters { result ≡ self.now.letters }
        ensures sized { IsSized self.now }
    {
        self.letters
    }

    /// Makes a state initial. Condition: `state < states`.
    pub fn set_initial(&mut self, state: u32)
        requires { state < self.old.states }
        ensures { self.new ≡ with_initial self.old state }
    {
        self.initial[state as usize] = true;
    }

    /// Makes a state final. Condition: `state < states`.
    pub fn set_final(&mut self, state: u32)
        requires { state < self.old.states }
        ensures { self.new ≡ with_final self.old state }
    {
        self.finals[state as usize] = true;
    }

    /// Adds a step. One that is there already changes nothing. After `Memory` the automaton is as it was.
    /// Condition: both states and the letter are in range.
    pub fn add_step(&mut self, from: u32, letter: u8, to: u32) -> Result<(), Memory>
        requires from { from < self.old.states }
        requires letter { letter < self.old.letters }
        requires to { to < self.old.states }
        ensures ok { OnOk result (self.new ≡ with_step self.old from letter to) }
        ensures steps { OnOk result
            ((p a q : ℕ) → has_step self.new p a q
            ≡ (has_step self.old p a q || is_step p a q (from, letter, to))) }
        ensures err { OnErr result (self.new ≡ self.old) }
    {
        let alloc = self.allocator();
        let states = self.states();
        let place = self.place(from, letter);
        insert(&mut self.rows[place], alloc, states, to)?;
        Ok(())
    }

    /// Adds the steps by a letter from a state to each state of a set. Conditions: the state and the letter are in
    /// range, and the set has a place for each state.
    pub fn add_row(&mut self, from: u32, letter: u8, to: NumberSet)
        requires from { from < self.old.states }
        requires letter { letter < self.old.letters }
        requires long { length to ≡ self.old.states }
        ensures row { self.new ≡ with_row self.old from letter to }
        ensures steps { (p a q : ℕ) → has_step self.new p a q
            ≡ (has_step self.old p a q || ((from == p) && ((letter == a) && is_marked to q))) }
    {
        let place = self.place(from, letter);
        unite(&mut self.rows[place], to);
    }

    /// The set of the states to which steps by a letter lead from a state. Its size is the number of states, or 0
    /// where there is no step. Condition: the state and the letter are in range.
    pub fn row(&self, state: u32, letter: u8) -> &NumberSet
        requires state { state < self.now.states }
        requires letter { letter < self.now.letters }
        ensures { IsRow self.now state letter result.now }
    {
        &self.rows[self.place(state, letter)]
    }

    /// Whether the automaton has a step.
    pub fn has_step(&self, from: u32, letter: u8, to: u32) -> bool
        ensures { result ≡ has_step self.now from letter to }
    {
        if from >= self.states() || letter as u32 >= self.letters {
            return false;
        }
        let row = self.row(from, letter);
        to < row.size() && row.contains(to)
    }

    /// Adds an empty move. One that is there already changes nothing. After `Memory` the automaton is as it was.
    /// Condition: both states are in range.
    pub fn add_empty(&mut self, from: u32, to: u32) -> Result<(), Memory>
        requires from { from < self.old.states }
        requires to { to < self.old.states }
        ensures ok { OnOk result (self.new ≡ with_move self.old from to) }
        ensures moves { OnOk result ((p q : ℕ) → has_move self.new p q
            ≡ (has_move self.old p q || is_move p q (from, to))) }
        ensures err { OnErr result (self.new ≡ self.old) }
    {
        let alloc = self.allocator();
        let states = self.states();
        add_move(&mut self.moves, alloc, states, from, to)?;
        Ok(())
    }

    /// Whether the automaton has an empty move. Condition: both states are in range.
    pub fn has_empty(&self, from: u32, to: u32) -> bool
        requires from { from < self.now.states }
        requires to { to < self.now.states }
        ensures { result ≡ has_move self.now from to }
    {
        if self.moves.is_empty() {
            return false;
        }
        let row = &self.moves[from as usize];
        if to >= row.size() {
            return false;
        }
        row.contains(to)
    }

    /// Whether there is any empty move.
    pub fn has_moves(&self) -> bool
        ensures some { IsTrue result → self.now.moves ≢ [] }
        ensures none { result ≡ false → self.now.moves ≡ [] }
    {
        !self.moves.is_empty()
    }

    /// The automaton with its empty moves taken in: it has none, and each word leads to the same states in it.
    pub fn without_moves(&self, alloc: Global) -> Result<Nfa, Memory>
        ensures { IfOk result (λ n. HasMovesTakenIn self.now n) }
    {
        let (initial, rows) = self.taken_in(alloc)?;
        let finals = Vec::from_slice(alloc, self.finals.as_slice())?;
        let moves = Vec::new(alloc);
        Ok(Nfa {
            letters: self.letters,
            initial,
            finals,
            rows,
            moves,
        })
    }

    /// The initial states and the rows of steps with empty moves behind them.
    fn taken_in(&self, alloc: Global) -> Result<(Vec<bool>, Vec<NumberSet>), Memory>
        ensures { IfOk result (λ made. AreTakenIn self.now made.0.items made.1.items) }
    {
        // Its contract tells that the automaton is within the limits.
        let _states = self.states();
        let closures = closures(alloc, self)?;
        let begin = NumberSet::from_marks(alloc, self.initials())?;
        let reached = closed(&begin, closures.as_slice())?;
        let initial = reached.to_marks()?;
        let rows = closed_rows(alloc, self.rows.as_slice(), closures.as_slice())?;
        Ok((initial, rows))
    }

    /// The set of a state and of the states to which empty moves lead from it. Condition: the state is in range.
    pub(crate) fn near(&self, alloc: Global, state: u32) -> Result<NumberSet, Memory>
        requires { state < self.now.states }
        ensures { IfOk result (λ set. AreNear self.now state set) }
    {
        let mut set = NumberSet::empty(alloc, self.states())?;
        set.insert(state);
        if !self.moves.is_empty() {
            set.union_with(&self.moves[state as usize]);
        }
        Ok(set)
    }

    /// Whether a state is initial. Condition: `state < states`.
    pub fn is_initial(&self, state: u32) -> bool
        requires { state < self.now.states }
        ensures { result ≡ is_initial self.now state }
    {
        self.initial[state as usize]
    }

    /// Whether a state is final. Condition: `state < states`.
    pub fn is_final(&self, state: u32) -> bool
        requires { state < self.now.states }
        ensures { result ≡ is_final self.now state }
    {
        self.finals[state as usize]
    }

    /// For each state whether it is initial.
    pub fn initials(&self) -> &[bool]
        ensures initial { result.now ≡ self.now.initial }
        ensures automaton { IsAutomaton self.now }
    {
        self.initial.as_slice()
    }

    /// For each state whether it is final.
    pub fn finals(&self) -> &[bool]
        ensures finals { result.now ≡ self.now.finals }
        ensures automaton { IsAutomaton self.now }
    {
        self.finals.as_slice()
    }

    /// The place of the row of a state and a letter.
    fn place(&self, state: u32, letter: u8) -> usize
        requires state { state < self.now.states }
        requires letter { letter < self.now.letters }
        ensures { result ≡ state * self.now.letters + letter }
    {
        state as usize * self.letters as usize + letter as usize
    }

    /// The allocator that the automaton keeps.
    pub(crate) fn allocator(&self) -> Global {
        *self.finals.allocator()
    }
}

/// Puts a state into a row, which gets a place for each state if it has none yet.
fn insert(row: &mut NumberSet, alloc: Global, states: u32, to: u32) -> Result<(), Memory>
    requires row { (length row.old ≡ 0) ⊎ (length row.old ≡ states) }
    requires to { to < states }
    ensures ok { OnOk result (HasGained row.old row.new states (λ q. to == q)) }
    ensures err { OnErr result (row.new ≡ row.old) }
{
    if row.size() == 0 {
        *row = NumberSet::empty(alloc, states)?;
    }
    row.insert(to);
    Ok(())
}

/// Puts the states of a set into a row, which has a place for each state or none yet.
fn unite(row: &mut NumberSet, to: NumberSet)
    requires row { (length row.old ≡ 0) ⊎ (length row.old ≡ length to) }
    ensures { HasGained row.old row.new (length to) (is_marked to) }
{
    if row.size() == 0 {
        *row = to;
    } else {
        row.union_with(&to);
    }
}

/// Adds an empty move to rows, of which there are none where there is no empty move yet.
fn add_move(
    moves: &mut Vec<NumberSet>,
    alloc: Global,
    states: u32,
    from: u32,
    to: u32,
) -> Result<(), Memory>
    requires moves { AreMoves states moves.old.items }
    requires from { from < states }
    requires to { to < states }
    ensures ok { OnOk result (HasMove states moves.old.items moves.new.items from to) }
    ensures err { OnErr result (moves.new.items ≡ moves.old.items) }
{
    if moves.is_empty() {
        let mut rows = no_rows(alloc, states as usize)?;
        insert(&mut rows[from as usize], alloc, states, to)?;
        *moves = rows;
        return Ok(());
    }
    insert(&mut moves[from as usize], alloc, states, to)?;
    Ok(())
}

/// A number of rows for which there is no step.
fn no_rows(alloc: Global, count: usize) -> Result<Vec<NumberSet>, Memory>
    ensures { IfOk result (λ rows. rows.items ≡ replicate count []) }
{
    let mut rows = Vec::with_capacity(alloc, count)?;
    for _ in 0..count {
        rows.push(NumberSet::empty(alloc, 0)?)?;
    }
    Ok(rows)
}

/// The same rows once more.
fn copy_rows(alloc: Global, rows: &[NumberSet]) -> Result<Vec<NumberSet>, Memory>
    ensures { IfOk result (λ copies. copies.items ≡ rows.now) }
{
    let mut copies = Vec::with_capacity(alloc, rows.len())?;
    for row in rows {
        copies.push(row.copy()?)?;
    }
    Ok(copies)
}
