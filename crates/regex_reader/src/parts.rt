//! What can begin and end a word of a part of an expression.
ghost use Rattle.std.specs.Prelude.{◌≡◌, ◌+◌, ◌≤◌, ◌<◌, ◌&&◌, ◌||◌, ◌++◌, [], ◌∷◌, ◌^◌, cond, true, false, IfOk};
ghost use Rattle.regex_reader.specs.Parts.{closed, with_empty};

use std::alloc::Global;
use std::marker::Model;
use syn_words::Memory;

/// A part of an expression whose positions are numbered from the left.
#[derive(Drop)]
pub struct Part {
    has_word: bool,
    has_empty: bool,
    is_closed: bool,
    positions: u32,
    first: Vec<u32>,
    last: Vec<u32>,
}

impl Model for Part {
    ghost use Rattle.regex_reader.specs.Parts.{Summary};

    ghost Value = { Summary };

    ghost view = { λ r. record {
      has_word = r.has_word;
      has_empty = r.has_empty;
      is_closed = r.is_closed;
      positions = r.positions;
      first = r.first.items;
      last = r.last.items;
    } };
}

impl Part {
    /// A part in which no position can stand in a word. It has the empty word or none.
    pub fn bare(alloc: Global, has_empty: bool, positions: u32) -> Part
        ensures word { result.has_word ≡ has_empty }
        ensures empty { result.has_empty ≡ has_empty }
        ensures closed { result.is_closed ≡ true }
        ensures positions { result.positions ≡ positions }
        ensures first { result.first ≡ [] }
        ensures last { result.last ≡ [] }
    {
        Part {
            has_word: has_empty,
            has_empty,
            is_closed: true,
            positions,
            first: Vec::new(alloc),
            last: Vec::new(alloc),
        }
    }

    /// A part that is one position.
    pub fn one_position(alloc: Global, position: u32) -> Result<Part, Memory>
        ensures word { IfOk result (λ r. r.has_word ≡ true) }
        ensures empty { IfOk result (λ r. r.has_empty ≡ false) }
        ensures closed { IfOk result (λ r. r.is_closed ≡ false) }
        ensures positions { IfOk result (λ r. r.positions ≡ 1) }
        ensures first { IfOk result (λ r. r.first ≡ position ∷ []) }
        ensures last { IfOk result (λ r. r.last ≡ position ∷ []) }
    {
        Ok(Part {
            has_word: true,
            has_empty: false,
            is_closed: false,
            positions: 1,
            first: vec![in alloc; position]?,
            last: vec![in alloc; position]?,
        })
    }

    /// Whether it has the empty word.
    pub fn has_empty(&self) -> bool
        ensures { result ≡ self.now.has_empty }
    {
        self.has_empty
    }

    /// Whether it is known that each position that can begin a word can follow each that can end one.
    pub fn is_closed(&self) -> bool
        ensures { result ≡ self.now.is_closed }
    {
        self.is_closed
    }

    /// How many positions it has.
    pub fn positions(&self) -> u32
        ensures { result ≡ self.now.positions }
    {
        self.positions
    }

    /// The positions that can begin a word.
    pub fn first(&self) -> &[u32]
        ensures { result.now ≡ self.now.first }
    {
        &self.first
    }

    /// The positions that can end a word.
    pub fn last(&self) -> &[u32]
        ensures { result.now ≡ self.now.last }
    {
        &self.last
    }

    /// The part of which it is known that each position that can begin a word can follow each that can end one.
    pub fn closed(self) -> Part
        ensures { result ≡ closed self }
    {
        Part {
            is_closed: true,
            ..self
        }
    }

    /// The part with the empty word.
    pub fn with_empty(self) -> Part
        ensures { result ≡ with_empty self }
    {
        Part {
            has_word: true,
            has_empty: true,
            ..self
        }
    }
}

/// Whether both parts have a word.
pub fn have_words(left: &Part, right: &Part) -> bool
    ensures { result ≡ (left.now.has_word && right.now.has_word) }
{
    left.has_word && right.has_word
}

/// The union of two parts.
pub fn either(left: Part, right: Part) -> Result<Part, Memory>
    requires { left.positions + right.positions < 2 ^ 32 }
    ensures word { IfOk result (λ r. r.has_word ≡ (left.has_word || right.has_word)) }
    ensures empty { IfOk result (λ r. r.has_empty ≡ (left.has_empty || right.has_empty)) }
    ensures closed { IfOk result (λ r. r.is_closed ≡ false) }
    ensures positions { IfOk result (λ r. r.positions ≡ left.positions + right.positions) }
    ensures first { IfOk result (λ r. r.first ≡ left.first ++ right.first) }
    ensures last { IfOk result (λ r. r.last ≡ left.last ++ right.last) }
{
    let mut first = left.first;
    let mut last = left.last;
    first.extend_from_slice(&right.first)?;
    last.extend_from_slice(&right.last)?;
    Ok(Part {
        has_word: left.has_word || right.has_word,
        has_empty: left.has_empty || right.has_empty,
        is_closed: false,
        positions: left.positions + right.positions,
        first,
        last,
    })
}

/// One part behind the other, where both have words.
pub fn behind(left: Part, right: Part) -> Result<Part, Memory>
    requires { left.positions + right.positions < 2 ^ 32 }
    ensures word { IfOk result (λ r. r.has_word ≡ true) }
    ensures empty { IfOk result (λ r. r.has_empty ≡ (left.has_empty && right.has_empty)) }
    ensures closed { IfOk result (λ r. r.is_closed ≡ false) }
    ensures positions { IfOk result (λ r. r.positions ≡ left.positions + right.positions) }
    ensures first { IfOk result
        (λ r. r.first ≡ left.first ++ cond left.has_empty right.first []) }
    ensures last { IfOk result
        (λ r. r.last ≡ cond right.has_empty left.last [] ++ right.last) }
{
    let mut first = left.first;
    let mut last = left.last;
    if left.has_empty {
        first.extend_from_slice(&right.first)?;
    }
    if !right.has_empty {
        last.clear();
    }
    last.extend_from_slice(&right.last)?;
    Ok(Part {
        has_word: true,
        has_empty: left.has_empty && right.has_empty,
        is_closed: false,
        positions: left.positions + right.positions,
        first,
        last,
    })
}
