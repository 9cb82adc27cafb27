//! The edges of the right Cayley graph that lead to the element of the empty word.
ghost use Rattle.std.specs.Prelude.{◌≡◌, ◌<◌, ◌*◌, ◌/◌, ◌%◌, ◌++◌, [], ◌∷◌, length, IfOk};
ghost use Rattle.language_theory.specs.Words.{word_at};
ghost use Rattle.syntactic_monoid.specs.Action.{IsReturn};

use cayley_tables::Cayley;
use syn_words::{Memory, Word};

/// The place of the first edge of the right graph that leads to element 0, if there is one. The edge of element i with
/// letter a has the place `i * letters + a`.
pub(crate) fn first_return(cayley: &Cayley) -> Option<u32>
    ensures { IsReturn cayley.now.right result }
{
    let letters = cayley.letters();
    for place in 0..cayley.len() * letters {
        if cayley.right(place / letters, (place % letters) as u8) == 0 {
            return Some(place);
        }
    }
    None
}

/// The word of the element that an edge leaves, with the letter of the edge behind it. Condition: the place is in range.
pub(crate) fn edge_word(cayley: &Cayley, place: u32) -> Result<Word, Memory>
    requires { place < length cayley.now.words * cayley.now.right.letters }
    ensures { IfOk result (λ w. w
        ≡ word_at cayley.now.words (place / cayley.now.right.letters)
        ++ (place % cayley.now.right.letters) ∷ []) }
{
    let letters = cayley.letters();
    let mut word = cayley.word(place / letters)?;
    word.push((place % letters) as u8)?;
    Ok(word)
}
