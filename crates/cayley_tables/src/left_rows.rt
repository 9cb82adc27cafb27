//! The rows of the left Cayley graph, one after another.
ghost use Rattle.std.specs.Prelude.{◌≡◌, ◌<◌, ◌≤◌, ◌+◌, ◌*◌, length, take, OnOk, OnErr};
ghost use Rattle.cayley_tables.specs.LeftRows.{CanGoOn, GoesOn, left_target};

use crate::links::Links;
use syn_words::Memory;

/// Puts the rows of the left Cayley graph for the elements from `from` to before `to` behind those of the elements
/// before them. Condition: the links of these elements are known, and the right row of each element whose word is no
/// longer than one of theirs. After `Memory` the rows that were there stand, and more may stand behind them.
pub fn push_left_rows(
    letters: u32,
    right: &[u32],
    links: &Links,
    from: u32,
    to: u32,
    left: &mut Vec<u32>,
) -> Result<(), Memory>
    requires can { CanGoOn letters right.now links.now to left.old.items }
    requires order { from ≤ to }
    requires here { length left.old.items ≡ from * letters }
    ensures there { OnOk result (length left.new.items ≡ to * letters) }
    ensures left { OnOk result
        (GoesOn letters right.now links.now to left.old.items left.new.items) }
    ensures err { OnErr result (take (length left.old.items) left.new.items ≡ left.old.items) }
{
    for element in from..to {
        push_left_row(letters, right, links, element, left)?;
    }
    Ok(())
}

/// Puts the row of an element behind those of the elements before it.
fn push_left_row(
    letters: u32,
    right: &[u32],
    links: &Links,
    element: u32,
    left: &mut Vec<u32>,
) -> Result<(), Memory>
    requires can { CanGoOn letters right.now links.now (element + 1) left.old.items }
    requires here { length left.old.items ≡ element * letters }
    ensures there { OnOk result (length left.new.items ≡ (element + 1) * letters) }
    ensures left { OnOk result
        (GoesOn letters right.now links.now (element + 1) left.old.items left.new.items) }
    ensures kept { take (length left.old.items) left.new.items ≡ left.old.items }
{
    for letter in 0..letters {
        let product = left_product(letters, right, links, left.as_slice(), element, letter);
        left.push(product)?;
    }
    Ok(())
}

/// A letter times an element: the letter itself, or the letter times the prefix, times the last letter.
fn left_product(
    letters: u32,
    right: &[u32],
    links: &Links,
    left: &[u32],
    element: u32,
    letter: u32,
) -> u32
    requires can { CanGoOn letters right.now links.now (element + 1) left.now }
    requires here { length left.now ≡ element * letters + letter }
    requires letter { letter < letters }
    ensures { result ≡ left_target letters right.now links.now left.now element letter }
{
    if element == 0 {
        return right[letter as usize];
    }
    let place = links.prefix(element) as usize * letters as usize + letter as usize;
    right[left[place] as usize * letters as usize + links.last(element) as usize]
}
