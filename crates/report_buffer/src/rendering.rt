//! The parts of a line, each put behind a text.
ghost use Rattle.std.specs.Prelude.{◌≡◌, ◌<◌, ◌++◌, length, decimal, OnOk};
ghost use Rattle.language_theory.specs.Words.{Over};
ghost use Rattle.report_buffer.specs.Texts.{letter_text, letters_text, word_text, membership_text, gap_before, number_line, word_line, first_line};

use syn_words::{Alphabet, Memory, Word};

/// Puts bytes behind a text.
pub fn push_bytes(text: &mut Vec<u8>, bytes: &[u8]) -> Result<(), Memory>
    ensures { OnOk result (text.new.items ≡ text.old.items ++ bytes.now) }
{
    text.extend_from_slice(bytes)?;
    Ok(())
}

/// Puts a number behind a text, in decimal digits.
pub fn push_number(text: &mut Vec<u8>, number: u32) -> Result<(), Memory>
    ensures { OnOk result (text.new.items ≡ text.old.items ++ decimal number) }
{
    let mut digits = itoa::Buffer::new();
    push_bytes(text, digits.format(number).as_bytes())
}

/// Puts a count behind a text, in decimal digits.
pub fn push_count(text: &mut Vec<u8>, count: usize) -> Result<(), Memory>
    ensures { OnOk result (text.new.items ≡ text.old.items ++ decimal count) }
{
    let mut digits = itoa::Buffer::new();
    push_bytes(text, digits.format(count).as_bytes())
}

/// Puts a letter behind a text, as it is written.
pub fn push_letter(text: &mut Vec<u8>, alphabet: &Alphabet, letter: u8) -> Result<(), Memory>
    requires { letter < length alphabet.now }
    ensures { OnOk result (text.new.items ≡ text.old.items ++ letter_text alphabet.now letter) }
{
    push_bytes(text, &[alphabet.sign(letter)])
}

/// Puts a word behind a text, by its letters; the empty word is `1`.
pub fn push_word(text: &mut Vec<u8>, alphabet: &Alphabet, word: &Word) -> Result<(), Memory>
    requires { Over (length alphabet.now) word.now }
    ensures { OnOk result (text.new.items ≡ text.old.items ++ word_text alphabet.now word.now) }
{
    if word.is_empty() {
        return push_bytes(text, b"1");
    }
    push_letters(text, alphabet, word.letters())
}

/// Puts letters behind a text, one after another.
fn push_letters(text: &mut Vec<u8>, alphabet: &Alphabet, letters: &[u8]) -> Result<(), Memory>
    requires { Over (length alphabet.now) letters.now }
    ensures { OnOk result
        (text.new.items ≡ text.old.items ++ letters_text alphabet.now letters.now) }
{
    for letter in letters {
        push_letter(text, alphabet, *letter)?;
    }
    Ok(())
}

/// Puts behind a text whether words are in the language.
pub fn push_membership(text: &mut Vec<u8>, is_in: bool) -> Result<(), Memory>
    ensures { OnOk result (text.new.items ≡ text.old.items ++ membership_text is_in) }
{
    push_bytes(text, if is_in { b"in" } else { b"out" })
}

/// Puts a gap behind a text, unless what follows is the first of several.
pub fn push_gap(text: &mut Vec<u8>, gap: &[u8], place: usize) -> Result<(), Memory>
    ensures { OnOk result (text.new.items ≡ text.old.items ++ gap_before gap.now place) }
{
    if place == 0 {
        return Ok(());
    }
    push_bytes(text, gap)
}

/// Puts a line with a name and a number behind a text.
pub fn push_number_line(text: &mut Vec<u8>, name: &[u8], number: u32) -> Result<(), Memory>
    ensures { OnOk result (text.new.items ≡ text.old.items ++ number_line name.now number) }
{
    push_bytes(text, name)?;
    push_bytes(text, b" ")?;
    push_number(text, number)?;
    push_bytes(text, b"\n")
}

/// Puts a line with a name and a word behind a text.
pub fn push_word_line(
    text: &mut Vec<u8>,
    alphabet: &Alphabet,
    name: &[u8],
    word: &Word,
) -> Result<(), Memory>
    requires { Over (length alphabet.now) word.now }
    ensures { OnOk result
        (text.new.items ≡ text.old.items ++ word_line alphabet.now name.now word.now) }
{
    push_bytes(text, name)?;
    push_bytes(text, b" ")?;
    push_word(text, alphabet, word)?;
    push_bytes(text, b"\n")
}

/// Puts behind a text the line that tells whether the first of two words is in the language.
pub fn push_first_line(text: &mut Vec<u8>, is_in: bool) -> Result<(), Memory>
    ensures { OnOk result (text.new.items ≡ text.old.items ++ first_line is_in) }
{
    push_bytes(text, b"first ")?;
    push_membership(text, is_in)?;
    push_bytes(text, b"\n")
}
