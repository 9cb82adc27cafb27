//! What a byte of a text is.
ghost use Rattle.std.specs.Prelude.{◌≡◌, ◌≤◌, length};
ghost use Rattle.syn_words.specs.Alphabet.{most_signs};
ghost use Rattle.expression_theory.specs.Scan as scan;

use expression_theory::{Class, Leaf, Quantifier, Sign};

/// The class of a lower-case letter under an alphabet, which is given by its letters' bytes in order.
fn letter_class(byte: u8, letters: &[u8]) -> Class
    requires { length letters.now ≤ most_signs }
    ensures { result ≡ scan.letter_class letters.now byte }
{
    match letters.iter().position(|letter| *letter == byte) {
        Some(place) => Class::Good(Sign::Operand(Leaf::Letter(place as u8))),
        None => Class::Unknown,
    }
}

/// The class of a byte under an alphabet, which is given by its letters' bytes in order.
pub fn classify(byte: u8, letters: &[u8]) -> Class
    requires { length letters.now ≤ most_signs }
    ensures { result ≡ scan.class_of letters.now byte }
{
    match byte {
        b'a'..=b'z' => letter_class(byte, letters),
        b' ' | b'\t' => Class::Skipped,
        b'0' => Class::Good(Sign::Operand(Leaf::Zero)),
        b'1' => Class::Good(Sign::Operand(Leaf::One)),
        b'|' => Class::Good(Sign::Bar),
        b'*' => Class::Good(Sign::Postfix(Quantifier::Star)),
        b'+' => Class::Good(Sign::Postfix(Quantifier::Plus)),
        b'?' => Class::Good(Sign::Postfix(Quantifier::Opt)),
        b'(' => Class::Good(Sign::Open),
        b')' => Class::Good(Sign::Close),
        _ => Class::Strange,
    }
}
