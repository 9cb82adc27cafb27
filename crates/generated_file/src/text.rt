//! The text of a generated file.
ghost use Rattle.std.specs.Prelude.{◌≡◌, ◌<◌, ◌≤◌, ◌++◌, codes, decimal, IfOk, OnOk};
ghost use Rattle.generated_file.specs.Generated.{least_size, most_size, next_state, step_line, step_lines, head_lines, text_of, generated_text};

use std::alloc::Global;
use syn_words::Memory;

/// The text of the file of a size: an automaton with as many states, of which state 0 is initial and final; the letter
/// a leads round all states, and b leads to state 0. Condition: the size is from 2 to 1,000.
pub fn generate_text(alloc: Global, size: u32) -> Result<Vec<u8>, Memory>
    requires least { least_size ≤ size }
    requires most { size ≤ most_size }
    ensures { IfOk result (λ text. text.items ≡ generated_text size) }
{
    let mut text = Vec::new(alloc);
    push_head(&mut text, size)?;
    for state in 0..size {
        push_steps(&mut text, size, state)?;
    }
    Ok(text)
}

/// Puts the lines before those of the steps behind a text.
fn push_head(text: &mut Vec<u8>, size: u32) -> Result<(), Memory>
    ensures { OnOk result (text.new.items ≡ text.old.items ++ text_of (head_lines size)) }
{
    push_bytes(text, b"synmon 1\nalphabet ab\nnfa ")?;
    push_number(text, size)?;
    push_bytes(text, b"\ninitial 0\nfinal 0\n")
}

/// Puts the lines of the steps from a state behind a text. Condition: it is a state.
fn push_steps(text: &mut Vec<u8>, size: u32, state: u32) -> Result<(), Memory>
    requires { state < size }
    ensures { OnOk result (text.new.items ≡ text.old.items ++ text_of (step_lines size state)) }
{
    push_step(text, state, b"a", next_state(size, state))?;
    push_step(text, state, b"b", 0)
}

/// The next state. Condition: it is a state.
fn next_state(size: u32, state: u32) -> u32
    requires { state < size }
    ensures { result ≡ next_state size state }
{
    if state + 1 == size { 0 } else { state + 1 }
}

/// Puts the line of a step behind a text.
fn push_step(text: &mut Vec<u8>, from: u32, letter: &[u8], to: u32) -> Result<(), Memory>
    ensures { OnOk result
        (text.new.items ≡ text.old.items ++ (step_line from letter.now to ++ codes "\n")) }
{
    push_number(text, from)?;
    push_bytes(text, b" ")?;
    push_bytes(text, letter)?;
    push_bytes(text, b" ")?;
    push_number(text, to)?;
    push_bytes(text, b"\n")
}

/// Puts a number behind a text, in decimal digits.
fn push_number(text: &mut Vec<u8>, number: u32) -> Result<(), Memory>
    ensures { OnOk result (text.new.items ≡ text.old.items ++ decimal number) }
{
    let mut digits = itoa::Buffer::new();
    push_bytes(text, digits.format(number).as_bytes())
}

/// Puts bytes behind a text.
fn push_bytes(text: &mut Vec<u8>, bytes: &[u8]) -> Result<(), Memory>
    ensures { OnOk result (text.new.items ≡ text.old.items ++ bytes.now) }
{
    text.extend_from_slice(bytes)?;
    Ok(())
}
