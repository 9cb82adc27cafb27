//! The section `monoid` of a report.
ghost use Rattle.std.specs.Prelude.{◌≡◌, ◌<◌, ◌++◌, length, false, OnOk};
ghost use Rattle.language_theory.specs.ShortlexGraph.{target, SameNode};
ghost use Rattle.monoid_theory.specs.Presentation.{AreRules};
ghost use Rattle.report_buffer.specs.Saying.{Says, channel};
ghost use Rattle.report_buffer.specs.Texts.{numbers_below};
ghost use Rattle.report_text.specs.MonoidSection.{monoid_text, elements_text, elements_head, element_text, rules_text, rules_head, rule_text};

use cayley_tables::Cayley;
use presentation::Rules;
use report_buffer::{
    Buffer, SayFault, push_bytes, push_membership, push_number, push_number_line, push_word,
    say_rendered,
};
use std::alloc::Global;
use syn_outside::Sink;
use syn_words::{Alphabet, Memory};
use syntactic_monoid::Syntactic;

/// Says the section `monoid`: a line for each element, and a line for each rule.
///
/// Conditions: the monoid has a letter for each of the alphabet's, the rules are those of the monoid, and the buffer
/// is not broken. `Write` comes only where the sink's count of faults rose in this call.
pub fn say_monoid<S: Sink>(
    alloc: Global,
    sink: &mut S,
    buffer: &mut Buffer,
    alphabet: &Alphabet,
    monoid: &Syntactic,
    rules: &Rules,
) -> Result<(), SayFault>
    requires letters { monoid.now.graphs.right.letters ≡ length alphabet.now }
    requires rules { AreRules (length alphabet.now) (SameNode monoid.now.graphs.right)
        monoid.now.graphs.words rules.now }
    requires whole { buffer.old.broken ≡ false }
    ensures { Says (channel (S.written sink.old) (S.faults sink.old) buffer.old) result
        (channel (S.written sink.new) (S.faults sink.new) buffer.new)
        (monoid_text alphabet.now monoid.now rules.now) }
{
    say_elements(alloc, sink, buffer, alphabet, monoid)?;
    say_rules(alloc, sink, buffer, alphabet, monoid, rules)
}

/// Says the number of elements, and a line for each. Conditions as for the section.
fn say_elements<S: Sink>(
    alloc: Global,
    sink: &mut S,
    buffer: &mut Buffer,
    alphabet: &Alphabet,
    monoid: &Syntactic,
) -> Result<(), SayFault>
    requires letters { monoid.now.graphs.right.letters ≡ length alphabet.now }
    requires whole { buffer.old.broken ≡ false }
    ensures { Says (channel (S.written sink.old) (S.faults sink.old) buffer.old) result
        (channel (S.written sink.new) (S.faults sink.new) buffer.new)
        (elements_text alphabet.now monoid.now) }
{
    let mut line = Vec::new(alloc);
    let head = push_elements_head(&mut line, monoid);
    say_rendered(sink, buffer, head, &mut line)?;
    for element in 0..monoid.cayley().len() {
        let rendered = push_element(alloc, &mut line, alphabet, monoid, element);
        say_rendered(sink, buffer, rendered, &mut line)?;
    }
    Ok(())
}

/// Says the number of rules, and a line for each. Conditions as for the section.
fn say_rules<S: Sink>(
    alloc: Global,
    sink: &mut S,
    buffer: &mut Buffer,
    alphabet: &Alphabet,
    monoid: &Syntactic,
    rules: &Rules,
) -> Result<(), SayFault>
    requires letters { monoid.now.graphs.right.letters ≡ length alphabet.now }
    requires rules { AreRules (length alphabet.now) (SameNode monoid.now.graphs.right)
        monoid.now.graphs.words rules.now }
    requires whole { buffer.old.broken ≡ false }
    ensures { Says (channel (S.written sink.old) (S.faults sink.old) buffer.old) result
        (channel (S.written sink.new) (S.faults sink.new) buffer.new)
        (rules_text alphabet.now monoid.now.graphs.words rules.now) }
{
    let mut line = Vec::new(alloc);
    let head = push_rules_head(&mut line, rules);
    say_rendered(sink, buffer, head, &mut line)?;
    for rule in 0..rules.len() {
        let rendered = push_rule(alloc, &mut line, alphabet, monoid, rules, rule);
        say_rendered(sink, buffer, rendered, &mut line)?;
    }
    Ok(())
}

/// Puts the head of the elements behind a text.
fn push_elements_head(text: &mut Vec<u8>, monoid: &Syntactic) -> Result<(), Memory>
    ensures { OnOk result (text.new.items ≡ text.old.items ++ elements_head monoid.now) }
{
    push_bytes(text, b"monoid\nelements ")?;
    push_number(text, monoid.cayley().len())?;
    push_bytes(text, b"\n")
}

/// Puts the line of an element behind a text.
fn push_element(
    alloc: Global,
    text: &mut Vec<u8>,
    alphabet: &Alphabet,
    monoid: &Syntactic,
    element: u32,
) -> Result<(), Memory>
    requires letters { monoid.now.graphs.right.letters ≡ length alphabet.now }
    requires element { element < length monoid.now.graphs.words }
    ensures { OnOk result
        (text.new.items ≡ text.old.items ++ element_text alphabet.now monoid.now element) }
{
    let cayley = monoid.cayley();
    let word = cayley.word(element)?;
    push_number(text, element)?;
    push_bytes(text, b" ")?;
    push_word(text, alphabet, &word)?;
    push_bytes(text, b" ")?;
    push_membership(text, monoid.accepts(element))?;
    push_bytes(text, b" right")?;
    push_right_targets(text, cayley, element)?;
    push_bytes(text, b" left")?;
    push_left_targets(text, cayley, element)?;
    push_bytes(text, b"\n")
}

/// Puts behind a text the element followed by each letter.
fn push_right_targets(text: &mut Vec<u8>, cayley: &Cayley, element: u32) -> Result<(), Memory>
    requires { element < length cayley.now.words }
    ensures { OnOk result (text.new.items ≡ text.old.items
        ++ numbers_below (target cayley.now.right element) cayley.now.right.letters) }
{
    for letter in 0..cayley.letters() as u8 {
        push_bytes(text, b" ")?;
        push_number(text, cayley.right(element, letter))?;
    }
    Ok(())
}

/// Puts behind a text each letter followed by the element.
fn push_left_targets(text: &mut Vec<u8>, cayley: &Cayley, element: u32) -> Result<(), Memory>
    requires { element < length cayley.now.words }
    ensures { OnOk result (text.new.items ≡ text.old.items
        ++ numbers_below (target cayley.now.left element) cayley.now.right.letters) }
{
    for letter in 0..cayley.letters() as u8 {
        push_bytes(text, b" ")?;
        push_number(text, cayley.left(letter, element))?;
    }
    Ok(())
}

/// Puts the head of the rules behind a text.
fn push_rules_head(text: &mut Vec<u8>, rules: &Rules) -> Result<(), Memory>
    ensures { OnOk result (text.new.items ≡ text.old.items ++ rules_head rules.now) }
{
    push_number_line(text, b"rules", rules.len())
}

/// Puts the line of a rule behind a text.
fn push_rule(
    alloc: Global,
    text: &mut Vec<u8>,
    alphabet: &Alphabet,
    monoid: &Syntactic,
    rules: &Rules,
    rule: u32,
) -> Result<(), Memory>
    requires letters { monoid.now.graphs.right.letters ≡ length alphabet.now }
    requires rules { AreRules (length alphabet.now) (SameNode monoid.now.graphs.right)
        monoid.now.graphs.words rules.now }
    requires rule { rule < length rules.now }
    ensures { OnOk result (text.new.items ≡ text.old.items
        ++ rule_text alphabet.now monoid.now.graphs.words rules.now rule) }
{
    let right = monoid.cayley().word(rules.right(rule))?;
    push_word(text, alphabet, rules.left(rule))?;
    push_bytes(text, b" ")?;
    push_word(text, alphabet, &right)?;
    push_bytes(text, b"\n")
}
