//! All rules of a finite monoid, found by looking at links.
ghost use Rattle.std.specs.Prelude.{◌≡◌, ◌<◌, ◌≤◌, ◌+◌, ◌*◌, ◌^◌, ◌↔◌, ◌++◌, ◌∷◌, [], length, IsTrue, IfOk, OnOk};
ghost use Rattle.language_theory.specs.Words.{word_at};
ghost use Rattle.language_theory.specs.ShortlexGraph.{target, SameNode};
ghost use Rattle.monoid_theory.specs.Presentation.{IsRule, AreRules};
ghost use Rattle.cayley_tables.specs.CayleyGraphs.{AreCayleyGraphs};
ghost use Rattle.presentation.specs.RuleLists.{AreRulesBefore};
ghost use Rattle.syn_words.specs.Alphabet.{most_letters};

use crate::rules::Rules;
use cayley_tables::Cayley;
use std::alloc::Global;
use syn_words::Memory;

/// All rules of a monoid, in shortlex order of their left sides.
pub fn rules_of(alloc: Global, cayley: &Cayley) -> Result<Rules, Memory>
    ensures rules { IfOk result (λ r. AreRules cayley.now.right.letters (SameNode cayley.now.right)
        cayley.now.words r) }
{
    let letters = cayley.letters();
    let mut rules = Rules::new(alloc);
    for element in 0..cayley.len() {
        push_rules_of(alloc, cayley, element, letters, &mut rules)?;
    }
    Ok(rules)
}

/// Lists the rules whose left sides are the word of an element with a letter behind.
fn push_rules_of(
    alloc: Global,
    cayley: &Cayley,
    element: u32,
    letters: u32,
    rules: &mut Rules,
) -> Result<(), Memory>
    requires letters { letters ≡ cayley.now.right.letters }
    requires few { letters ≤ most_letters }
    requires element { element < length cayley.now.words }
    requires small { length cayley.now.words * letters < 2 ^ 32 }
    requires rules { AreRulesBefore cayley.now element 0 rules.old }
    ensures { OnOk result (AreRulesBefore cayley.now (element + 1) 0 rules.new) }
{
    for letter in 0..letters {
        push_rule(alloc, cayley, element, letter as u8, rules)?;
    }
    Ok(())
}

/// Lists the rule whose left side is the word of an element with this letter behind, if there is
/// one.
fn push_rule(
    alloc: Global,
    cayley: &Cayley,
    element: u32,
    letter: u8,
    rules: &mut Rules,
) -> Result<(), Memory>
    requires element { element < length cayley.now.words }
    requires letter { letter < cayley.now.right.letters }
    requires small { length cayley.now.words * cayley.now.right.letters < 2 ^ 32 }
    requires rules { AreRulesBefore cayley.now element letter rules.old }
    ensures { OnOk result (AreRulesBefore cayley.now element (letter + 1) rules.new) }
{
    if !is_left_side(cayley, element, letter) {
        return Ok(());
    }
    let mut left = cayley.word(element)?;
    left.push(letter)?;
    rules.push(left, cayley.right(element, letter))?;
    Ok(())
}

/// Whether the word of an element with a letter behind is the left side of a rule: where it is not
/// the word of its element, but is so without its first letter. Links tell, and no word is spelled.
fn is_left_side(cayley: &Cayley, element: u32, letter: u8) -> bool
    requires graphs { AreCayleyGraphs cayley.now }
    requires element { element < length cayley.now.words }
    requires letter { letter < cayley.now.right.letters }
    ensures { IsTrue result ↔ IsRule cayley.now.right.letters (SameNode cayley.now.right)
        cayley.now.words (word_at cayley.now.words element ++ letter ∷ [])
        (target cayley.now.right element letter) }
{
    if is_reduced_product(cayley, element, letter, cayley.right(element, letter)) {
        return false;
    }
    if element == 0 {
        return true;
    }
    let suffix = cayley.suffix(element);
    is_reduced_product(cayley, suffix, letter, cayley.right(suffix, letter))
}

/// Whether the word of an element with a letter behind is the word of the element `product`.
fn is_reduced_product(cayley: &Cayley, element: u32, letter: u8, product: u32) -> bool
    requires graphs { AreCayleyGraphs cayley.now }
    requires element { element < length cayley.now.words }
    requires product { product < length cayley.now.words }
    ensures { IsTrue result
        ↔ (word_at cayley.now.words product ≡ word_at cayley.now.words element ++ letter ∷ []) }
{
    if product == 0 {
        return false;
    }
    cayley.prefix(product) == element && cayley.last(product) == letter
}
