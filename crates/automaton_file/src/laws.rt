//! Laws of file texts.

ghost use Rattle.std.specs.Prelude.{◌≡◌, ◌⊎◌, ◌↔◌, ◌≤◌, ℕ, ◌+◌, is_some, None, IsTrue, List, ◌∷◌, take};
ghost use Rattle.expression_theory.specs.Expression.{Tree};
ghost use Rattle.expression_theory.specs.Scan.{is_lower_case, classes, IsAccepted};
ghost use Rattle.syn_words.specs.Alphabet.{IsLowerCase, AreDistinct, IsAlphabet};
ghost use Rattle.automaton_file.specs.LineText.{fields};
ghost use Rattle.automaton_file.specs.ExprText.{is_expression};
ghost use Rattle.automaton_file.specs.Examples.{worked_text, worked_source, refused_text};
ghost use Rattle.automaton_file.specs.Parts.{most_states, Fields, IsState, IsLetter, IsHeader, SpellsAlphabet, SpellsCount, SpellsExpression, IsStatesLine, IsStepLine};
ghost use Rattle.automaton_file.specs.FileText.{most_bytes, are_distinct, is_alphabet, begins_with, is_state, letter_of, header_fault, alphabet_fault, body_fault, marks_fault, step_fault, SourceText, BodyText, body_language, IsSource, IsRefusal, IsBodyAutomaton};
ghost use Rattle.language_theory.specs.Automaton.{Automaton, Accepts};

/// A line passes its tests exactly where it is the part that must stand there.
pub fn each_line_is_its_part()
    ensures header { (line : List ℕ) → header_fault (fields line) ≡ None ↔ IsHeader line }
    ensures alphabet { (line : List ℕ) → alphabet_fault (fields line) ≡ None
        ↔ ((alphabet : List ℕ) × SpellsAlphabet alphabet line) }
    ensures body { (alphabet line : List ℕ) → body_fault alphabet line ≡ None
        ↔ (((states : ℕ) × SpellsCount states line)
        ⊎ ((t : Tree) × SpellsExpression alphabet t line)) }
    ensures states { (word line : List ℕ) (states : ℕ) → states ≤ most_states
        → marks_fault word states (fields line) ≡ None ↔ IsStatesLine word states line }
    ensures step { (alphabet line : List ℕ) (states : ℕ) → IsAlphabet alphabet
        → states ≤ most_states
        → step_fault alphabet states (fields line) ≡ None ↔ IsStepLine alphabet states line }
{}

/// Each test of the table of codes is passed exactly where the field or the text is what it must be.
pub fn each_test_says_what_must_stand()
    ensures word { (word : List ℕ) (line : Fields) → IsTrue (begins_with word line)
        ↔ ((more : Fields) × (line ≡ word ∷ more)) }
    ensures lower { (byte : ℕ) → IsTrue (is_lower_case byte) ↔ IsLowerCase byte }
    ensures distinct { (text : List ℕ) → IsTrue (are_distinct text) ↔ AreDistinct text }
    ensures alphabet { (text : List ℕ) → IsTrue (is_alphabet text) ↔ IsAlphabet text }
    ensures expression { (alphabet text : List ℕ) → IsTrue (is_expression alphabet text)
        ↔ IsAccepted (classes alphabet text) }
    ensures state { (states : ℕ) (field : List ℕ) → states ≤ most_states
        → IsTrue (is_state states field)
        ↔ IsState states field }
    ensures letter { (alphabet field : List ℕ) → IsAlphabet alphabet
        → IsTrue (is_some (letter_of alphabet field)) ↔ IsLetter alphabet field }
{}

/// A worked file: its source with the initial state 0, the final state 1, a step from 0 to 1 by a and two steps from
/// 1 by b. And one that is refused for the number on its fifth line, which is no state.
pub fn a_worked_file()
    ensures source { IsSource worked_text worked_source }
    ensures refusal { IsRefusal refused_text 5 5 }
{}

/// A text spells at most one source.
pub fn source_is_determined()
    ensures { (bytes : List ℕ) (s t : SourceText) → IsSource bytes s → IsSource bytes t → s ≡ t }
{}

/// What a reader that stops behind the first byte that is too many says of a text holds of the whole text.
pub fn one_byte_too_many_is_enough()
    ensures spelled { (bytes : List ℕ) (s : SourceText) → IsSource (take (most_bytes + 1) bytes) s
        → take (most_bytes + 1) bytes ≡ bytes }
    ensures refused { (bytes : List ℕ) (at code : ℕ)
        → IsRefusal (take (most_bytes + 1) bytes) at code → IsRefusal bytes at code }
{}

/// A text has at most one refusal.
pub fn one_refusal()
    ensures { (bytes : List ℕ) (at code line other : ℕ) → IsRefusal bytes at code
        → IsRefusal bytes line other → (at ≡ line) × (code ≡ other) }
{}

/// A text is refused exactly where it spells no source.
pub fn spelled_or_refused()
    ensures either { (bytes : List ℕ) → ((s : SourceText) × IsSource bytes s)
        ⊎ ((at code : ℕ) × IsRefusal bytes at code) }
    ensures one { (bytes : List ℕ) (s : SourceText) (at code : ℕ) → IsSource bytes s
        → ¬ IsRefusal bytes at code }
{}

/// A body has one automaton at most, and it accepts exactly the words of the body's language.
pub fn one_automaton()
    ensures same { (k : ℕ) (body : BodyText) (m n : Automaton) → IsBodyAutomaton k body m
        → IsBodyAutomaton k body n → m ≡ n }
    ensures language { (k : ℕ) (body : BodyText) (m : Automaton) → IsBodyAutomaton k body m
        → (w : List ℕ) → Accepts m w ↔ body_language body w }
{}

/// The most bytes of a file, and the most states of an automaton that it spells.
pub fn the_limits()
    ensures bytes { most_bytes ≡ 1048576 }
    ensures states { most_states ≡ 1000 }
{}
