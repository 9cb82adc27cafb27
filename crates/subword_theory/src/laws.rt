//! The laws of words with the same short subwords, of powers, and of rows of marks.
ghost use Rattle.std.specs.Prelude.{◌≡◌, ◌≤◌, ◌<◌, ◌↔◌, ◌⊎◌, ◌+◌, ◌++◌, ◌∷◌, [], ℕ, Bool, List, length};
ghost use Rattle.language_theory.specs.Words.{Over, power, IsSubword};
ghost use Rattle.language_theory.specs.Congruence.{IsCongruence};
ghost use Rattle.subword_theory.specs.ShortSubwords.{SameSubwords};
ghost use Rattle.subword_theory.specs.SubwordRows.{width, place, IsRowOf, row_of, next_row};

/// To have the same short subwords is a congruence, for each length (Simon).
pub fn same_subwords_are_a_congruence()
    ensures congruence { (k n : ℕ) → IsCongruence k (SameSubwords n) }
    ensures context { (n : ℕ) (u v p q : List ℕ) → SameSubwords n u v
        → SameSubwords n (p ++ (u ++ q)) (p ++ (v ++ q)) }
{}

/// Words with the same subwords up to a length have the same ones up to each smaller length, and all words have the
/// same ones of length 0. Words with the same subwords up to the length of either are equal.
pub fn longer_subwords_tell_more()
    ensures less { (m n : ℕ) (u v : List ℕ) → m ≤ n → SameSubwords n u v → SameSubwords m u v }
    ensures zero { (u v : List ℕ) → SameSubwords 0 u v }
    ensures all { (n : ℕ) (u v : List ℕ) → length u ≤ n → length v ≤ n → SameSubwords n u v
        → u ≡ v }
{}

/// A word of at most n letters, each of them a letter of w, is a subword of w repeated n times.
pub fn powers_have_all_short_subwords()
    ensures { (n : ℕ) (w z : List ℕ) → length z ≤ n
        → ((a : ℕ) → IsSubword (a ∷ []) z → IsSubword (a ∷ []) w) → IsSubword z (power n w) }
{}

/// A power with one more piece of its word behind it, or before it, has the same short subwords, in any context.
pub fn one_more_piece_adds_no_short_subword()
    ensures behind { (n : ℕ) (p x y q : List ℕ)
        → SameSubwords n (p ++ (power n (x ++ y) ++ q)) (p ++ ((power n (x ++ y) ++ x) ++ q)) }
    ensures before { (n : ℕ) (p x y q : List ℕ)
        → SameSubwords n (p ++ (power n (y ++ x) ++ q)) (p ++ ((x ++ power n (y ++ x)) ++ q)) }
{}

/// The words of at most n letters have the places below the width, each its own.
pub fn short_words_have_places()
    ensures numbered { (k n p : ℕ) → p < width k n → (x : List ℕ) × Over k x × (length x ≤ n)
        × (place k x ≡ p) }
    ensures within { (k n : ℕ) (x : List ℕ) → Over k x → length x ≤ n → place k x < width k n }
    ensures one { (k : ℕ) (x y : List ℕ) → Over k x → Over k y → place k x ≡ place k y → x ≡ y }
{}

/// Rows of marks stand for the short subwords: each word has one row, rows are equal exactly where the words have the
/// same short subwords, and the row of a word with a letter behind it is the next one.
pub fn rows_stand_for_short_subwords()
    ensures row { (k n : ℕ) (w : List ℕ) → Over k w → IsRowOf k n w (row_of k n w) }
    ensures one { (k n : ℕ) (w : List ℕ) (b c : List Bool) → Over k w → IsRowOf k n w b
        → IsRowOf k n w c → b ≡ c }
    ensures same { (k n : ℕ) (u v : List ℕ) → Over k u → Over k v
        → (row_of k n u ≡ row_of k n v) ↔ SameSubwords n u v }
    ensures next { (k n a : ℕ) (w : List ℕ) (marks : List Bool) → Over k w → a < k
        → IsRowOf k n w marks → IsRowOf k n (w ++ a ∷ []) (next_row k a marks) }
{}

/// A letter that is put in between two words and adds no subword of at most n letters is shared out between them: for
/// some i and j with i + j at least n it adds none of at most i letters behind the first word, and none of at most j
/// before the second (Simon 1975).
pub fn a_letter_is_shared_out()
    ensures { (n : ℕ) (u : List ℕ) (a : ℕ) (v : List ℕ) → SameSubwords n (u ++ v) (u ++ a ∷ v)
        → (i j : ℕ) × (n ≤ i + j) × SameSubwords i u (u ++ a ∷ []) × SameSubwords j v (a ∷ v) }
{}

/// Words with the same short subwords are both subwords of a longer word that has the same ones, and no other letters
/// (Simon 1975).
pub fn a_common_longer_word()
    ensures { (n : ℕ) (u v : List ℕ) → SameSubwords n u v → (w : List ℕ) × IsSubword u w
        × IsSubword v w × SameSubwords n u w × ((k : ℕ) → Over k u → Over k v → Over k w) }
{}
