//! Laws of automata: paths, acceptance, empty moves, the steps in order, the subset construction.

ghost use Rattle.std.specs.Prelude.{◌≡◌, ◌<◌, ◌++◌, ◌∷◌, ◌↔◌, [], ℕ, Bool, IsTrue, List};
ghost use Rattle.std.specs.List.{list_any};
ghost use Rattle.language_theory.specs.Automaton.{Automaton, Path, IsTarget, Accepts, AcceptsFrom, IsReached, SameSubset, HasMovesTakenIn, is_step, is_move, has_step, has_move, is_final, steps_where, moves_where, IsInOrder};
ghost use Rattle.language_theory.specs.Runs.{IsRun};
ghost use Rattle.language_theory.specs.Congruence.{IsRightCongruence};
ghost use Rattle.language_theory.specs.Nerode.{Nerode};

/// Where there are no empty moves, a word is accepted exactly where a list of states, one more than it has letters,
/// begins with an initial and ends with a final one, with a step by each letter from a state to the next.
pub fn acceptance_is_by_runs()
    ensures { (m : Automaton) → m.moves ≡ [] → (w : List ℕ) → Accepts m w
        ↔ ((states : List ℕ) × IsRun m w states) }
{}

/// Where there are no empty moves, a path with no letter stays in its state, and a path with letters begins with a step
/// by the first of them. So words lead where steps alone lead, and acceptance is that by steps alone.
pub fn paths_without_empty_moves()
    ensures no_letter { (m : Automaton) → m.moves ≡ [] → (p r : ℕ) → Path m p [] r ↔ (p ≡ r) }
    ensures letters { (m : Automaton) → m.moves ≡ [] → (p a : ℕ) (w : List ℕ) (r : ℕ)
        → Path m p (a ∷ w) r ↔ ((q : ℕ) × IsTarget m p a q × Path m q w r) }
    ensures empty_word { (m : Automaton) → m.moves ≡ [] → (p : ℕ) → AcceptsFrom m [] p
        ↔ IsTrue (is_final m p) }
    ensures word { (m : Automaton) → m.moves ≡ [] → (p a : ℕ) (w : List ℕ)
        → AcceptsFrom m (a ∷ w) p ↔ ((q : ℕ) × IsTarget m p a q × AcceptsFrom m w q) }
{}

/// A path with the word u v is one with u and then one with v.
pub fn paths_are_joined()
    ensures leads { (m : Automaton) (p : ℕ) (u v : List ℕ) (r : ℕ) → Path m p (u ++ v) r
        ↔ ((q : ℕ) × Path m p u q × Path m q v r) }
    ensures accepts { (m : Automaton) (u v : List ℕ) (p : ℕ) → AcceptsFrom m (u ++ v) p
        ↔ ((q : ℕ) × Path m p u q × AcceptsFrom m v q) }
    ensures behind { (m : Automaton) (u v : List ℕ) → Accepts m (u ++ v)
        ↔ ((q : ℕ) × IsReached m u q × AcceptsFrom m v q) }
    ensures reached { (m : Automaton) (w : List ℕ) → Accepts m w
        ↔ ((r : ℕ) × IsReached m w r × IsTrue (is_final m r)) }
{}

/// Empty moves can be taken in: each word leads to the same states, so the sets of states and the language stay.
pub fn empty_moves_can_be_taken_in()
    ensures reached { (m n : Automaton) → HasMovesTakenIn m n → (w : List ℕ) (r : ℕ)
        → IsReached m w r ↔ IsReached n w r }
    ensures subsets { (m n : Automaton) → HasMovesTakenIn m n → (u v : List ℕ)
        → SameSubset m u v ↔ SameSubset n u v }
    ensures language { (m n : Automaton) → HasMovesTakenIn m n → (w : List ℕ)
        → Accepts m w ↔ Accepts n w }
{}

/// The steps and empty moves that pass a test, in their order, are those; and automata with the same states, letters,
/// steps and empty moves list them alike where both list them in that order.
pub fn steps_are_listed_in_order()
    ensures listed { (states letters : ℕ) (f : ℕ → ℕ → ℕ → Bool) (p a q : ℕ)
        → IsTrue (list_any (is_step p a q) (steps_where states letters f))
        ↔ ((p < states) × (a < letters) × (q < states) × IsTrue (f p a q)) }
    ensures moves { (states : ℕ) (f : ℕ → ℕ → Bool) (p q : ℕ)
        → IsTrue (list_any (is_move p q) (moves_where states f))
        ↔ ((p < states) × (q < states) × IsTrue (f p q)) }
    ensures alike { (m n : Automaton) → IsInOrder m → IsInOrder n → m.states ≡ n.states
        → m.letters ≡ n.letters → ((p a q : ℕ) → has_step m p a q ≡ has_step n p a q)
        → ((p q : ℕ) → has_move m p q ≡ has_move n p q)
        → (m.steps ≡ n.steps) × (m.moves ≡ n.moves) }
{}

/// To lead to the same set of states is a right congruence, and such words are Nerode equivalent (the subset
/// construction).
pub fn subsets_refine_nerode()
    ensures right { (k : ℕ) (m : Automaton) → IsRightCongruence k (SameSubset m) }
    ensures finer { (k : ℕ) (m : Automaton) (u v : List ℕ) → SameSubset m u v
        → Nerode k (Accepts m) u v }
{}
