//! Laws of expressions.

ghost use Rattle.std.specs.Prelude.{◌<◌, ℕ, All};
ghost use Rattle.language_theory.specs.Automaton.{Automaton};
ghost use Rattle.expression_theory.specs.Expression.{Tree};
ghost use Rattle.expression_theory.specs.Positions.{positions, IsPositions};

/// Each expression whose letters are below a number has a position automaton over so many letters.
pub fn an_expression_has_a_position_automaton()
    ensures { (k : ℕ) (t : Tree) → All (λ a. a < k) (positions t)
        → (m : Automaton) × IsPositions t k m }
{}
