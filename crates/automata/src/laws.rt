//! The limit of automata.
ghost use Rattle.std.specs.Prelude.{◌≡◌};
ghost use Rattle.automata.specs.Nfa.{most_states};

/// The most states of an automaton.
pub fn the_limits()
    ensures { most_states ≡ 4001 }
{}
