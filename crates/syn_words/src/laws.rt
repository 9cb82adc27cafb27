//! The limits of alphabets.
ghost use Rattle.std.specs.Prelude.{◌≡◌};
ghost use Rattle.syn_words.specs.Alphabet.{most_signs, most_letters};

/// The most letters of an alphabet that is written, and of the automata and the monoids of the program.
pub fn the_limits()
    ensures signs { most_signs ≡ 26 }
    ensures letters { most_letters ≡ 60 }
{}
