//! The machine whose states are the keys of one level.
ghost use Rattle.std.specs.Prelude.{◌≡◌, ◌<◌, ◌≤◌, ◌-◌, ◌^◌, ◌++◌, ◌*◌, ◌+◌, ℕ, List, [], ◌∷◌, Option, Bool, true, false, refl, length, IfOk, OnOk, OnErr};
ghost use Rattle.std.proofs.Common.{◌∙◌};
ghost use Rattle.level_search.specs.Keys.{IsAtLevel, count_once, number_once, keys_numbered, same_level};

use crate::quotient::Quotient;
use exploration::States;
use syn_words::Memory;

/// A quotient at a level that was begun: words lead to one state where they have the same key.
#[derive(Drop)]
pub(crate) struct Keys<'a, Q> {
    quotient: &'a mut Q,
    letters: u8,
    level: u32,
    is_started: bool,
}

impl<'a, Q: Quotient> Keys<'a, Q> {
    /// The machine of a quotient that was begun. No state was seen yet.
    pub(crate) fn new(quotient: &'a mut Q, letters: u8, level: u32) -> Keys<'a, Q>
        requires sound { Q.is_sound quotient.old }
        requires letters { Q.letters_of quotient.old ≡ letters }
        requires level { Q.level_of quotient.old ≡ level }
        requires one { Q.count quotient.old ≡ 1 }
        requires empty { Q.number quotient.old [] ≡ Option.Some 0 }
        ensures same_reference { result.quotient.ghost_name ≡ quotient.entry.ghost_name }
        ensures letters { result.letters ≡ letters }
        ensures level { result.level ≡ level }
        ensures none { result.is_started ≡ false }
        ensures sound { IsAtLevel (Q.is_sound result.quotient.now) letters level (Q.same letters level)
            (Q.letters_of result.quotient.now) (Q.level_of result.quotient.now)
            (Q.number result.quotient.now) (Q.count result.quotient.now) false }
    {
        Keys {
            quotient,
            letters,
            level,
            is_started: false,
        }
    }
}

impl<'a, Q: Quotient> States for Keys<'a, Q> {
    ghost letters_of = { λ k. k.letters };

    ghost same = { λ k. Q.same k.letters k.level };

    ghost number = { λ k. number_once k.is_started (Q.number k.quotient.now) };

    ghost count = { λ k. count_once k.is_started (Q.count k.quotient.now) };

    ghost is_sound = { λ k. IsAtLevel (Q.is_sound k.quotient.now) k.letters k.level
        (Q.same k.letters k.level) (Q.letters_of k.quotient.now) (Q.level_of k.quotient.now)
        (Q.number k.quotient.now) (Q.count k.quotient.now) k.is_started };

    ghost is_later = { λ j k. (k.letters ≡ j.letters) × (k.level ≡ j.level) };

    ghost is_ready = { λ _ _. Unit {0} };

    ghost later_keeps = { λ j k h. same_level Q.same j.letters k.letters j.level k.level h.0 h.1 };

    ghost later_refl = { λ k. (refl, refl) };

    ghost later_trans = { λ i j k h g. (g.0 ∙ h.0, g.1 ∙ h.1) };

    ghost numbered = { λ k h. keys_numbered k.letters (Q.same k.letters k.level)
        (Q.number k.quotient.now) (Q.count k.quotient.now) k.is_started h.numbered };

    fn letters(&self) -> u8 {
        self.letters
    }

    fn len(&self) -> u32 {
        if self.is_started {
            self.quotient.len()
        } else {
            0
        }
    }

    fn start(&mut self) -> Result<u32, Memory> {
        self.is_started = true;
        Ok(0)
    }

    fn step(&mut self, _targets: &[u32], state: u32, letter: u8) -> Result<u32, Memory> {
        let number = self.quotient.step(state, letter)?;
        Ok(number)
    }
}
