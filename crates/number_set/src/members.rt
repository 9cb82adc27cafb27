//! Walks over the members of a set.
ghost use Rattle.std.specs.Prelude.{◌≡◌, ◌+◌, IfSome, IsNone};
ghost use Rattle.number_set.specs.Marks.{IsNext};

use crate::number_set::NumberSet;
use std::marker::Model;

/// A walk over the members of a set, in rising order. A contract sees the set's marks, and that the members below
/// `from` are behind the walk. It skips 64 numbers at once where none of them is a member.
#[derive(Drop)]
pub struct Members<'a> {
    set: &'a NumberSet,
    from: u32,
    /// The marks of the numbers from `64 * place` on that are still to come.
    left: u64,
    place: u32,
}

impl<'a> Model for Members<'a> {
    ghost use Rattle.number_set.specs.Marks.{Walk, IsAhead};

    ghost Value = { Walk };

    ghost view = { λ w. record { marks = w.set.now; from = w.from } };

    ghost invariant = { λ w. IsAhead w.set.now w.from w.place w.left };
}

impl<'a> Members<'a> {
    /// The walk that begins with the least member.
    pub(crate) fn of(set: &'a NumberSet) -> Members<'a>
        ensures { result ≡ record { marks = set.now; from = 0 } }
    {
        let left = set.word(0).unwrap_or(0);
        Members {
            set,
            from: 0,
            left,
            place: 0,
        }
    }

    /// The next member, if there is one more. Where there is none, the walk stays where it is.
    pub fn next(&mut self) -> Option<u32>
        ensures next { IsNext self.old.marks self.old.from result }
        ensures marks { self.new.marks ≡ self.old.marks }
        ensures from { IfSome result (λ p. self.new.from ≡ p + 1) }
        ensures end { IsNone result → self.new ≡ self.old }
    {
        let size = self.set.size();
        let mut place = self.place;
        let mut left = self.left;
        while left == 0 {
            place += 1;
            let Some(word) = self.set.word(place) else {
                return None;
            };
            left = word;
        }
        let bit = left.trailing_zeros();
        let member = 64 * place + bit;
        self.place = place;
        self.left = left & !(1 << bit);
        self.from = member + 1;
        Some(member)
    }
}
