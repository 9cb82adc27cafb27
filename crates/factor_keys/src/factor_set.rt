//! Sets of factors of one length.
ghost use Rattle.std.specs.Prelude.{◌≡◌, [], nat_eq, IfOk};
ghost use Rattle.std.specs.Cmp.Lexicographic.{pointwise, lists_per, lists_equiv};
ghost use Rattle.std.specs.Hash as fed;
ghost use Rattle.std.specs.Hash.{items_Alike};
ghost use Rattle.std.proofs.Common.{rules};
ghost use Rattle.factor_keys.specs.FactorKeys.{with_place};

use std::alloc::Global;
use std::hash::{Hash, Hasher};
use std::marker::Model;
use syn_words::Memory;

/// A set of factors of one length, as the rising list of their places among the words of that length. It takes memory
/// for the factors that are there, and not for those that there could be.
#[derive(Drop)]
pub(crate) struct FactorSet {
    places: Vec<u32>,
}

impl Model for FactorSet {
    ghost use Rattle.std.specs.Prelude.{List, ℕ};

    ghost Value = { List ℕ };

    ghost view = { λ s. s.places.items };
}

impl FactorSet {
    /// The empty set.
    pub(crate) fn new(alloc: Global) -> FactorSet
        ensures { result ≡ [] }
    {
        FactorSet {
            places: Vec::new(alloc),
        }
    }

    /// An equal set of its own.
    pub(crate) fn copy(&self) -> Result<FactorSet, Memory>
        ensures { IfOk result (λ s. s ≡ self.now) }
    {
        let places = Vec::from_slice(*self.places.allocator(), self.places.as_slice())?;
        Ok(FactorSet { places })
    }

    /// The set with a factor more.
    pub(crate) fn with(&self, place: u32) -> Result<FactorSet, Memory>
        ensures { IfOk result (λ s. s ≡ with_place place self.now) }
    {
        let mut places = Vec::with_capacity(*self.places.allocator(), self.places.len())?;
        let mut is_placed = false;
        for &old in &self.places {
            if !is_placed && place <= old {
                is_placed = true;
                if place < old {
                    places.push(place)?;
                }
            }
            places.push(old)?;
        }
        if !is_placed {
            places.push(place)?;
        }
        Ok(FactorSet { places })
    }
}

impl PartialEq for FactorSet {
    ghost eq = { pointwise nat_eq };

    ghost laws = { lists_per (Prim.search rules) };

    fn eq(&self, other: &FactorSet) -> bool {
        self.places.as_slice() == other.places.as_slice()
    }
}

impl Eq for FactorSet {
    ghost laws = { lists_equiv (Prim.search rules) };
}

impl Hash for FactorSet {
    ghost hash_input = { fed.slice fed.u32 };

    ghost respects_eq = { (items_Alike {F = fed.u32} (record { fed = Prim.search rules })).fed };

    fn hash<H: Hasher>(&self, state: &mut H) {
        self.places.hash(state);
    }
}
