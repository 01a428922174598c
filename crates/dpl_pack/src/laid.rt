//! Moats as they are laid. The faces near a set are kept once for all its moats.

ghost use Rattle.std.specs.Prelude.{◌≡◌};
ghost use Rattle.dpl_pack.specs.Laid.{moats_of, AreLaid};

use crate::moat::Moat;
use dpl_list::Items;
use std::marker::Model;

/// The faces near a set, and the depth of each.
#[derive(Drop)]
pub struct Near {
    pub faces: Items<u32>,
    pub depths: Items<u64>,
}

/// A moat round the set at a place: the greatest depth of its faces, and its half weight.
#[derive(Clone, Copy)]
pub struct Level {
    pub place: usize,
    pub most: u64,
    pub half: u64,
}

/// Moats in their order. Contracts see the list of them. They take the memory of the faces near each
/// set, however many moats are round it.
#[derive(Drop)]
pub struct Moats {
    sets: Vec<Near>,
    levels: Vec<Level>,
}

/// Moats as they are laid: what is near each set, and the levels round the sets.
#[derive(Clone, Copy)]
pub struct Laid<'a> {
    pub sets: &'a [Near],
    pub levels: &'a [Level],
}

impl Model for Moats {
    ghost use Rattle.std.specs.Prelude.{List};
    ghost use Rattle.dpl_pack.specs.declared.moat.Moat.{Moat};
    ghost use Rattle.dpl_pack.specs.Laid.{moats_of, AreLaid};

    ghost Value = { List Moat };

    ghost view = { λ m. moats_of m.sets.items m.levels.items };

    ghost invariant = { λ m. AreLaid m.sets.items m.levels.items };
}

impl Moats {
    /// Moats round these sets.
    pub fn new(sets: Vec<Near>, levels: Vec<Level>) -> Moats
        requires { AreLaid sets.items levels.items }
        ensures { result ≡ moats_of sets.items levels.items }
    {
        Moats { sets, levels }
    }

    /// The faces near the sets, and the levels round them.
    pub(crate) fn laid(&self) -> Laid<'_>
        ensures laid { AreLaid result.sets.now result.levels.now }
        ensures moats { moats_of result.sets.now result.levels.now ≡ self.now }
    {
        Laid {
            sets: &self.sets,
            levels: &self.levels,
        }
    }
}
