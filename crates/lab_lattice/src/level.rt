// Levels, in their order.
ghost use Rattle.std.specs.Prelude.{◌≡◌, ◌≤◌, ◌↔◌, IsSome, IfSome};

use crate::Lattice;
use std::marker::Model;

// The highest number of a level.
const MAX_LEVEL: u8 = 15;

/// A level of secrecy, seen as its number: 0 is the lowest, 15 the highest that a value can have.
#[derive(Clone, Copy, Debug, PartialEq, Eq, PartialOrd, Ord)]
pub struct Level {
    // As wide as each part of the categories beside it, so that a label has no padding.
    number: u32,
}

impl Model for Level {
    ghost use Rattle.std.specs.Prelude.{ℕ, ◌≤◌};

    ghost Value = { ℕ };

    ghost view = { λ l. l.number };

    ghost invariant = { λ l. l.number ≤ 15 };

    ghost inverse = { λ n. record { number = n } };
}

impl Level {
    /// The level with this number, if there is one.
    pub fn new(n: u8) -> Option<Level>
        ensures some { IsSome result ↔ (n ≤ 15) }
        ensures level { IfSome result (λ level. level ≡ n) }
    {
        if n <= MAX_LEVEL {
            Some(Level {
                number: u32::from(n),
            })
        } else {
            None
        }
    }

    /// The lowest level.
    pub fn lowest() -> Level
        ensures { result ≡ 0 }
    {
        Level { number: 0 }
    }

    /// The highest level that a value can have.
    pub fn highest() -> Level
        ensures { result ≡ 15 }
    {
        Level {
            number: u32::from(MAX_LEVEL),
        }
    }

    /// Its number.
    pub fn number(&self) -> u8
        ensures number { result ≡ self.now }
        ensures few { result ≤ 15 }
    {
        self.number as u8
    }
}

impl Lattice for Level {
    ghost use Rattle.lab_lattice.specs.Number.{number_covers, number_join, number_meet};
    ghost use Rattle.lab_lattice.specs.Laws.{number_reflexive, number_transitive, number_antisymmetric, number_join_first, number_join_second, number_join_least, number_meet_first, number_meet_second, number_meet_greatest};

    ghost covers = { number_covers };

    ghost join = { number_join };

    ghost meet = { number_meet };

    ghost reflexive = { number_reflexive };

    ghost transitive = { number_transitive };

    ghost antisymmetric = { number_antisymmetric };

    ghost join_above_first = { number_join_first };

    ghost join_above_second = { number_join_second };

    ghost join_least = { number_join_least };

    ghost meet_below_first = { number_meet_first };

    ghost meet_below_second = { number_meet_second };

    ghost meet_greatest = { number_meet_greatest };

    fn dominates(&self, other: &Self) -> bool {
        self.number >= other.number
    }

    fn equal(&self, other: &Self) -> bool {
        self.number == other.number
    }

    fn lub(&self, other: &Self) -> Self {
        if self.dominates(other) { *self } else { *other }
    }

    fn glb(&self, other: &Self) -> Self {
        if other.dominates(self) { *self } else { *other }
    }
}
