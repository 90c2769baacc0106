// Grades, in their order.
ghost use Rattle.std.specs.Prelude.{◌≡◌, ◌≤◌, ◌↔◌, IsSome, IfSome};
ghost use Rattle.lab_lattice.specs.Grade.{highest_grade};

use crate::{Lattice, Level};
use std::marker::Model;

/// A grade of integrity. It is numbered and ordered as a level is.
#[derive(Clone, Copy, Debug, PartialEq, Eq, PartialOrd, Ord)]
pub struct Grade {
    // The level with the grade's number.
    level: Level,
}

impl Model for Grade {
    ghost use Rattle.std.specs.Prelude.{◌≤◌};
    ghost use Rattle.lab_lattice.specs.Grade.{Grade, grade_code, grade_of};
    ghost use Rattle.lab_lattice.specs.Laws.{grade_number};

    ghost Value = { Grade };

    ghost coded = { grade_code };

    ghost view = { λ g. grade_of g.level };

    ghost invariant = { λ g. g.level ≤ 15 };

    ghost inverse = { λ g. record { level = g.number } };

    ghost inverse_ok = { λ g h. λ i. record { level = grade_number g.level h i } };
}

impl Grade {
    /// The grade with this number, if there is one.
    pub fn new(n: u8) -> Option<Grade>
        ensures some { IsSome result ↔ (n ≤ 15) }
        ensures grade { IfSome result (λ grade. grade.number ≡ n) }
    {
        let level = Level::new(n)?;
        Some(Grade { level })
    }

    /// The highest grade.
    pub fn highest() -> Grade
        ensures { result ≡ highest_grade }
    {
        Grade {
            level: Level::highest(),
        }
    }

    /// Its number.
    pub fn number(&self) -> u8
        ensures { result ≡ self.now.number }
    {
        self.level.number()
    }
}

impl Lattice for Grade {
    ghost use Rattle.lab_lattice.specs.Grade.{grade_covers, grade_join, grade_meet};
    ghost use Rattle.lab_lattice.specs.Laws.{number_reflexive, number_transitive, grade_antisymmetric, number_join_first, number_join_second, number_join_least, number_meet_first, number_meet_second, number_meet_greatest};

    ghost covers = { grade_covers };

    ghost join = { grade_join };

    ghost meet = { grade_meet };

    ghost reflexive = { λ x. number_reflexive x.number };

    ghost transitive = { λ x y z. number_transitive x.number y.number z.number };

    ghost antisymmetric = { grade_antisymmetric };

    ghost join_above_first = { λ x y. number_join_first x.number y.number };

    ghost join_above_second = { λ x y. number_join_second x.number y.number };

    ghost join_least = { λ x y z. number_join_least x.number y.number z.number };

    ghost meet_below_first = { λ x y. number_meet_first x.number y.number };

    ghost meet_below_second = { λ x y. number_meet_second x.number y.number };

    ghost meet_greatest = { λ x y z. number_meet_greatest x.number y.number z.number };

    fn dominates(&self, other: &Self) -> bool {
        self.level.dominates(&other.level)
    }

    fn equal(&self, other: &Self) -> bool {
        self.level.equal(&other.level)
    }

    fn lub(&self, other: &Self) -> Self {
        Grade {
            level: self.level.lub(&other.level),
        }
    }

    fn glb(&self, other: &Self) -> Self {
        Grade {
            level: self.level.glb(&other.level),
        }
    }
}
