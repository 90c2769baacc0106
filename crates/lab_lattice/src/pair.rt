// Pairs of lattices.
use crate::Lattice;
use std::cmp::Ordering;

/// Two values, ordered part by part. Pairs of ordered parts are listed by their first parts, then by their second ones.
#[derive(Clone, Copy, Debug, PartialEq, Eq)]
pub struct Pair<A, B> {
    pub first: A,
    pub second: B,
}

impl<A: Lattice, B: Lattice> Lattice for Pair<A, B> {
    ghost use Rattle.lab_lattice.specs.Pair.{pair_covers, pair_of};
    ghost use Rattle.lab_lattice.specs.Laws.{pair_reflexive, pair_transitive, pair_antisymmetric, pair_join_first, pair_join_second, pair_join_least, pair_meet_first, pair_meet_second, pair_meet_greatest};

    ghost covers = { pair_covers A.covers B.covers };

    ghost join = { pair_of A.join B.join };

    ghost meet = { pair_of A.meet B.meet };

    ghost reflexive = { pair_reflexive A.covers B.covers A.reflexive B.reflexive };

    ghost transitive = { pair_transitive A.covers B.covers A.transitive B.transitive };

    ghost antisymmetric = { pair_antisymmetric A.covers B.covers A.antisymmetric B.antisymmetric };

    ghost join_above_first = { pair_join_first A.covers B.covers A.join B.join A.join_above_first B.join_above_first };

    ghost join_above_second = { pair_join_second A.covers B.covers A.join B.join A.join_above_second B.join_above_second };

    ghost join_least = { pair_join_least A.covers B.covers A.join B.join A.join_least B.join_least };

    ghost meet_below_first = { pair_meet_first A.covers B.covers A.meet B.meet A.meet_below_first B.meet_below_first };

    ghost meet_below_second = { pair_meet_second A.covers B.covers A.meet B.meet A.meet_below_second B.meet_below_second };

    ghost meet_greatest = { pair_meet_greatest A.covers B.covers A.meet B.meet A.meet_greatest B.meet_greatest };

    fn dominates(&self, other: &Self) -> bool {
        self.first.dominates(&other.first) && self.second.dominates(&other.second)
    }

    fn equal(&self, other: &Self) -> bool {
        self.first.equal(&other.first) && self.second.equal(&other.second)
    }

    fn lub(&self, other: &Self) -> Self {
        Pair {
            first: self.first.lub(&other.first),
            second: self.second.lub(&other.second),
        }
    }

    fn glb(&self, other: &Self) -> Self {
        Pair {
            first: self.first.glb(&other.first),
            second: self.second.glb(&other.second),
        }
    }
}

impl<A: Ord, B: Ord> PartialOrd for Pair<A, B> {
    ghost use Rattle.std.specs.Ordering.{as_partial_cmp};
    ghost use Rattle.lab_lattice.specs.Pair.{pair_cmp};
    ghost use Rattle.lab_lattice.specs.Laws.{pair_partial_order};

    ghost partial_cmp = { as_partial_cmp (pair_cmp A.cmp B.cmp) };

    ghost laws = { pair_partial_order A.cmp B.cmp A.matches_eq B.matches_eq A.total B.total };

    fn partial_cmp(&self, other: &Self) -> Option<Ordering> {
        Some(self.cmp(other))
    }
}

impl<A: Ord, B: Ord> Ord for Pair<A, B> {
    ghost use Rattle.std.specs.Prelude.{refl};
    ghost use Rattle.lab_lattice.specs.Pair.{pair_cmp};
    ghost use Rattle.lab_lattice.specs.Laws.{pair_cmp_total, pair_ties};

    ghost cmp = { pair_cmp A.cmp B.cmp };

    ghost total = { pair_cmp_total A.total B.total };

    ghost matches_partial_cmp = { λ x y. refl };

    ghost matches_eq = { pair_ties A.cmp B.cmp A.matches_eq B.matches_eq };

    fn cmp(&self, other: &Self) -> Ordering {
        self.first
            .cmp(&other.first)
            .then(self.second.cmp(&other.second))
    }
}
