// Lattices in reverse.
use crate::Lattice;
use std::cmp::Ordering;

/// A value of a lattice whose order is reversed: what was above is below, and what was listed first is listed last.
#[derive(Clone, Copy, Debug, PartialEq, Eq)]
pub struct Dual<A> {
    pub inner: A,
}

impl<A: Lattice> Lattice for Dual<A> {
    ghost use Rattle.lab_lattice.specs.Dual.{dual_covers, dual_of};
    ghost use Rattle.lab_lattice.specs.Laws.{dual_transitive, dual_antisymmetric};

    ghost covers = { dual_covers A.covers };

    ghost join = { dual_of A.meet };

    ghost meet = { dual_of A.join };

    ghost reflexive = { λ x. A.reflexive x.inner };

    ghost transitive = { dual_transitive A.covers A.transitive };

    ghost antisymmetric = { dual_antisymmetric A.covers A.antisymmetric };

    ghost join_above_first = { λ x y. A.meet_below_first x.inner y.inner };

    ghost join_above_second = { λ x y. A.meet_below_second x.inner y.inner };

    ghost join_least = { λ x y z. A.meet_greatest x.inner y.inner z.inner };

    ghost meet_below_first = { λ x y. A.join_above_first x.inner y.inner };

    ghost meet_below_second = { λ x y. A.join_above_second x.inner y.inner };

    ghost meet_greatest = { λ x y z. A.join_least x.inner y.inner z.inner };

    fn dominates(&self, other: &Self) -> bool {
        other.inner.dominates(&self.inner)
    }

    fn equal(&self, other: &Self) -> bool {
        self.inner.equal(&other.inner)
    }

    fn lub(&self, other: &Self) -> Self {
        Dual {
            inner: self.inner.glb(&other.inner),
        }
    }

    fn glb(&self, other: &Self) -> Self {
        Dual {
            inner: self.inner.lub(&other.inner),
        }
    }
}

impl<A: Ord> PartialOrd for Dual<A> {
    ghost use Rattle.std.specs.Ordering.{as_partial_cmp};
    ghost use Rattle.lab_lattice.specs.Dual.{dual_cmp};
    ghost use Rattle.lab_lattice.specs.Laws.{dual_partial_order};

    ghost partial_cmp = { as_partial_cmp (dual_cmp A.cmp) };

    ghost laws = { dual_partial_order A.matches_eq A.total };

    fn partial_cmp(&self, other: &Self) -> Option<Ordering> {
        Some(self.cmp(other))
    }
}

impl<A: Ord> Ord for Dual<A> {
    ghost use Rattle.std.specs.Prelude.{refl};
    ghost use Rattle.lab_lattice.specs.Dual.{dual_cmp};
    ghost use Rattle.lab_lattice.specs.Laws.{dual_cmp_total, dual_ties};

    ghost cmp = { dual_cmp A.cmp };

    ghost total = { dual_cmp_total A.total };

    ghost matches_partial_cmp = { λ x y. refl };

    ghost matches_eq = { dual_ties A.matches_eq A.total };

    fn cmp(&self, other: &Self) -> Ordering {
        other.inner.cmp(&self.inner)
    }
}
