// The numbers of processes, objects and descriptions.
ghost use Rattle.std.specs.Prelude.{◌≡◌};

use kern_model::{Did, Oid, Pid};
use lab_lattice::Label;

/// A number that is drawn in turn at a label: that label, and the count of the draw at it.
pub trait Number {
    ghost use Rattle.std.specs.declared.cmp.Ordering.{Ordering};
    ghost use Rattle.std.specs.Cmp.{IsTotalOrder};
    ghost use Rattle.std.specs.FinMap.{IsAntisymmetric};
    ghost use Rattle.kern_model.specs.Numbers.{Num};
    ghost use Rattle.kern_model.specs.ByNumber.{AreNumbers};

    /// The order of the numbers.
    ghost order: { Self → Self → Ordering };

    /// The label and the count of a number.
    ghost parts: { Self → Num };

    /// The number of a label and a count.
    ghost of_parts: { Num → Self };

    /// The label that it was drawn at.
    fn label(&self) -> &Label
        ensures { result.now ≡ (parts self.now).0 };

    /// The count of its draw.
    fn count(&self) -> u16
        ensures { result ≡ (parts self.now).1 };

    /// Their order is total.
    ghost total: { IsTotalOrder order };

    /// Numbers that are equal in the order are the same.
    ghost exact: { IsAntisymmetric order };

    /// A label and a count are those of their number, and numbers are in the order of their labels and counts.
    ghost agree: { AreNumbers order of_parts parts };
}

impl Number for Pid {
    ghost use Rattle.kern_model.specs.Keys.{pid_cmp};
    ghost use Rattle.kern_model.proofs.KeyLaws.{pid_cmp_exact, pid_cmp_total};
    ghost use Rattle.kern_model.specs.ByNumber.{pid_at};
    ghost use Rattle.kern_model.proofs.NumberLaws.{pids};

    ghost order = { pid_cmp };

    ghost parts = { λ n. (n.label, n.n) };

    ghost of_parts = { pid_at };

    ghost total = { pid_cmp_total };

    ghost exact = { pid_cmp_exact };

    ghost agree = { pids };

    #[inline(always)]
    fn label(&self) -> &Label {
        &self.label
    }

    #[inline(always)]
    fn count(&self) -> u16 {
        self.n
    }
}

impl Number for Oid {
    ghost use Rattle.kern_model.specs.Keys.{oid_cmp};
    ghost use Rattle.kern_model.proofs.KeyLaws.{oid_cmp_exact, oid_cmp_total};
    ghost use Rattle.kern_model.specs.ByNumber.{oid_at};
    ghost use Rattle.kern_model.proofs.NumberLaws.{oids};

    ghost order = { oid_cmp };

    ghost parts = { λ n. (n.label, n.n) };

    ghost of_parts = { oid_at };

    ghost total = { oid_cmp_total };

    ghost exact = { oid_cmp_exact };

    ghost agree = { oids };

    #[inline(always)]
    fn label(&self) -> &Label {
        &self.label
    }

    #[inline(always)]
    fn count(&self) -> u16 {
        self.n
    }
}

impl Number for Did {
    ghost use Rattle.kern_model.specs.Keys.{did_cmp};
    ghost use Rattle.kern_model.proofs.KeyLaws.{did_cmp_exact, did_cmp_total};
    ghost use Rattle.kern_model.specs.ByNumber.{did_at};
    ghost use Rattle.kern_model.proofs.NumberLaws.{dids};

    ghost order = { did_cmp };

    ghost parts = { λ n. (n.label, n.n) };

    ghost of_parts = { did_at };

    ghost total = { did_cmp_total };

    ghost exact = { did_cmp_exact };

    ghost agree = { dids };

    #[inline(always)]
    fn label(&self) -> &Label {
        &self.label
    }

    #[inline(always)]
    fn count(&self) -> u16 {
        self.n
    }
}
