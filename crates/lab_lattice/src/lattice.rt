// A partial order with least upper and greatest lower bounds.
ghost use Rattle.std.specs.Prelude.{◌≡◌, Bool, true, ◌&&◌};

/// A partial order in which each two values have a least upper and a greatest lower bound.
pub trait Lattice {
    /// Whether the first is at least the second.
    ghost covers: { Self → Self → Bool };

    /// The least upper bound.
    ghost join: { Self → Self → Self };

    /// The greatest lower bound.
    ghost meet: { Self → Self → Self };

    /// Whether this is at least the other.
    fn dominates(&self, other: &Self) -> bool
        ensures { result ≡ covers self.now other.now };

    /// Whether each dominates the other.
    fn equal(&self, other: &Self) -> bool
        ensures { result ≡ (covers self.now other.now && covers other.now self.now) };

    /// The least upper bound of both.
    fn lub(&self, other: &Self) -> Self
        ensures { result ≡ join self.now other.now };

    /// The greatest lower bound of both.
    fn glb(&self, other: &Self) -> Self
        ensures { result ≡ meet self.now other.now };

    ghost reflexive: { (x : Self) → covers x x ≡ true };

    ghost transitive: { (x y z : Self) → covers x y ≡ true → covers y z ≡ true → covers x z ≡ true };

    /// What dominate each other are one value.
    ghost antisymmetric: { (x y : Self) → covers x y ≡ true → covers y x ≡ true → x ≡ y };

    ghost join_above_first: { (x y : Self) → covers (join x y) x ≡ true };

    ghost join_above_second: { (x y : Self) → covers (join x y) y ≡ true };

    ghost join_least: { (x y z : Self) → covers z x ≡ true → covers z y ≡ true → covers z (join x y) ≡ true };

    ghost meet_below_first: { (x y : Self) → covers x (meet x y) ≡ true };

    ghost meet_below_second: { (x y : Self) → covers y (meet x y) ≡ true };

    ghost meet_greatest: { (x y z : Self) → covers x z ≡ true → covers y z ≡ true → covers (meet x y) z ≡ true };
}
