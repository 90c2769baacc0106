// A list that only proofs read.
ghost use Rattle.std.specs.Prelude.{◌≡◌, List, [], ◌∷◌, ◌++◌};
ghost use Rattle.std.specs.Borrow.{ftrue};

use std::marker::{Model, PhantomData};

/// A list of triples that only proofs read. It takes no memory, and its functions do nothing at run time.
#[derive(Drop)]
pub struct GhostList<A, B, C> {
    of: PhantomData<(A, B, C)>,
    /// The triples, in order.
    pub ghost items: { List (A × (B × C)) },
}

impl<A, B, C> Model for GhostList<A, B, C> {
    ghost also_owns = { λ _. ftrue };
}

impl<A, B, C> GhostList<A, B, C> {
    /// An empty list.
    #[inline(always)]
    pub fn new() -> GhostList<A, B, C>
        ensures { result.items ≡ [] }
    {
        GhostList { of: PhantomData }
    }

    /// The list with one more triple at its end.
    #[inline(always)]
    pub fn with(&self, first: &A, second: &B, third: &C) -> GhostList<A, B, C>
        ensures { result.items ≡ self.now.items ++ (first.now, (second.now, third.now)) ∷ [] }
    {
        GhostList { of: PhantomData }
    }
}
