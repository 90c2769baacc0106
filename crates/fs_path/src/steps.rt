// A count of comparisons.
ghost use Rattle.std.specs.Prelude.{◌≡◌, ◌+◌, ◌<◌};

use std::cmp::Ordering;
use std::marker::Model;
use std::sync::ledger::{Blank, Book, Ledger, Share};

/// How many comparisons were made. It takes no bytes, and only [`compare`](Steps::compare) counts.
#[derive(Drop)]
pub struct Steps<L: Ledger> {
    book: Book<L>,
    share: Share<L>,
}

impl<L: Ledger> Model for Steps<L> {
    ghost use Rattle.std.specs.Prelude.{ℕ, ◌<◌};

    ghost Value = { ℕ };

    ghost view = { λ s. s.book.total };

    ghost invariant = { λ s. 0 < s.share.parts };
}

impl<L: Ledger> Steps<L> {
    /// A count from 0 on, in a ledger that nobody else writes.
    pub fn new(blank: Blank) -> Steps<L>
        requires name { blank.name ≡ L.name }
        requires parts { blank.parts ≡ L.parts }
        requires any { 0 < L.parts }
        ensures { result ≡ 0 }
    {
        let (book, share) = blank.open();
        Steps { book, share }
    }

    /// The order of two keys. It counts as one comparison.
    pub fn compare<K: Ord>(&mut self, first: &K, second: &K) -> Ordering
        ensures order { result ≡ K.cmp first.now second.now }
        ensures counted { self.new ≡ self.old + 1 }
    {
        self.book.add(&mut self.share, 1);
        first.cmp(second)
    }
}
