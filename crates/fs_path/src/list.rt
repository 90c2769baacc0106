// Lists over a vector.
ghost use Rattle.std.specs.Prelude.{◌≡◌, ◌≤◌, ◌+◌, [], ◌∷◌, ◌++◌, OnOk, OnErr, IfOk, drop, length, min, take};
ghost use Rattle.std.specs.Cmp.{on_equiv, on_per, on_po, on_total};
ghost use Rattle.std.specs.Cmp.Lexicographic.{slice_cmp, slice_partial_cmp, pointwise, lists_agrees, lists_equiv, lists_per, lists_po, lists_ties, lists_total};
ghost use Rattle.std.specs.Ordering.{on};

use crate::NoMemory;
use std::alloc::Global;
use std::cmp::Ordering;
use std::marker::Model;

/// Bytes.
pub type ByteList = List<u8>;

/// A list that grows at its end, seen as its items in order.
#[derive(Debug)]
pub struct List<T> {
    kept: Vec<T>,
}

impl<T: Drop> Drop for List<T> {
    fn drop(self) {
        let List { kept: _ } = self;
    }
}

impl<T> Model for List<T> {
    ghost use Rattle.std.specs.Prelude.{List};

    ghost Value = { List T };

    ghost view = { λ l. l.kept.items };
}

impl<T: Drop> List<T> {
    /// An empty list. It does not allocate until it grows.
    pub fn new(alloc: Global) -> Self
        ensures { result ≡ [] }
    {
        List {
            kept: Vec::new(alloc),
        }
    }

    /// An empty list with room for so many items.
    pub fn with_capacity(alloc: Global, capacity: usize) -> Result<Self, NoMemory>
        ensures { IfOk result (λ list. list ≡ []) }
    {
        let kept = Vec::with_capacity(alloc, capacity)?;
        Ok(List { kept })
    }

    /// Appends an item.
    pub fn push(&mut self, item: T) -> Result<(), NoMemory>
        ensures ok { OnOk result (self.new ≡ self.old ++ item ∷ []) }
        ensures err { OnErr result (self.new ≡ self.old) }
    {
        self.kept.push(item)?;
        Ok(())
    }

    /// The items in order.
    pub fn items(&self) -> &[T]
        ensures { result.now ≡ self.now }
    {
        self.kept.as_slice()
    }

    /// The items in order, in a vector.
    pub fn into_vec(self) -> Vec<T>
        ensures { result.items ≡ self }
    {
        let List { kept } = self;
        kept
    }

    /// Gives back the memory that its items do not need.
    pub fn shrink_to_fit(&mut self)
        ensures { self.new ≡ self.old }
    {
        self.kept.shrink_to_fit();
    }

    /// The allocator of its items.
    pub(crate) fn allocator(&self) -> Global {
        *self.kept.allocator()
    }

    /// Removes all items.
    pub fn clear(&mut self)
        ensures { self.new ≡ [] }
    {
        self.kept.clear();
    }
}

impl<T: Copy + Drop> List<T> {
    /// A list of these items.
    pub fn from_slice(alloc: Global, items: &[T]) -> Result<Self, NoMemory>
        ensures { IfOk result (λ list. list ≡ items.now) }
    {
        let kept = Vec::from_slice(alloc, items)?;
        Ok(List { kept })
    }

    /// Appends items.
    pub fn extend_from_slice(&mut self, items: &[T]) -> Result<(), NoMemory>
        ensures ok { OnOk result (self.new ≡ self.old ++ items.now) }
        ensures err { OnErr result (self.new ≡ self.old) }
    {
        self.kept.extend_from_slice(items)?;
        Ok(())
    }

    /// Writes items over those from the index `at` on, and appends those that reach past the end.
    pub fn write_at(&mut self, at: usize, items: &[T]) -> Result<(), NoMemory>
        requires { at ≤ length self.old }
        ensures ok { OnOk result (self.new ≡ take at self.old ++ (items.now ++ drop (at + length items.now) self.old)) }
        ensures err { OnErr result (self.new ≡ self.old) }
    {
        let within = (self.kept.len() - at).min(items.len());
        let (over, past) = items.split_at(within);
        self.kept.extend_from_slice(past)?;
        self.kept[at..at + within].copy_from_slice(over);
        Ok(())
    }

    /// Moves the first items to a buffer, as many as are there and fit, and returns their number.
    pub fn take_first(&mut self, buf: &mut [T]) -> usize
        ensures count { result ≡ min (length self.old) (length buf.old) }
        ensures taken { buf.new ≡ take result self.old ++ drop result buf.old }
        ensures rest { self.new ≡ drop result self.old }
    {
        let n = self.kept.len().min(buf.len());
        buf[..n].copy_from_slice(&self.kept[..n]);
        self.kept.drain(..n);
        n
    }

    /// A copy of the list.
    pub fn copy(&self) -> Result<Self, NoMemory>
        ensures { IfOk result (λ list. list ≡ self.now) }
    {
        List::from_slice(self.allocator(), self.items())
    }
}

impl<T: PartialEq> PartialEq for List<T> {
    ghost eq = { on (λ l. l) (pointwise T.eq) };

    ghost laws = { on_per (λ l. l) (lists_per T.PartialEq.laws) };

    fn eq(&self, other: &List<T>) -> bool {
        self.kept.as_slice() == other.kept.as_slice()
    }
}

impl<T: Eq> Eq for List<T> {
    ghost laws = { on_equiv (λ l. l) (lists_equiv T.Eq.laws) };
}

impl<T: PartialOrd> PartialOrd for List<T> {
    ghost partial_cmp = { on (λ l. l) (slice_partial_cmp T.partial_cmp) };

    ghost laws = { on_po (λ l. l) (lists_po T.PartialOrd.laws) };

    fn partial_cmp(&self, other: &List<T>) -> Option<Ordering> {
        self.kept.as_slice().partial_cmp(other.kept.as_slice())
    }
}

impl<T: Ord> Ord for List<T> {
    ghost cmp = { on (λ l. l) (slice_cmp T.cmp) };

    ghost total = { on_total (λ l. l) (lists_total T.total) };

    ghost matches_partial_cmp = { λ x y. lists_agrees T.matches_partial_cmp x y };

    ghost matches_eq = { λ x y. lists_ties T.cmp T.matches_eq x y };

    fn cmp(&self, other: &List<T>) -> Ordering {
        self.kept.as_slice().cmp(other.kept.as_slice())
    }
}
