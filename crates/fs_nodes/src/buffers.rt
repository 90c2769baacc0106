// The bytes in pipes and FIFOs.
ghost use Rattle.std.specs.Prelude.{◌≡◌, ◌++◌, [], OnErr, OnOk, drop, option_copied, take};
ghost use Rattle.std.specs.FinMap as map;
ghost use Rattle.std.specs.FinMap.{FinMap};
ghost use Rattle.kern_model.specs.Keys.{oid_cmp};
ghost use Rattle.kern_model.specs.declared.objects.Object.{Object as Value};
ghost use Rattle.kern_model.specs.Maps.{IfPresent};
ghost use Rattle.fs_nodes.specs.Nodes.{FitsPipe, ForBytes, IsStream, copy_len};

use crate::NoMemory;
use kern_model::{Object, Oid};

/// Objects, among them pipes and FIFOs with bytes to be read.
pub trait Buffers {
    /// The objects by their numbers.
    ghost objects: { Self → FinMap oid_cmp Value };

    /// Whether two values differ in their objects alone.
    ghost rest_same: { Self → Self → Type 0 };

    /// The object with a number, if there is one.
    fn object(&self, id: &Oid) -> Option<&Object>
        ensures { option_copied result ≡ map.get (objects self.now) id.now };

    /// Appends bytes to a pipe or FIFO.
    fn put_bytes(&mut self, id: &Oid, bytes: &[u8]) -> Result<(), NoMemory>
        requires stream { IsStream (objects self.old) id.now }
        requires room { IfPresent (objects self.old) id.now (λ o. FitsPipe o.bytes bytes.now) }
        ensures put { ForBytes (objects self.old) id.now (λ old with_bytes. OnOk result (objects self.new ≡ with_bytes (old ++ bytes.now))) }
        ensures err { OnErr result (objects self.new ≡ objects self.old) }
        ensures rest { rest_same self.old self.new };

    /// Moves the first bytes of a pipe or FIFO to a buffer, as many as are there and fit, and returns their number.
    /// It does not allocate.
    fn take_bytes(&mut self, id: &Oid, buf: &mut [u8]) -> usize
        requires stream { IsStream (objects self.old) id.now }
        ensures count { IfPresent (objects self.old) id.now (λ o. result ≡ copy_len o.bytes buf.old) }
        ensures taken { IfPresent (objects self.old) id.now (λ o. buf.new ≡ take result o.bytes ++ drop result buf.old) }
        ensures left { ForBytes (objects self.old) id.now (λ old with_bytes. objects self.new ≡ with_bytes (drop result old)) }
        ensures rest { rest_same self.old self.new };

    /// Removes all bytes from a pipe or FIFO. It does not allocate.
    fn drop_bytes(&mut self, id: &Oid)
        requires stream { IsStream (objects self.old) id.now }
        ensures dropped { ForBytes (objects self.old) id.now (λ _ with_bytes. objects self.new ≡ with_bytes []) }
        ensures rest { rest_same self.old self.new };

    ghost reflexive: { (x : Self) → rest_same x x };

    ghost transitive: { (x y z : Self) → rest_same x y → rest_same y z → rest_same x z };
}
