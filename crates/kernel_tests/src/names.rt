// The order of names.
ghost use Rattle.std.specs.Prelude.{◌≡◌, ◌<◌};
ghost use Rattle.std.specs.Cmp.Lexicographic.{slice_cmp};
ghost use Rattle.std.specs.Ordering.{nat_cmp};

use fs_path::{Name, Steps};
use std::alloc::Global;
use std::cmp::Ordering;
use std::marker::Brand;
use std::sync::ledger::{Blank, Ledger};

// The order of two names, by one comparison that is counted.
fn order<L: Ledger>(first: &Name, second: &Name, blank: Blank) -> Ordering
    requires name { blank.name ≡ L.name }
    requires parts { blank.parts ≡ L.parts }
    requires any { 0 < L.parts }
    ensures { result ≡ slice_cmp nat_cmp first.now second.now }
{
    let mut steps = Steps::<L>::new(blank);
    first.compare(second, &mut steps)
}

// The order of the names with these bytes.
fn order_of(alloc: Global, first: &[u8], second: &[u8]) -> Option<Ordering> {
    let first = Name::read(alloc, first).ok()??;
    let second = Name::read(alloc, second).ok()??;
    Some(order::<Brand>(&first, &second, Blank::new(1)))
}

#[test]
fn names_are_ordered_by_their_bytes(rt: HostRuntime) {
    assert!(rt; order_of(rt.alloc(), b"a", b"ab") == Some(Ordering::Less));
    assert!(rt; order_of(rt.alloc(), b"\xff", b"ab") == Some(Ordering::Greater));
    assert!(rt; order_of(rt.alloc(), b"ab", b"ab") == Some(Ordering::Equal));
}
