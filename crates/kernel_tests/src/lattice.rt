// The order of labels at a few values.
use lab_lattice::{Cats, Dual, Grade, Label, Lattice, Level, Pair, bottom};

// The set of these categories, all below 64.
fn cats(numbers: &[u8]) -> Cats {
    let mut set = Cats::empty();
    for i in numbers {
        if let Some(one) = Cats::one(*i) {
            set = set.lub(&one);
        }
    }
    set
}

// The label with this level, 0 where there is none, these categories and this grade, 15 where there is none.
fn graded(level: u8, categories: &[u8], grade: u8) -> Label {
    let first = Pair {
        first: Level::new(level).unwrap_or(Level::lowest()),
        second: cats(categories),
    };
    let second = match Grade::new(grade) {
        Some(inner) => Dual { inner },
        None => bottom().second,
    };
    Pair { first, second }
}

// The label with this level, these categories and the highest grade.
fn label(level: u8, categories: &[u8]) -> Label {
    graded(level, categories, 15)
}

// Whether a value lies between two others.
fn is_between<A: Lattice>(low: &A, middle: &A, high: &A) -> bool {
    middle.dominates(low) && high.dominates(middle)
}

#[test]
fn sets(rt: HostRuntime) {
    let (some, others) = (cats(&[0, 5, 63]), cats(&[5, 7]));
    assert!(rt; Cats::one(64).is_none());
    assert!(rt; some.has(63) && !some.has(1) && !some.has(64) && !some.has(69));
    assert!(rt; !some.dominates(&others) && !others.dominates(&some));
    assert!(rt; some.lub(&others) == cats(&[0, 5, 7, 63]) && some.glb(&others) == cats(&[5]));
    assert!(rt; some.dominates(&some) && some.dominates(&Cats::empty()));
}

#[test]
fn labels(rt: HostRuntime) {
    let (low, high) = (label(2, &[1, 3]), label(9, &[1]));
    assert!(rt; !low.dominates(&high) && !high.dominates(&low) && !low.equal(&high));
    assert!(rt; low.lub(&high) == label(9, &[1, 3]) && low.glb(&high) == label(2, &[1]));
    assert!(rt; is_between(&bottom(), &low, &label(15, &[1, 2, 3])));
    assert!(rt; Level::new(16).is_none() && bottom() == label(0, &[]));
}

#[test]
fn grades(rt: HostRuntime) {
    let (trusted, fetched) = (graded(0, &[], 15), graded(0, &[], 2));
    assert!(rt; fetched.dominates(&trusted) && !trusted.dominates(&fetched));
    assert!(rt; trusted.lub(&fetched) == fetched && trusted.glb(&fetched) == trusted);
    assert!(rt; bottom() == trusted && Grade::new(16).is_none());
}

// Whether two labels are bounded and compared as in a lattice.
fn obey_the_laws(a: &Label, b: &Label) -> bool {
    let (above, below) = (a.lub(b), a.glb(b));
    let bounded = above.dominates(a)
        && above.dominates(b)
        && a.dominates(&below)
        && b.dominates(&below);
    let compared = a.dominates(b) == (above == *a)
        && a.dominates(b) == (below == *b)
        && a.equal(b) == (a == b);
    bounded && compared
}

#[test]
fn laws_of_all_pairs(rt: HostRuntime) {
    let labels = [
        graded(0, &[], 15),
        graded(0, &[], 14),
        graded(0, &[1], 15),
        graded(0, &[1], 14),
        graded(3, &[], 15),
        graded(3, &[], 14),
        graded(3, &[1], 15),
        graded(3, &[1, 2], 0),
    ];
    for a in labels.iter() {
        assert!(rt; labels.iter().all(|b| obey_the_laws(a, b)));
    }
}

#[test]
fn labels_are_listed_by_level_and_then_by_number(rt: HostRuntime) {
    assert!(rt; label(2, &[63]) < label(3, &[]));
    assert!(rt; label(2, &[0, 1, 2]) < label(2, &[3]));
    assert!(rt; label(2, &[3]) < label(2, &[0, 3]));
    assert!(rt; graded(2, &[3], 15) < graded(2, &[3], 14));
    assert!(rt; graded(2, &[3], 0) < graded(2, &[0, 3], 15));
}

fn dual(inner: Label) -> Dual<Label> {
    Dual { inner }
}

#[test]
fn dual_order(rt: HostRuntime) {
    let (low, high) = (dual(label(2, &[1, 3])), dual(label(1, &[])));
    assert!(rt; high.dominates(&low) && !low.dominates(&high));
    assert!(rt; low.lub(&high) == high && low.glb(&high) == low);
}
