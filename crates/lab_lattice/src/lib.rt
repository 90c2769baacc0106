//! Labels and their order, seen through the laws of a lattice alone.
#![tactic(auto)]

ghost use Rattle.std.specs.Prelude.{◌≡◌};
ghost use Rattle.lab_lattice.specs.Label.{bottom};

mod cats;
mod dual;
mod grade;
mod lattice;
mod level;
mod pair;

pub use cats::Cats;
pub use dual::Dual;
pub use grade::Grade;
pub use lattice::Lattice;
pub use level::Level;
pub use pair::Pair;

/// The label of a process or an object. Its meaning is in `specs/Label.antt`.
pub type Label = Pair<Pair<Level, Cats>, Dual<Grade>>;

/// The label that each label dominates.
#[tactic(auto, unfolding(crate::specs::Label::bottom))]
pub fn bottom() -> Label
    ensures { result ≡ bottom }
{
    Pair {
        first: Pair {
            first: Level::lowest(),
            second: Cats::empty(),
        },
        second: Dual {
            inner: Grade::highest(),
        },
    }
}
