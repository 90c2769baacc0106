// An input that is opened: its world is read, and the reader is left at its script.
ghost use Rattle.std.specs.Prelude.{◌≡◌, ℕ};
ghost use Rattle.lab_engine.specs.Counts.{CountsOnce, counts};
ghost use Rattle.lab_engine.specs.Opening.{OpensInput};

use crate::reading::{ReadWorld, read_world};
use crate::{Fault, InputEnd};
use io_ends::{Lines, Source};
use kern_model::limits::MAX_INPUT;
use std::alloc::Global;
use world_text::{Format, WorldText};

/// A world that was accepted, and the reader of the lines that its script follows in.
#[derive(Drop)]
pub struct OpenedWorld {
    pub read: WorldText,
    pub lines: Lines,
}

/// What opening an input leads to.
#[derive(Drop)]
pub enum Opened {
    /// A world, after which the script begins.
    World(OpenedWorld),
    /// The input ends before its world does.
    Ended(InputEnd),
}

/// Opens the input that a source holds: reads its world, in the format that is due, and takes no more of the source than the
/// reader needs for the last line of that.
pub fn open_input<S: Source>(alloc: Global, due: Format, source: &mut S) -> Result<Opened, Fault>
    ensures opens { OpensInput due result (S.view source.old).left (S.view source.new).left }
    ensures counts { (o t : ℕ) → CountsOnce result (counts (S.view source.old).faults o t) (counts (S.view source.new).faults o t) }
{
    let mut lines = Lines::new(alloc, MAX_INPUT)?;
    match read_world(alloc, due, &mut lines, source)? {
        ReadWorld::World(read) => Ok(Opened::World(OpenedWorld { read, lines })),
        ReadWorld::Ended(ending) => Ok(Opened::Ended(ending)),
    }
}
