// Why a world is refused.
ghost use Rattle.std.specs.Prelude.{◌≡◌};
ghost use Rattle.world_text.specs.Reading.{error_at};

use crate::NoMemory;
use line_text::LineFault;
use thiserror::Error;

/// Why no world was read: the fault of a line, and the number of that line, counted from 1. [`LineFault`] says which of
/// several faults counts.
#[derive(Clone, Copy, Debug, PartialEq, Eq, Error)]
pub enum WorldError {
    /// The line is longer than 2,048 bytes, has not the form of the line that is due, has capabilities effective in a
    /// process that are not permitted, or the text ends at it.
    #[error("line {0} is too long or not of the form that is due there")]
    Syntax(u64),
    /// A level, a category, a grade or a capability is unknown.
    #[error("line {0} names an unknown level, category, grade or capability")]
    UnknownName(u64),
    /// A level, a category or a grade is named twice, or the path was given before.
    #[error("line {0} names a level, a category or a grade twice, or gives a path again")]
    Repeated(u64),
    /// The path's directory was not given or is no directory, or the root was not given.
    #[error("line {0} stands in no directory that was given")]
    NoParent(u64),
    /// The label does not dominate that of the path's directory.
    #[error("line {0} has a label that does not dominate that of its directory")]
    LabelOrder(u64),
    /// The root is no directory, or its label is not the lowest.
    #[error("line {0} gives a root that is no directory of the lowest label")]
    RootLabel(u64),
    /// There are more than 16 levels, 64 categories, 16 grades, 65,535 objects of a label or 4,095 processes of a label.
    #[error("line {0} has or gives more than there may be")]
    TooMany(u64),
    /// A file has some capabilities effective, but not all that are permitted or inheritable.
    #[error("line {0} gives a file some capabilities effective and others not")]
    Mixed(u64),
    /// The line is that of the old format, `world 1`, where that of today is due.
    #[error("line {0} has the old format of worlds, which `upgrade` reads")]
    OldFormat(u64),
    /// Memory ran out.
    #[error("memory ran out")]
    NoMemory(NoMemory),
}

impl From<NoMemory> for WorldError {
    ghost use Rattle.std.specs.Prelude.{◌≡◌};
    ghost use Rattle.world_text.specs.declared.fault.WorldError.TheVariants as error;

    ghost from_gives = { λ m e. e ≡ error.NoMemory m };

    fn from(value: NoMemory) -> Self {
        WorldError::NoMemory(value)
    }
}

impl WorldError {
    /// The error of the line with this number. A fault that no line of a world has gives `Syntax`.
    pub fn at(number: u64, fault: LineFault) -> WorldError
        ensures { result ≡ error_at number fault }
    {
        match fault {
            LineFault::UnknownName => WorldError::UnknownName(number),
            LineFault::Repeated => WorldError::Repeated(number),
            LineFault::NoParent => WorldError::NoParent(number),
            LineFault::RootLabel => WorldError::RootLabel(number),
            LineFault::LabelOrder => WorldError::LabelOrder(number),
            LineFault::TooMany => WorldError::TooMany(number),
            LineFault::MixedCaps => WorldError::Mixed(number),
            LineFault::OldFormat => WorldError::OldFormat(number),
            _ => WorldError::Syntax(number),
        }
    }
}
