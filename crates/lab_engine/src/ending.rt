// How inputs end, and why a run ends before its input does.

use io_ends::ReadError;
use kern_model::NoMemory;
use line_text::LineFault;

/// A part of an input, which has lines.
#[derive(Clone, Copy, Debug, PartialEq, Eq)]
pub enum Part {
    World,
    Script,
    /// A trail, which is the input of `select` and of `lineage`.
    Trail,
}

/// A word of the command line that is judged by the input.
#[derive(Clone, Copy, Debug, PartialEq, Eq)]
pub enum CommandWord {
    /// The label of `view`.
    View,
    /// The word of `select` that says which records are picked.
    Select,
}

/// How an input ends.
#[derive(Clone, Copy, Debug, PartialEq, Eq)]
pub enum InputEnd {
    /// All of its lines were accepted.
    Whole,
    /// This line was refused. Lines are numbered from 1.
    Refused(u64, Part, LineFault),
    /// This word was refused, which stands on no line of the input.
    RefusedWord(CommandWord, LineFault),
    /// It goes on past the limit, and no line before that was refused.
    TooMuch,
}

/// Why a run ended before its input did.
#[derive(Clone, Copy, Debug, PartialEq, Eq)]
pub enum Fault {
    /// A read failed.
    Read,
    /// A write to the output failed.
    Write,
    /// A write to the trail failed.
    Trail,
    /// Memory ran out.
    NoMemory,
}

impl From<NoMemory> for Fault {
    ghost use Rattle.std.specs.Prelude.{◌≡◌};
    ghost use Rattle.lab_engine.specs.declared.ending.Fault.TheVariants as fault;

    ghost from_gives = { λ _ e. e ≡ fault.NoMemory };

    fn from(_: NoMemory) -> Self {
        Fault::NoMemory
    }
}

impl From<ReadError> for Fault {
    ghost use Rattle.std.specs.Prelude.{◌≡◌};
    ghost use Rattle.lab_engine.specs.Counts.{fault_of_read};

    ghost from_gives = { λ error fault. fault ≡ fault_of_read error };

    fn from(error: ReadError) -> Self {
        match error {
            ReadError::Failed => Fault::Read,
            ReadError::NoMemory => Fault::NoMemory,
        }
    }
}
