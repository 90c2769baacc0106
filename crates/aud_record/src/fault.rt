// Why a line is no record.
ghost use Rattle.std.specs.Prelude.{◌≡◌};

use crate::NoMemory;

/// Why a line is no record. A fault has the number of bytes of the line from its place on.
#[derive(Clone, Copy, Debug, PartialEq, Eq)]
pub enum Fault {
    /// What stands there is not what is due.
    Syntax(usize),
    /// The word that stands there is not in the list of words that is due.
    UnknownWord(usize),
    /// Memory ran out.
    NoMemory(NoMemory),
}

impl From<NoMemory> for Fault {
    ghost use Rattle.aud_record.specs.declared.fault.Fault.TheVariants as fault;

    ghost from_gives = { λ e f. f ≡ fault.NoMemory e };

    fn from(e: NoMemory) -> Fault {
        Fault::NoMemory(e)
    }
}
