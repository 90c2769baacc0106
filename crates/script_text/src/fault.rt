// Why a line is refused, and which of two faults counts.
ghost use Rattle.std.specs.Prelude.{◌≡◌, IfOk, IfErr};
ghost use Rattle.script_text.specs.Reading.{IsFaultOf, rank, first_of, both};

use crate::NoMemory;
use line_text::LineFault;
use thiserror::Error;

/// Why a line is refused. Of several faults the first that is listed here counts, whichever word has it.
#[derive(Clone, Copy, Debug, PartialEq, Eq, Error)]
pub enum LineError {
    /// It has more than 2,048 bytes.
    #[error("the line has more than 2,048 bytes")]
    TooLong,
    /// It cannot be cut into words, its call is unknown, or its arguments are too few, too many or of another form.
    #[error("the line has not the form of a call")]
    Syntax,
    /// Its tag is not the number of a process.
    #[error("the tag is not the number of a process")]
    BadTag,
    /// A path is refused.
    #[error("a path is refused")]
    BadPath,
    /// A label is refused, or a number of a process.
    #[error("a label or the number of a process is refused")]
    BadLabel,
    /// A capability text is refused.
    #[error("a capability text is refused")]
    BadCaps,
    /// Memory ran out.
    #[error("memory ran out")]
    NoMemory(NoMemory),
}

impl From<NoMemory> for LineError {
    ghost use Rattle.std.specs.Prelude.{◌≡◌};
    ghost use Rattle.script_text.specs.declared.fault.LineError.TheVariants as error;

    ghost from_gives = { λ m e. e ≡ error.NoMemory m };

    fn from(value: NoMemory) -> Self {
        LineError::NoMemory(value)
    }
}

impl LineError {
    /// What is wrong with the line. Out of memory is no fault of a line.
    pub fn fault(self) -> Result<LineFault, NoMemory>
        ensures fault { IfOk result (IsFaultOf self) }
        ensures memory { IfErr result (λ m. self ≡ LineError.NoMemory m) }
    {
        match self {
            LineError::TooLong => Ok(LineFault::TooLong),
            LineError::Syntax => Ok(LineFault::Syntax),
            LineError::BadTag => Ok(LineFault::BadTag),
            LineError::BadPath => Ok(LineFault::BadPath),
            LineError::BadLabel => Ok(LineFault::BadLabel),
            LineError::BadCaps => Ok(LineFault::BadCaps),
            LineError::NoMemory(e) => Err(e),
        }
    }
}

// The place of a fault in the order in which faults are judged.
fn rank(fault: LineError) -> u8
    ensures { result ≡ rank fault }
{
    match fault {
        LineError::NoMemory(_) => 0,
        LineError::TooLong => 1,
        LineError::Syntax => 2,
        LineError::BadTag => 3,
        LineError::BadPath => 4,
        LineError::BadLabel => 5,
        LineError::BadCaps => 6,
    }
}

/// The first of two faults.
pub fn first_of(a: LineError, b: LineError) -> LineError
    ensures { result ≡ first_of a b }
{
    if rank(a) <= rank(b) { a } else { b }
}

/// Two values, or the first fault of both.
#[tactic(auto, unfolding(crate::specs::Reading::both))]
pub fn both<A: Drop, B: Drop>(
    a: Result<A, LineError>,
    b: Result<B, LineError>,
) -> Result<(A, B), LineError>
    ensures { result ≡ both a b }
{
    match (a, b) {
        (Ok(a), Ok(b)) => Ok((a, b)),
        (Ok(_), Err(e)) | (Err(e), Ok(_)) => Err(e),
        (Err(a), Err(b)) => Err(first_of(a, b)),
    }
}
