// The trail that a source holds.
ghost use Rattle.std.specs.Prelude.{◌≡◌, ℕ, MatchResult, false, true};
ghost use Rattle.aud_red.specs.Trail.{is_no_memory};
ghost use Rattle.lab_engine.specs.Counts.{CountsOnce, counts};
ghost use Rattle.labsys.specs.Trails.{ReadsTrail, ending_of_error};

use aud_red::{Trail, TrailError};
use io_ends::{Source, read_whole};
use kern_model::NoMemory;
use kern_model::limits::MAX_INPUT;
use lab_engine::{Fault, InputEnd, Part};
use line_text::LineFault;
use std::alloc::Global;

// How an input ends that is no trail.
fn ending_of_error(error: TrailError) -> Result<InputEnd, NoMemory>
    ensures { MatchResult result (λ ending. (is_no_memory error ≡ false) × (ending ≡ ending_of_error error))
        (λ _. is_no_memory error ≡ true) }
{
    match error {
        TrailError::Header(line) => Ok(refused_line(line, LineFault::Header)),
        TrailError::Record(line) => Ok(refused_line(line, LineFault::Record)),
        TrailError::Unended(line) => Ok(refused_line(line, LineFault::Unended)),
        TrailError::NoMemory(e) => Err(e),
    }
}

// The end of a trail at a line that is refused.
fn refused_line(line: usize, why: LineFault) -> InputEnd
    ensures { result ≡ InputEnd.Refused line Part.Trail why }
{
    InputEnd::Refused(line as u64, Part::Trail, why)
}

/// What reading a trail leads to.
#[derive(Drop)]
pub enum ReadTrail {
    /// A trail, which goes on to the end of the input.
    Trail(Trail),
    /// The input ends without one.
    Ended(InputEnd),
}

/// Reads a source to its end, or to one byte past the limit, and returns the trail that it holds, or how it ends
/// without one.
pub fn read_trail<S: Source>(alloc: Global, source: &mut S) -> Result<ReadTrail, Fault>
    ensures reads { ReadsTrail result (S.view source.old).left (S.view source.new).left }
    ensures counts { (o t : ℕ)
        → CountsOnce result (counts (S.view source.old).faults o t) (counts (S.view source.new).faults o t) }
{
    let whole = read_whole(alloc, source, MAX_INPUT)?;
    if whole.more {
        return Ok(ReadTrail::Ended(InputEnd::TooMuch));
    }
    match Trail::read(alloc, whole.bytes.items()) {
        Ok(trail) => Ok(ReadTrail::Trail(trail)),
        Err(error) => Ok(ReadTrail::Ended(ending_of_error(error)?)),
    }
}
