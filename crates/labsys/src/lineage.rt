// A trail whose records may follow one another or not.
ghost use Rattle.std.specs.Prelude.{◌≡◌, ℕ, ◌+◌, ◌<◌, ◌≤◌, ◌^◌, IfOk, length};
ghost use Rattle.io_ends.specs.Ends.{SinkView};
ghost use Rattle.aud_red.specs.declared.lineage.Lineage.TheVariants.{No};
ghost use Rattle.aud_red.specs.declared.lineage.Why.{Why as Reason};
ghost use Rattle.lab_engine.specs.Playing.{WritesOut, ends};
ghost use Rattle.labsys.specs.LineageText.{lineage_line, lineage_text};
ghost use Rattle.labsys.specs.Playing.{CommandDid};

use crate::Command;
use crate::playing::end_without_world;
use crate::trails::{ReadTrail, read_trail};
use aud_red::{Lineage, NoMemory, Trail, check_lineage, header_lines};
use io_ends::{Sink, Source};
use lab_engine::{Fault, InputEnd, answer};
use line_text::LineWriter;
use std::alloc::Global;

// The line of an answer, for a trail with so many lines before its records and so many records.
#[tactic(auto, unfolding(crate::specs::LineageText::lineage_line))]
fn lineage_line(alloc: Global, head: u64, count: u64, lineage: Lineage) -> Result<Vec<u8>, NoMemory>
    requires small { (at : ℕ) (why : Reason) → lineage ≡ No at why → head + at + 1 < 2 ^ 64 }
    ensures { IfOk result (λ text. text.items ≡ lineage_line head count lineage) }
{
    let mut line = LineWriter::new(alloc)?;
    match lineage {
        Lineage::Yes => {
            line.bytes(b"yes ")?;
            line.digits(count)?;
        }
        Lineage::No { at, why } => {
            line.bytes(b"no ")?;
            line.digits(head + at + 1)?;
            line.word(why.word())?;
        }
    }
    line.line_feed()?;
    Ok(line.into_text())
}

// Writes whether the records of a trail may follow one another.
fn write_lineage<K: Sink>(alloc: Global, trail: &Trail, out: &mut K) -> Result<(), Fault>
    requires few { length trail.now.recs ≤ 2 ^ 24 }
    ensures { WritesOut result (lineage_text trail.now) (K.view out.old) (K.view out.new) }
{
    let lineage = check_lineage(alloc, trail)?;
    let count = trail.recs.items().len() as u64;
    let head = header_lines(&trail.policy) as u64;
    let text = lineage_line(alloc, head, count, lineage)?;
    answer(out, &text)
}

/// Reads the trail that a source holds, and writes whether each of its records may follow those before it: `yes` and
/// how many they are, or `no` with the line of the first that may not, and why.
pub fn lineage<S: Source, K: Sink>(
    alloc: Global,
    source: &mut S,
    out: &mut K,
) -> Result<InputEnd, Fault>
    ensures { (trail : SinkView) → CommandDid Command.Lineage result (S.view source.old).left (S.view source.new).left
        (ends (S.view source.old).faults (K.view out.old) trail)
        (ends (S.view source.new).faults (K.view out.new) trail) }
{
    match read_trail(alloc, source)? {
        ReadTrail::Trail(trail) => {
            write_lineage(alloc, &trail, out)?;
            Ok(InputEnd::Whole)
        }
        ReadTrail::Ended(ending) => end_without_world(alloc, ending, out),
    }
}
