// A trail of which some records are written as lines of JSON.
ghost use Rattle.std.specs.Prelude.{◌≡◌, ◌++◌, IfOk};
ghost use Rattle.std.specs.List.{flat_map};
ghost use Rattle.io_ends.specs.Ends.{SinkView};
ghost use Rattle.aud_red.specs.Select.{parse_select};
ghost use Rattle.lab_engine.specs.Playing.{WritesOut, ends};
ghost use Rattle.labsys.specs.Playing.{CommandDid};
ghost use Rattle.labsys.specs.Selecting.{
  count_selected,
  ending_of_select,
  selected_line,
  selected_text,
  text_of_selection,
  ending_of_selection,
};

use crate::playing::end_without_world;
use crate::trails::{ReadTrail, read_trail};
use crate::{Argument, Command};
use aud_record::ReadRec;
use aud_red::{NoMemory, Select, SelectError, Trail, json_text};
use io_ends::{Sink, Source};
use lab_engine::{CommandWord, Fault, InputEnd, answer, report_last};
use lab_text::Policy;
use line_text::LineFault;
use std::alloc::Global;

// The line of a record, or no byte where it is not picked.
fn line_of(
    alloc: Global,
    policy: &Policy,
    select: &Select,
    rec: &ReadRec,
) -> Result<Vec<u8>, NoMemory>
    ensures { IfOk result (λ text. text.items ≡ selected_line policy.now select.now rec.now) }
{
    if !select.picks(&rec.rec) {
        return Ok(Vec::new(alloc));
    }
    let mut text = json_text(alloc, policy, rec)?;
    text.push(b'\n')?;
    Ok(text)
}

// Writes the lines of the records that are picked.
fn write_lines<K: Sink>(
    alloc: Global,
    select: &Select,
    trail: &Trail,
    out: &mut K,
) -> Result<(), Fault>
    ensures { WritesOut result (flat_map (selected_line trail.now.policy select.now) trail.now.recs) (K.view out.old)
        (K.view out.new) }
{
    for rec in trail.recs.items() {
        let text = line_of(alloc, &trail.policy, select, rec)?;
        answer(out, &text)?;
    }
    Ok(())
}

// How many records are picked.
fn count_selected(select: &Select, trail: &Trail) -> u64
    ensures { result ≡ count_selected select.now trail.now.recs }
{
    trail
        .recs
        .items()
        .iter()
        .filter(|rec| select.picks(&rec.rec))
        .count() as u64
}

// Writes the records that are picked, and their number.
fn write_selected<K: Sink>(
    alloc: Global,
    select: &Select,
    trail: &Trail,
    out: &mut K,
) -> Result<(), Fault>
    ensures { WritesOut result (selected_text select.now trail.now) (K.view out.old) (K.view out.new) }
{
    write_lines(alloc, select, trail, out)?;
    report_last(alloc, count_selected(select, trail), InputEnd::Whole, out)
}

// How a selection ends whose text denotes none.
fn ending_of_select(error: SelectError) -> InputEnd
    ensures { result ≡ ending_of_select error }
{
    let why = match error {
        SelectError::Syntax => LineFault::Syntax,
        SelectError::UnknownName => LineFault::UnknownName,
    };
    InputEnd::RefusedWord(CommandWord::Select, why)
}

// Writes what a word selects of a trail.
fn select_from<K: Sink>(
    alloc: Global,
    word: &Argument<'_>,
    trail: &Trail,
    out: &mut K,
) -> Result<InputEnd, Fault>
    ensures writes { WritesOut result (text_of_selection trail.now (parse_select trail.now.policy word.now))
        (K.view out.old) (K.view out.new) }
    ensures ending { IfOk result (λ e. e ≡ ending_of_selection (parse_select trail.now.policy word.now)) }
{
    match Select::read(&trail.policy, word.bytes()) {
        Ok(select) => {
            write_selected(alloc, &select, trail, out)?;
            Ok(InputEnd::Whole)
        }
        Err(error) => end_without_world(alloc, ending_of_select(error), out),
    }
}

/// Reads the trail that a source holds, and writes the records that a word picks as lines of JSON, and then their
/// number.
pub fn select<S: Source, K: Sink>(
    alloc: Global,
    word: Argument<'_>,
    source: &mut S,
    out: &mut K,
) -> Result<InputEnd, Fault>
    ensures { (trail : SinkView)
        → CommandDid (Command.Select word.entry) result (S.view source.old).left (S.view source.new).left
        (ends (S.view source.old).faults (K.view out.old) trail)
        (ends (S.view source.new).faults (K.view out.new) trail) }
{
    match read_trail(alloc, source)? {
        ReadTrail::Trail(trail) => select_from(alloc, &word, &trail, out),
        ReadTrail::Ended(ending) => end_without_world(alloc, ending, out),
    }
}
