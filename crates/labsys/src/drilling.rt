// The generated input, played and counted.
ghost use Rattle.std.specs.Prelude.{◌≡◌, ◌≤◌, ◌++◌, IfOk, OnOk};
ghost use Rattle.gen_world.specs.declared.generator.TheConstants.{MAX_LINES};
ghost use Rattle.lab_engine.specs.Playing.{WritesOut};
ghost use Rattle.labsys.specs.Drilling.{count_text, counts_text, drilled_text, tally_text};
ghost use Rattle.labsys.specs.Playing.{DrillsWorld, IsOpened};

use io_ends::{Sink, Source};
use kern_core::Kernel;
use kern_model::NoMemory;
use lab_engine::{
    Fault, Generated, Judge, LineRules, Opened, OpenedWorld, Report, Tally, Texts, answer,
    keep_script, open_input,
};
use line_text::LineWriter;
use std::alloc::Global;
use world_text::{Format, WorldText};

// Appends a number after its word.
fn put_count(line: &mut LineWriter, word: &[u8], count: u64) -> Result<(), NoMemory>
    ensures { OnOk result (line.new ≡ line.old ++ count_text word.now count) }
{
    line.word(word)?;
    line.bytes(b" ")?;
    line.digits(count)
}

// Appends what was counted of calls.
fn put_counts(line: &mut LineWriter, tally: &Tally) -> Result<(), NoMemory>
    ensures { OnOk result (line.new ≡ line.old ++ counts_text tally.now) }
{
    put_count(line, b"ok", tally.ok)?;
    put_count(line, b"denied", tally.denied)?;
    put_count(line, b"refused", tally.refused)?;
    put_count(line, b"exercised", tally.exercised)
}

// The line of a generated input of so many lines.
#[tactic(auto, unfolding(crate::specs::Drilling::tally_text))]
fn tally_line(alloc: Global, lines: u32, tally: &Tally, living: u64) -> Result<Vec<u8>, NoMemory>
    ensures { IfOk result (λ text. text.items ≡ tally_text lines tally.now living) }
{
    let mut line = LineWriter::new(alloc)?;
    line.bytes(b"drill")?;
    line.number(lines)?;
    put_counts(&mut line, tally)?;
    put_count(&mut line, b"live", living)?;
    line.line_feed()?;
    Ok(line.into_text())
}

// Plays the script of an accepted world, and returns the line of what was counted.
fn drill_world<S: Source>(
    alloc: Global,
    number: u32,
    opened: OpenedWorld,
    source: &mut S,
) -> Result<Vec<u8>, Fault>
    requires { IsOpened opened }
    ensures { IfOk result (λ text. DrillsWorld text.items number opened.read opened.lines (S.view source.old).left
        (S.view source.new).left) }
{
    let OpenedWorld { read, mut lines } = opened;
    let WorldText { policy, world } = read;
    let texts = Texts {
        alloc,
        policy: &policy,
    };
    let (mut kernel, _) = Kernel::boot_from(alloc, world)?;
    let rules = LineRules {
        texts,
        judge: Judge::TakesAll,
    };
    let counted = Report::Counted(Tally::new());
    let kept = keep_script(rules, counted, &mut kernel, &mut lines, source)?;
    let living = kernel.live()?;
    let tally = kept.report.tally();
    let text = tally_line(alloc, number, &tally, living.items().len() as u64)?;
    Ok(text)
}

// Plays the generated input, and returns the line of what was counted.
fn drill_generated(alloc: Global, number: u32) -> Result<Vec<u8>, Fault>
    requires { (1 ≤ number) × (number ≤ MAX_LINES) }
    ensures { IfOk result (λ text. text.items ≡ drilled_text number) }
{
    let mut source = Generated::new(alloc, number);
    match open_input(alloc, Format::Two, &mut source)? {
        Opened::World(opened) => drill_world(alloc, number, opened, &mut source),
        Opened::Ended(_) => unreachable!(),
    }
}

/// Plays the generated input of so many lines, and then writes one line: how its calls were answered, how many
/// exercises of capabilities were recorded, and how many processes live at its end.
pub fn drill<K: Sink>(alloc: Global, lines: u32, out: &mut K) -> Result<(), Fault>
    requires { (1 ≤ lines) × (lines ≤ MAX_LINES) }
    ensures { WritesOut result (drilled_text lines) (K.view out.old) (K.view out.new) }
{
    match drill_generated(alloc, lines) {
        Ok(text) => answer(out, &text),
        Err(_) => Err(Fault::NoMemory),
    }
}
