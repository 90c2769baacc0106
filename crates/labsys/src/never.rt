// What no script can do in a world.
ghost use Rattle.std.specs.Prelude.{◌≡◌, ◌++◌, [], true, false, cond, IfOk};
ghost use Rattle.std.specs.FinMap as map;
ghost use Rattle.io_ends.specs.Ends.{SinkView};
ghost use Rattle.kern_core.specs.Kernel.{state_of};
ghost use Rattle.kern_model.specs.Boot.{boot};
ghost use Rattle.kern_model.specs.World.{IsWorld};
ghost use Rattle.ever_caps.specs.Crossing.{is_left_by};
ghost use Rattle.ever_caps.specs.Uncrossed.{is_uncrossed};
ghost use Rattle.lab_lattice.specs.Label.{Label};
ghost use Rattle.lab_engine.specs.Playing.{WritesOut, ends};
ghost use Rattle.lab_engine.specs.Texts.{caps_in, last_text};
ghost use Rattle.labsys.specs.Never.{
  count_labels,
  giver_line,
  giver_text,
  givers_text,
  holder_line,
  holder_text,
  holders_text,
  is_answered,
  label_line,
  label_word,
  labels_text,
  lines_by,
  never_text,
  said_text,
  unexercised,
  unexercised_text,
};
ghost use Rattle.labsys.specs.Playing.{DoesWorld, IsOpened};

use crate::InputCommand;
use cap_bits::{CapSet, CapState};
use cap_clause::set_to_text;
use ever_caps::{Crossers, all_processes, ever, mac_given_to, mac_in};
use io_ends::{Sink, Source};
use kern_core::Kernel;
use kern_model::{NoMemory, Pid, PidList, World, WorldObject};
use lab_engine::{Fault, InputEnd, OpenedWorld, Texts, answer, check_script, report_last};
use lab_lattice::Label;
use line_text::LineWriter;
use std::alloc::Global;
use world_text::{WorldText, path_text};

// ---- capabilities

// The line of the capabilities that no script exercises.
#[tactic(auto, unfolding(crate::specs::Never::unexercised_text))]
fn unexercised_line(alloc: Global, world: &World) -> Result<Vec<u8>, NoMemory>
    ensures { IfOk result (λ text. text.items ≡ unexercised_text (unexercised world.now)) }
{
    let mut line = LineWriter::new(alloc)?;
    line.bytes(b"never")?;
    line.word(&set_to_text(alloc, &CapSet::all().minus(ever(world)))?)?;
    line.line_feed()?;
    Ok(line.into_text())
}

// The line of a process that has some of the five capabilities over labels.
#[tactic(auto, unfolding(crate::specs::Never::holder_text))]
fn holder_text(texts: Texts<'_>, who: &Pid, caps: &CapSet) -> Result<Vec<u8>, NoMemory>
    ensures { IfOk result (λ text. text.items ≡ holder_text texts.entry.policy.now who.now caps.now) }
{
    let mut line = LineWriter::new(texts.alloc)?;
    line.bytes(b"holds")?;
    line.pid(texts.policy, who)?;
    line.word(&set_to_text(texts.alloc, caps)?)?;
    line.line_feed()?;
    Ok(line.into_text())
}

// The line of a process, or no byte where it has none of them or does not live.
fn holder_line(texts: Texts<'_>, kernel: &Kernel, who: &Pid) -> Result<Vec<u8>, NoMemory>
    ensures { IfOk result (λ text. text.items
        ≡ holder_line texts.entry.policy.now who.now (caps_in (state_of kernel.now) who.now)) }
{
    match kernel.caps_of(who) {
        Some(caps) => {
            let held = mac_in(&caps);
            if held.within(&CapSet::none()) {
                return Ok(Vec::new(texts.alloc));
            }
            holder_text(texts, who, &held)
        }
        None => Ok(Vec::new(texts.alloc)),
    }
}

// Writes the lines of the processes that have some.
fn report_holders<K: Sink>(
    texts: Texts<'_>,
    kernel: &Kernel,
    numbers: &PidList,
    out: &mut K,
) -> Result<(), Fault>
    ensures { WritesOut result (holders_text texts.entry.policy.now (state_of kernel.now) numbers.now)
        (K.view out.old) (K.view out.new) }
{
    for who in numbers.items() {
        let text = holder_line(texts, kernel, who)?;
        answer(out, &text)?;
    }
    Ok(())
}

// The line of a file that may give some of them.
#[tactic(auto, unfolding(crate::specs::Never::giver_text))]
fn giver_text(alloc: Global, object: &WorldObject, caps: &CapSet) -> Result<Vec<u8>, NoMemory>
    ensures { IfOk result (λ text. text.items ≡ giver_text object.now caps.now) }
{
    let path = path_text(alloc, object.path.components())?;
    let mut line = LineWriter::new(alloc)?;
    line.bytes(b"gives")?;
    line.bare_or_quoted(&path)?;
    line.word(&set_to_text(alloc, caps)?)?;
    line.line_feed()?;
    Ok(line.into_text())
}

// The line of an object, or no byte where it gives none to a process with these sets.
fn giver_line(
    alloc: Global,
    process: &CapState,
    bound: CapSet,
    object: &WorldObject,
) -> Result<Vec<u8>, NoMemory>
    ensures { IfOk result (λ text. text.items ≡ giver_line process.now bound object.now) }
{
    let given = mac_given_to(process, bound, object);
    if given.within(&CapSet::none()) {
        return Ok(Vec::new(alloc));
    }
    giver_text(alloc, object, &given)
}

// Writes the lines of the files that may give some.
fn report_givers<K: Sink>(alloc: Global, world: &World, out: &mut K) -> Result<(), Fault>
    ensures { WritesOut result (givers_text world.now) (K.view out.old) (K.view out.new) }
{
    let process = all_processes(world);
    for object in world.objects.items() {
        let text = giver_line(alloc, &process, world.bound, object)?;
        answer(out, &text)?;
    }
    Ok(())
}

// Writes what concerns capabilities.
fn report_caps<K: Sink>(
    texts: Texts<'_>,
    world: &World,
    kernel: &Kernel,
    numbers: &PidList,
    out: &mut K,
) -> Result<(), Fault>
    ensures { WritesOut result (unexercised_text (unexercised world.now)
        ++ (holders_text texts.entry.policy.now (state_of kernel.now) numbers.now ++ givers_text world.now))
        (K.view out.old) (K.view out.new) }
{
    let line = unexercised_line(texts.alloc, world)?;
    answer(out, &line)?;
    report_holders(texts, kernel, numbers, out)?;
    report_givers(texts.alloc, world, out)
}

// ---- labels

// The word of a label that nothing ever crosses, or of one that a script may cross.
fn label_word(left: bool) -> &'static [u8]
    ensures { result.now ≡ label_word left }
{
    if left { b"uncrossed" } else { b"open" }
}

// The line of a label.
#[tactic(auto, unfolding(crate::specs::Never::label_line))]
fn label_line(texts: Texts<'_>, left: bool, label: &Label) -> Result<Vec<u8>, NoMemory>
    ensures { IfOk result (λ text. text.items ≡ label_line left texts.entry.policy.now label.now) }
{
    let mut line = LineWriter::new(texts.alloc)?;
    line.bytes(label_word(left))?;
    line.label(texts.policy, label)?;
    line.line_feed()?;
    Ok(line.into_text())
}

// Whether a process is the first that has its label, and nothing ever crosses the label, or else a script may.
fn is_answered(crossers: &Crossers, left: bool, who: &Pid) -> bool
    ensures { result ≡ is_answered (is_left_by crossers.now) left who.now }
{
    who.n == 1 && crossers.leave(&who.label) == left
}

// The line of the label of such a process, or no byte.
fn label_answered(
    texts: Texts<'_>,
    crossers: &Crossers,
    left: bool,
    who: &Pid,
) -> Result<Vec<u8>, NoMemory>
    ensures { IfOk result (λ text. text.items
        ≡ cond (is_answered (is_left_by crossers.now) left who.now)
        (label_line left texts.entry.policy.now who.now.label) []) }
{
    if is_answered(crossers, left, who) {
        label_line(texts, left, &who.label)
    } else {
        Ok(Vec::new(texts.alloc))
    }
}

// Writes the lines of the labels that nothing ever crosses, or of those that a script may cross.
fn report_labels<K: Sink>(
    texts: Texts<'_>,
    crossers: &Crossers,
    left: bool,
    numbers: &PidList,
    out: &mut K,
) -> Result<(), Fault>
    ensures { WritesOut result (labels_text (is_left_by crossers.now) texts.entry.policy.now left numbers.now)
        (K.view out.old) (K.view out.new) }
{
    for who in numbers.items() {
        let text = label_answered(texts, crossers, left, who)?;
        answer(out, &text)?;
    }
    Ok(())
}

// How many labels nothing ever crosses.
fn count_labels(crossers: &Crossers, numbers: &PidList) -> u64
    ensures { result ≡ count_labels (is_left_by crossers.now) true numbers.now }
{
    numbers
        .items()
        .iter()
        .filter(|who| is_answered(crossers, true, who))
        .count() as u64
}

// Writes what concerns labels, and the last line.
fn report_crossings<K: Sink>(
    texts: Texts<'_>,
    crossers: &Crossers,
    numbers: &PidList,
    out: &mut K,
) -> Result<(), Fault>
    ensures { WritesOut result (labels_text (is_left_by crossers.now) texts.entry.policy.now true numbers.now
        ++ (labels_text (is_left_by crossers.now) texts.entry.policy.now false numbers.now
        ++ last_text (count_labels (is_left_by crossers.now) true numbers.now) InputEnd.Whole))
        (K.view out.old) (K.view out.new) }
{
    report_labels(texts, crossers, true, numbers, out)?;
    report_labels(texts, crossers, false, numbers, out)?;
    report_last(
        texts.alloc,
        count_labels(crossers, numbers),
        InputEnd::Whole,
        out,
    )
}

// ---- a world

// Writes what no script can do in a world.
fn report_world<K: Sink>(texts: Texts<'_>, world: &World, out: &mut K) -> Result<(), Fault>
    requires { IsWorld world.now }
    ensures { WritesOut result (lines_by (λ (l : Label). is_uncrossed l world.now) texts.entry.policy.now world.now
        (map.keys (boot world.now).procs)) (K.view out.old) (K.view out.new) }
{
    let (kernel, _) = Kernel::boot(texts.alloc, world)?;
    let numbers = kernel.live()?;
    let crossers = Crossers::of(texts.alloc, world)?;
    report_caps(texts, world, &kernel, &numbers, out)?;
    report_crossings(texts, &crossers, &numbers, out)
}

// Writes what is due of a world by how the input ends.
fn report_never<K: Sink>(
    texts: Texts<'_>,
    read: &WorldText,
    ending: InputEnd,
    out: &mut K,
) -> Result<(), Fault>
    requires world { IsWorld read.now.world }
    requires policy { texts.policy.now ≡ read.now.policy }
    ensures { WritesOut result (said_text read.now ending) (K.view out.old) (K.view out.new) }
{
    match ending {
        InputEnd::Whole => report_world(texts, &read.world, out),
        InputEnd::Refused(..) | InputEnd::RefusedWord(..) | InputEnd::TooMuch => {
            report_last(texts.alloc, 0, ending, out)
        }
    }
}

/// Reads the script after a world that was accepted, plays nothing, and writes what no script can do in the world: which
/// capabilities none exercises, which processes have or files give one of the five over labels, and which labels
/// nothing ever crosses.
pub fn never<S: Source, K: Sink>(
    alloc: Global,
    opened: OpenedWorld,
    source: &mut S,
    out: &mut K,
) -> Result<InputEnd, Fault>
    requires { IsOpened opened }
    ensures { (trail : SinkView)
        → DoesWorld InputCommand.Never result opened.read opened.lines (S.view source.old).left (S.view source.new).left
        (ends (S.view source.old).faults (K.view out.old) trail)
        (ends (S.view source.new).faults (K.view out.new) trail) }
{
    let OpenedWorld { read, mut lines } = opened;
    let texts = Texts {
        alloc,
        policy: &read.policy,
    };
    let checked = check_script(texts, &mut lines, source)?;
    report_never(texts, &read, checked.ending, out)?;
    Ok(checked.ending)
}
