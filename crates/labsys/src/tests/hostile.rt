// Broken inputs. What a run of each writes last is compared with what its lines give, read one by one.
use super::{DAY, Fails, Left, first_lines, played};
use crate::Status;
use fs_path::next_line;
use io_ends::MemSink;
use kern_model::NoMemory;
use lab_engine::{InputEnd, Part, report_last};
use lab_text::Policy;
use line_text::LineFault;
use script_text::{Line, LineError, read_line};
use std::alloc::Global;
use std::test::Fail;
use world_text::{WorldError, WorldText};

// The seeds of the broken inputs are the numbers from 1 to this one.
const SEEDS: u64 = 1_000;

// The most bytes of a piece that is removed or doubled.
const PIECE: usize = 40;

// The room of a last line.
const LAST_LINE: usize = 80;

// Numbers of a linear congruential generator, with the constants of MMIX.
#[derive(Drop)]
struct Numbers {
    state: u64,
}

impl Numbers {
    // The next number, reduced to one below the limit.
    fn below(&mut self, limit: usize) -> usize {
        self.state = self
            .state
            .wrapping_mul(6_364_136_223_846_793_005)
            .wrapping_add(1_442_695_040_888_963_407);
        (self.state >> 33) as usize % limit.max(1)
    }
}

// A text before a piece that is drawn, the piece, and the text after it.
fn parts<'a>(text: &'a [u8], numbers: &mut Numbers) -> (&'a [u8], &'a [u8], &'a [u8]) {
    let start = numbers.below(text.len()).min(text.len());
    let (before, rest) = text.split_at(start);
    let length = numbers.below(PIECE).min(rest.len());
    let (piece, after) = rest.split_at(length);
    (before, piece, after)
}

// The text with two neighbouring lines swapped, where it has them from the line on that is drawn.
fn swapped(alloc: Global, text: &[u8], numbers: &mut Numbers) -> Result<Vec<u8>, NoMemory> {
    let (before, rest) = first_lines(text, numbers.below(48));
    let Some((first, rest)) = next_line(rest) else {
        return text.to_vec(alloc);
    };
    let Some((second, after)) = next_line(rest) else {
        return text.to_vec(alloc);
    };
    [before, second, b"\n", first, b"\n", after].concat(alloc)
}

// The text, broken in one way: a byte changed, the text cut short, a piece removed or doubled, or two lines swapped.
fn broken(alloc: Global, text: &[u8], numbers: &mut Numbers) -> Result<Vec<u8>, NoMemory> {
    let (before, piece, after) = parts(text, numbers);
    match numbers.below(6) {
        0 => [before, piece].concat(alloc),
        1 => [before, after].concat(alloc),
        2 => [before, piece, piece, after].concat(alloc),
        3 => swapped(alloc, text, numbers),
        _ => {
            let byte = [u8::try_from(numbers.below(256)).unwrap_or_default()];
            let after = after.split_first().map_or(after, |(_, rest)| rest);
            [before, piece, byte.as_slice(), after].concat(alloc)
        }
    }
}

// The day, broken in one to three ways.
fn broken_day(alloc: Global, seed: u64) -> Result<Vec<u8>, NoMemory> {
    let mut numbers = Numbers { state: seed };
    let mut text = DAY.to_vec(alloc)?;
    for _ in 0..numbers.below(3).saturating_add(1) {
        text = broken(alloc, &text, &mut numbers)?;
    }
    Ok(text)
}

// How an input ends whose world is not accepted.
fn refused_world(error: WorldError) -> Result<InputEnd, NoMemory> {
    let (number, why) = match error {
        WorldError::Syntax(number) => (number, LineFault::Syntax),
        WorldError::UnknownName(number) => (number, LineFault::UnknownName),
        WorldError::Repeated(number) => (number, LineFault::Repeated),
        WorldError::NoParent(number) => (number, LineFault::NoParent),
        WorldError::LabelOrder(number) => (number, LineFault::LabelOrder),
        WorldError::RootLabel(number) => (number, LineFault::RootLabel),
        WorldError::TooMany(number) => (number, LineFault::TooMany),
        WorldError::Mixed(number) => (number, LineFault::MixedCaps),
        WorldError::OldFormat(number) => (number, LineFault::OldFormat),
        WorldError::NoMemory(e) => return Err(e),
    };
    Ok(InputEnd::Refused(number, Part::World, why))
}

// How a script ends at a line that is not accepted.
fn refused_line(number: u64, error: LineError) -> Result<InputEnd, NoMemory> {
    Ok(InputEnd::Refused(number, Part::Script, error.fault()?))
}

// How many calls a line makes.
fn calls_of(line: &Line) -> u64 {
    match line {
        Line::Blank => 0,
        Line::One { .. } => 1,
        Line::Tool(util) => util.paths.items().len() as u64,
    }
}

// How a script ends with these bytes after its last line feed.
fn end_at(number: u64, rest: &[u8]) -> InputEnd {
    if rest.is_empty() {
        InputEnd::Whole
    } else {
        InputEnd::Refused(number, Part::Script, LineFault::Syntax)
    }
}

// How many calls the lines after the line `script` make, and how they end.
fn script_end(alloc: Global, policy: &Policy, text: &[u8]) -> Result<(u64, InputEnd), NoMemory> {
    let mut calls: u64 = 0;
    let mut in_script = false;
    let pieces = text.split(|byte| *byte == b'\n').count();
    for (at, line) in text.split(|byte| *byte == b'\n').enumerate() {
        let number = at as u64 + 1;
        if number == pieces as u64 {
            return Ok((calls, end_at(number, line)));
        }
        if !in_script {
            in_script = line.trim_ascii() == b"script".as_slice();
            continue;
        }
        match read_line(alloc, policy, line) {
            Ok(line) => calls = calls.saturating_add(calls_of(&line)),
            Err(error) => return Ok((calls, refused_line(number, error)?)),
        }
    }
    Ok((calls, InputEnd::Whole))
}

// How many calls an input makes, and how it ends: by its world, and else by each line of its script.
fn input_end(alloc: Global, text: &[u8]) -> Result<(u64, InputEnd), NoMemory> {
    match WorldText::read(alloc, text) {
        Ok(read) => script_end(alloc, &read.policy, text),
        Err(error) => Ok((0, refused_world(error)?)),
    }
}

// Whether a run of an input ends as the input does: by its status, and by the last line of its output.
fn ends_alike(alloc: Global, text: &[u8], left: &Left) -> Result<bool, NoMemory> {
    let (calls, ending) = input_end(alloc, text)?;
    let status = match ending {
        InputEnd::Whole => Status::Done,
        InputEnd::Refused(..) | InputEnd::RefusedWord(..) => Status::Refused,
        InputEnd::TooMuch => Status::TooLong,
    };
    let mut last = MemSink::new(alloc, LAST_LINE, Vec::new(alloc))?;
    let written = report_last(alloc, calls, ending, &mut last).is_ok();
    let before = left.out.strip_suffix(last.bytes());
    Ok(
        written
            && left.status == status
            && before.is_some_and(|out| out.is_empty() || out.ends_with(b"\n")),
    )
}

#[test]
fn broken_inputs_end_at_their_first_fault(rt: HostRuntime) -> Result<(), Fail> {
    let alloc = rt.alloc();
    for seed in 1..=SEEDS {
        let text = broken_day(alloc, seed)?;
        let left = played(alloc, &[&text], Fails::Nothing)?;
        assert!(rt; ends_alike(alloc, &text, &left)?, "{seed}");
    }
    Ok(())
}
