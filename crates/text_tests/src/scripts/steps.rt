// Lines of programs.
use super::small_policy;
use kern_model::Call;
use lab_text::{Policy, mac_from_text};
use script_text::LineError::*;
use script_text::{LineError, ProgStep, StepLine, When, read_step};
use std::alloc::Global;
use std::test::Fail;

const FAULTS: &[(&[u8], LineError)] = &[
    (b"slices", Syntax),
    (b"slices unc:", BadLabel),
    (b"slices unc top", BadLabel),
    (b"slices \"\"", BadLabel),
    (b"\"slices\" unc", Syntax),
    (b"Slices unc", Syntax),
    (b"rounds", Syntax),
    (b"rounds 1 1", Syntax),
    (b"rounds -1", Syntax),
    (b"rounds 4294967296", Syntax),
    (b"program", Syntax),
    (b"program 1@unc 2@unc", Syntax),
    (b"program zzz zzz", Syntax),
    (b"program 4096@unc", BadTag),
    (b"program 0@unc", BadTag),
    (b"program unc", BadTag),
    (b"program \"1@unc\"", Syntax),
    (b"program \"zzz\"", Syntax),
    (b"do", Syntax),
    (b"do getpit", Syntax),
    (b"do \"getpid\"", Syntax),
    (b"do 1@unc getpid", Syntax),
    (b"do getpid 1", Syntax),
    (b"do getfmac /", Syntax),
    (b"do getfmac /..", Syntax),
    (b"do stat /a/../b", BadPath),
    (b"do mac_set_file .. top", BadPath),
    (b"do mac_set_proc top", BadLabel),
    (b"do cap_set_proc +e", BadCaps),
    (b"do stat \"/a", Syntax),
    (b"jump", Syntax),
    (b"jump always", Syntax),
    (b"jump always 256", Syntax),
    (b"jump ever 0", Syntax),
    (b"jump Done 0", Syntax),
    (b"jump number 0", Syntax),
    (b"jump done 0 0", Syntax),
    (b"jump number 4294967296 0", Syntax),
    (b"jump number 1 256", Syntax),
    (b"jump number 1 0 0", Syntax),
    (b"stop 0", Syntax),
    (b"\"stop\"", Syntax),
    (b"1@unc getpid", Syntax),
    (b"getpid", Syntax),
];

// Why a line is refused, if it is.
fn fault_of(alloc: Global, policy: &Policy, line: &[u8]) -> Option<LineError> {
    read_step(alloc, policy, line).err()
}

// The first of the lines that comes out otherwise.
fn other(alloc: Global, policy: &Policy) -> Option<usize> {
    FAULTS.iter().position(|(line, fault)| fault_of(alloc, policy, line) != Some(*fault))
}

#[test]
fn step_faults(rt: HostRuntime) -> Result<(), Fail> {
    let policy = small_policy(rt.alloc())?;
    assert_eq!(rt; other(rt.alloc(), &policy), None);
    Ok(())
}

const JUMPS: &[(&[u8], When, u8)] = &[
    (b"jump always 0", When::Always, 0),
    (b" jump  fresh 255 ", When::Fresh, 255),
    (b"jump \"done\" \"3\"", When::Done, 3),
    (b"jump denied 007", When::Denied, 7),
    (b"jump refused 1", When::Refused, 1),
    (b"jump \"number\" \"1\" \"0\"", When::Number(1), 0),
    (b"jump number 4294967295 9", When::Number(4294967295), 9),
];

// The jump that a line is, if it is one.
fn jump_of(alloc: Global, policy: &Policy, line: &[u8]) -> Result<Option<(When, u8)>, LineError> {
    let line = read_step(alloc, policy, line)?;
    match &line {
        StepLine::One(ProgStep::Jump { when, to }) => Ok(Some((*when, *to))),
        _ => Ok(None),
    }
}

// The first of the jumps that comes out otherwise.
fn other_jump(alloc: Global, policy: &Policy) -> Option<usize> {
    JUMPS.iter().position(|(line, when, to)| jump_of(alloc, policy, line) != Ok(Some((*when, *to))))
}

#[test]
fn jumps(rt: HostRuntime) -> Result<(), Fail> {
    let policy = small_policy(rt.alloc())?;
    assert_eq!(rt; other_jump(rt.alloc(), &policy), None);
    Ok(())
}

#[test]
fn lines_before_steps(rt: HostRuntime) -> Result<(), Fail> {
    let policy = small_policy(rt.alloc())?;
    let conf = mac_from_text(&policy, b"conf")?;
    let slices = read_step(rt.alloc(), &policy, b" slices  \"unc\" conf unc")?;
    assert!(rt;
        matches!(&slices, StepLine::Slices(labels) if labels.items().len() == 3 && labels.items().get(1) == Some(&conf))
    );
    let rounds = read_step(rt.alloc(), &policy, b"rounds \"3\"")?;
    assert!(rt; matches!(&rounds, StepLine::Rounds(3)));
    let program = read_step(rt.alloc(), &policy, b"  program   7@conf ")?;
    assert!(rt; matches!(&program, StepLine::Program(who) if who.n == 7 && who.label == conf));
    Ok(())
}

#[test]
fn steps(rt: HostRuntime) -> Result<(), Fail> {
    let policy = small_policy(rt.alloc())?;
    let blank = read_step(rt.alloc(), &policy, b"  # p")?;
    assert!(rt; matches!(&blank, StepLine::Blank));
    let stop = read_step(rt.alloc(), &policy, b" stop ")?;
    assert!(rt; matches!(&stop, StepLine::One(ProgStep::Stop)));
    let call = read_step(rt.alloc(), &policy, b" do  mkdir \"/\\x61\" \"0755\" ")?;
    assert!(rt; matches!(&call, StepLine::One(ProgStep::Do(Call::Mkdir(_, 493)))));
    Ok(())
}
