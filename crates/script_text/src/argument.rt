// The words of a line of a script: its tag, and the arguments of its call.
ghost use Rattle.std.specs.Prelude.{◌≡◌, ◌==◌, [], ◌∷◌, cond, drop};
ghost use Rattle.std.specs.List.{starts_with};
ghost use Rattle.fs_path.specs.Options.{keep_if};
ghost use Rattle.kern_model.specs.Arguments.{are_flags};
ghost use Rattle.kern_model.specs.declared.limits.TheConstants.{MAX_STATUS};
ghost use Rattle.script_text.specs.Reading.{Answers};
ghost use Rattle.script_text.specs.Argument as argument;

use crate::LineError;
use cap_bits::CapState;
use cap_clause::cap_from_text;
use fs_path::{ByteList, LineWord, Path, mode_of, number_of, numeral, split_once};
use kern_model::limits::{MAX_PERMISSIONS, MAX_PROCS, MAX_STATUS};
use kern_model::{Mode, OpenFlags, Pid, Signal, Whence};
use lab_lattice::Label;
use lab_text::{Policy, mac_from_text};
use line_text::{choice, path_of};
use std::alloc::Global;

/// A path.
#[tactic(auto, unfolding(crate::specs::Argument::path))]
pub fn path(alloc: Global, word: &LineWord<'_>) -> Result<Path, LineError>
    ensures { Answers (argument.path word.now.bytes) result }
{
    path_of(alloc, word.bytes.items())?.ok_or(LineError::BadPath)
}

/// A label.
#[tactic(auto, unfolding(crate::specs::Argument::label))]
pub fn label(policy: &Policy, word: &LineWord<'_>) -> Result<Label, LineError>
    ensures { result ≡ argument.label policy.now word.now.bytes }
{
    mac_from_text(policy, word.bytes.items()).map_err(|_| LineError::BadLabel)
}

/// Capability sets.
#[tactic(auto, unfolding(crate::specs::Argument::caps))]
pub fn caps(word: &LineWord<'_>) -> Result<CapState, LineError>
    ensures { result ≡ argument.caps word.now.bytes }
{
    cap_from_text(word.bytes.items()).map_err(|_| LineError::BadCaps)
}

// The number of a process, from the texts before and after its `@`.
fn process(policy: &Policy, number: &[u8], label: &[u8]) -> Option<Pid>
    ensures { result ≡ argument.process policy.now (number.now, label.now) }
{
    let n = numeral(number, 10, 10, 1, MAX_PROCS as u64)?;
    let label = mac_from_text(policy, label).ok()?;
    Some(Pid { label, n: n as u16 })
}

/// The process of a tag, if it is one.
pub fn process_of_tag(policy: &Policy, word: &LineWord<'_>) -> Option<Pid>
    ensures { result ≡ argument.process_of_tag policy.now word.now.bytes }
{
    let (number, label) = split_once(word.bytes.items(), b'@')?;
    process(policy, number, label)
}

/// The tag of a line.
#[tactic(auto, unfolding(crate::specs::Argument::tag))]
pub fn tag(policy: &Policy, word: &LineWord<'_>) -> Result<Pid, LineError>
    ensures { result ≡ argument.tag policy.now word.now.bytes }
{
    process_of_tag(policy, word).ok_or(LineError::BadTag)
}

/// The number of a process.
#[tactic(auto, unfolding(crate::specs::Argument::pid))]
pub fn pid(policy: &Policy, word: &LineWord<'_>) -> Result<Pid, LineError>
    ensures { result ≡ argument.pid policy.now word.now.bytes }
{
    let (number, label) = split_once(word.bytes.items(), b'@').ok_or(LineError::Syntax)?;
    let _form = number_of(number).ok_or(LineError::Syntax)?;
    process(policy, number, label).ok_or(LineError::BadLabel)
}

/// A number.
#[tactic(auto, unfolding(crate::specs::Argument::number))]
pub fn number(word: &LineWord<'_>) -> Result<u32, LineError>
    ensures { result ≡ argument.number word.now.bytes }
{
    number_of(word.bytes.items()).ok_or(LineError::Syntax)
}

/// A number up to a limit.
#[tactic(auto, unfolding(crate::specs::Argument::up_to))]
pub fn up_to(high: u32, word: &LineWord<'_>) -> Result<u32, LineError>
    ensures { result ≡ argument.up_to high word.now.bytes }
{
    let n = numeral(word.bytes.items(), 10, 10, 0, u64::from(high)).ok_or(LineError::Syntax)?;
    Ok(n as u32)
}

/// An exit status.
#[tactic(auto, unfolding(crate::specs::Argument::up_to))]
pub fn status(word: &LineWord<'_>) -> Result<u8, LineError>
    ensures { result ≡ argument.up_to MAX_STATUS word.now.bytes }
{
    let n = numeral(word.bytes.items(), 10, 10, 0, u64::from(MAX_STATUS)).ok_or(LineError::Syntax)?;
    Ok(n as u8)
}

/// A mode.
#[tactic(auto, unfolding(crate::specs::Argument::mode))]
pub fn mode(word: &LineWord<'_>) -> Result<Mode, LineError>
    ensures { result ≡ argument.mode word.now.bytes }
{
    mode_of(word.bytes.items()).ok_or(LineError::Syntax)
}

/// A mode of permission bits alone.
#[tactic(auto, unfolding(crate::specs::Argument::permissions))]
pub fn permissions(word: &LineWord<'_>) -> Result<Mode, LineError>
    ensures { result ≡ argument.permissions word.now.bytes }
{
    let mode = numeral(word.bytes.items(), 8, 4, 0, u64::from(MAX_PERMISSIONS)).ok_or(
        LineError::Syntax,
    )?;
    Ok(mode as u16)
}

/// Bytes.
#[tactic(auto, unfolding(crate::specs::Argument::bytes))]
pub fn bytes(word: &LineWord<'_>) -> Result<ByteList, LineError>
    ensures { Answers (argument.bytes word.now.bytes) result }
{
    word.bytes.to_list().map_err(LineError::NoMemory)
}

fn signed_number(word: &[u8]) -> Option<i64>
    ensures { result ≡ argument.signed_number word.now }
{
    if word.starts_with(b"-") {
        let n = number_of(&word[1..])?;
        return Some(-i64::from(n));
    }
    number_of(word).map(i64::from)
}

/// An offset.
#[tactic(auto, unfolding(crate::specs::Argument::offset))]
pub fn offset(word: &LineWord<'_>) -> Result<i64, LineError>
    ensures { result ≡ argument.offset word.now.bytes }
{
    signed_number(word.bytes.items()).ok_or(LineError::Syntax)
}

/// From where an offset is counted.
#[tactic(auto, unfolding(crate::specs::Argument::whence))]
pub fn whence(word: &LineWord<'_>) -> Result<Whence, LineError>
    ensures { result ≡ argument.whence word.now.bytes }
{
    match word.bytes.items() {
        b"set" => Ok(Whence::Set),
        b"cur" => Ok(Whence::Cur),
        b"end" => Ok(Whence::End),
        _ => Err(LineError::Syntax),
    }
}

/// A signal.
#[tactic(auto, unfolding(crate::specs::Argument::signal))]
pub fn signal(word: &LineWord<'_>) -> Result<Signal, LineError>
    ensures { result ≡ argument.signal word.now.bytes }
{
    match word.bytes.items() {
        b"0" => Ok(Signal::Zero),
        b"TERM" => Ok(Signal::Term),
        b"KILL" => Ok(Signal::Kill),
        _ => Err(LineError::Syntax),
    }
}

/// `on` or `off`.
#[tactic(auto, unfolding(crate::specs::Argument::switch))]
pub fn switch(word: &LineWord<'_>) -> Result<bool, LineError>
    ensures { result ≡ argument.switch word.now.bytes }
{
    choice(b"on", b"off", word.bytes.items()).ok_or(LineError::Syntax)
}

// Whether a text begins with a letter, and the text without it.
fn strip(text: &[u8], letter: u8) -> (bool, &[u8])
    ensures begins { result.0 ≡ starts_with ◌==◌ text.now (letter ∷ []) }
    ensures rest { result.1.now ≡ drop (cond result.0 1 0) text.now }
{
    match text {
        [first, rest @ ..] if *first == letter => (true, rest),
        _ => (false, text),
    }
}

// The flags whose letters make a word, in their order and each at most once.
fn flags_of(word: &[u8]) -> Option<OpenFlags>
    ensures { result ≡ keep_if (argument.is_in_order word.now) (argument.flags_in word.now) }
{
    let (r, left) = strip(word, b'r');
    let (w, left) = strip(left, b'w');
    let (c, left) = strip(left, b'c');
    let (x, left) = strip(left, b'x');
    let (t, left) = strip(left, b't');
    let (a, left) = strip(left, b'a');
    left.is_empty().then_some(OpenFlags { r, w, c, x, t, a })
}

// Whether a call may have these flags together.
fn are_flags(flags: OpenFlags) -> bool
    ensures { result ≡ are_flags flags }
{
    let OpenFlags { r, w, c, x, t, a } = flags;
    (r || w) && (!x || c) && (!t || w) && (!a || w)
}

/// Flags that may stand together, with `c` exactly if `creates`.
#[tactic(auto, using(crate::proofs::ArgumentLemmas::flags_fitting))]
pub fn flags(creates: bool, word: &LineWord<'_>) -> Result<OpenFlags, LineError>
    ensures { result ≡ argument.flags creates word.now.bytes }
{
    let flags = flags_of(word.bytes.items()).ok_or(LineError::Syntax)?;
    if !are_flags(flags) || flags.c != creates {
        return Err(LineError::Syntax);
    }
    Ok(flags)
}
