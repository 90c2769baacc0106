// Calls by their words and arguments.
ghost use Rattle.std.specs.Prelude.{◌≡◌, IsOkAnd, MatchResult};
ghost use Rattle.script_text.specs.Reading.{Answers, both};
ghost use Rattle.script_text.specs.Calls.{parse_call, none_parsed, one_parsed, two_parsed, three_parsed};
ghost use Rattle.script_text.specs.Line.{bytes_in};

use crate::LineError;
use crate::argument::{
    bytes, caps, flags, label, mode, number, offset, path, permissions, pid, signal, status,
    switch, up_to, whence,
};
use crate::fault::both;
use fs_path::LineWord;
use kern_model::limits::MAX_FILE_BYTES;
use kern_model::{Call, CallName};
use lab_text::Policy;
use std::alloc::Global;

// The calls without arguments.
#[tactic(auto, unfolding(crate::specs::Calls::none_parsed))]
fn call_of_none(name: CallName) -> Result<Call, LineError>
    ensures { result ≡ none_parsed name }
{
    match name {
        CallName::Pipe => Ok(Call::Pipe),
        CallName::Fork => Ok(Call::Fork),
        CallName::Wait => Ok(Call::Wait),
        CallName::Getpid => Ok(Call::Getpid),
        CallName::Getppid => Ok(Call::Getppid),
        CallName::Getids => Ok(Call::Getids),
        CallName::CapGetProc => Ok(Call::CapGetProc),
        CallName::MacGetProc => Ok(Call::MacGetProc),
        _ => Err(LineError::Syntax),
    }
}

// The calls with one argument.
#[tactic(auto, unfolding(crate::specs::Calls::one_parsed, crate::specs::Reading::map_reading))]
fn call_of_one(
    alloc: Global,
    policy: &Policy,
    name: CallName,
    word: &LineWord<'_>,
) -> Result<Call, LineError>
    ensures { Answers (one_parsed policy.now name word.now.bytes) result }
{
    match name {
        CallName::Close => number(word).map(Call::Close),
        CallName::Dup => number(word).map(Call::Dup),
        CallName::Fstat => number(word).map(Call::Fstat),
        CallName::Rmdir => path(alloc, word).map(Call::Rmdir),
        CallName::Unlink => path(alloc, word).map(Call::Unlink),
        CallName::Readdir => path(alloc, word).map(Call::Readdir),
        CallName::Stat => path(alloc, word).map(Call::Stat),
        CallName::Chdir => path(alloc, word).map(Call::Chdir),
        CallName::Umask => permissions(word).map(Call::Umask),
        CallName::CapGetFile => path(alloc, word).map(Call::CapGetFile),
        CallName::CapGetFd => number(word).map(Call::CapGetFd),
        CallName::MacGetFile => path(alloc, word).map(Call::MacGetFile),
        CallName::MacGetFd => number(word).map(Call::MacGetFd),
        CallName::Exec => path(alloc, word).map(Call::Exec),
        CallName::Exit => status(word).map(Call::Exit),
        CallName::Setuid => number(word).map(Call::Setuid),
        CallName::Setgid => number(word).map(Call::Setgid),
        CallName::CapSetProc => caps(word).map(Call::CapSetProc),
        CallName::MacSetProc => label(policy, word).map(Call::MacSetProc),
        CallName::AudWrite => bytes(word).map(Call::AudWrite),
        CallName::AudSwitch => switch(word).map(Call::AudSwitch),
        _ => Err(LineError::Syntax),
    }
}

// A call of two values, or the first fault of both.
fn two<A: Drop, B: Drop, F: FnOnce(A, B) -> Call>(
    first: Result<A, LineError>,
    second: Result<B, LineError>,
    make: F,
) -> Result<Call, LineError>
    requires { F.IsAlwaysCallable make }
    ensures { MatchResult (both first second) (λ both. IsOkAnd result (F.post make both.0 both.1)) (λ e. result ≡ Err e) }
{
    both(first, second).map(|(first, second)| make(first, second))
}

// The calls with two arguments.
#[tactic(auto, unfolding(crate::specs::Calls::two_parsed, crate::specs::Reading::map_reading, crate::specs::Reading::both))]
fn call_of_two(
    alloc: Global,
    policy: &Policy,
    name: CallName,
    first: &LineWord<'_>,
    second: &LineWord<'_>,
) -> Result<Call, LineError>
    ensures { Answers (two_parsed policy.now name first.now.bytes second.now.bytes) result }
{
    match name {
        CallName::OpenPath => two(
            path(alloc, first),
            flags(false, second),
            |path, flags| Call::OpenPath(path, flags, None),
        ),
        CallName::Read => two(
            number(first),
            up_to(MAX_FILE_BYTES as u32, second),
            Call::Read,
        ),
        CallName::Write => two(number(first), bytes(second), Call::Write),
        CallName::Mkfifo => two(path(alloc, first), mode(second), Call::Mkfifo),
        CallName::Mkdir => two(path(alloc, first), mode(second), Call::Mkdir),
        CallName::Link => two(path(alloc, first), path(alloc, second), Call::Link),
        CallName::Rename => two(path(alloc, first), path(alloc, second), Call::Rename),
        CallName::Chmod => two(path(alloc, first), mode(second), Call::Chmod),
        CallName::CapSetFile => two(path(alloc, first), caps(second), Call::CapSetFile),
        CallName::CapSetFd => two(number(first), caps(second), Call::CapSetFd),
        CallName::MacSetFile => two(path(alloc, first), label(policy, second), Call::MacSetFile),
        CallName::MacSetFd => two(number(first), label(policy, second), Call::MacSetFd),
        CallName::Kill => two(pid(policy, first), signal(second), Call::Kill),
        _ => Err(LineError::Syntax),
    }
}

// The calls with three arguments.
#[tactic(auto, unfolding(crate::specs::Calls::three_parsed, crate::specs::Reading::map_reading, crate::specs::Reading::both))]
fn call_of_three(
    alloc: Global,
    name: CallName,
    first: &LineWord<'_>,
    second: &LineWord<'_>,
    third: &LineWord<'_>,
) -> Result<Call, LineError>
    ensures { Answers (three_parsed name first.now.bytes second.now.bytes third.now.bytes) result }
{
    match name {
        CallName::OpenPath => {
            let creation = both(flags(true, second), mode(third));
            two(
                path(alloc, first),
                creation,
                |path, (flags, mode)| Call::OpenPath(path, flags, Some(mode)),
            )
        }
        CallName::Lseek => {
            let target = both(whence(second), offset(third));
            two(
                number(first),
                target,
                |fd, (whence, offset)| Call::Lseek(fd, whence, offset),
            )
        }
        CallName::Chown => {
            let ids = both(number(second), number(third));
            two(
                path(alloc, first),
                ids,
                |path, (user, group)| Call::Chown(path, user, group),
            )
        }
        _ => Err(LineError::Syntax),
    }
}

/// The call of a name and its arguments.
pub fn call_of(
    alloc: Global,
    policy: &Policy,
    name: CallName,
    words: &[LineWord<'_>],
) -> Result<Call, LineError>
    ensures { Answers (parse_call policy.now name (bytes_in words.now)) result }
{
    match words {
        [] => call_of_none(name),
        [word] => call_of_one(alloc, policy, name, word),
        [first, second] => call_of_two(alloc, policy, name, first, second),
        [first, second, third] => call_of_three(alloc, name, first, second, third),
        _ => Err(LineError::Syntax),
    }
}
