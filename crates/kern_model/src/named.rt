// Calls, checks and error numbers by their words.
ghost use Rattle.std.specs.Prelude.{◌≡◌, ◌==◌, length};
ghost use Rattle.std.specs.Cmp.Lexicographic.{pointwise};
ghost use Rattle.kern_model.specs.Names.{word_of, check_word, errno_word};
ghost use Rattle.kern_model.specs.Named.{call_named, check_named, errno_named, find_named, IsFoundBy};

use crate::{CallName, CheckName, Errno};

// In the order of their words, so that those which begin alike stand together.
const CALLS: [CallName; 44] = [
    CallName::AudSwitch,
    CallName::AudWrite,
    CallName::CapGetFd,
    CallName::CapGetFile,
    CallName::CapGetProc,
    CallName::CapSetFd,
    CallName::CapSetFile,
    CallName::CapSetProc,
    CallName::Chdir,
    CallName::Chmod,
    CallName::Chown,
    CallName::Close,
    CallName::Dup,
    CallName::Exec,
    CallName::Exit,
    CallName::Fork,
    CallName::Fstat,
    CallName::Getids,
    CallName::Getpid,
    CallName::Getppid,
    CallName::Kill,
    CallName::Link,
    CallName::Lseek,
    CallName::MacGetFd,
    CallName::MacGetFile,
    CallName::MacGetProc,
    CallName::MacSetFd,
    CallName::MacSetFile,
    CallName::MacSetProc,
    CallName::Mkdir,
    CallName::Mkfifo,
    CallName::OpenPath,
    CallName::Pipe,
    CallName::Read,
    CallName::Readdir,
    CallName::Rename,
    CallName::Rmdir,
    CallName::Setgid,
    CallName::Setuid,
    CallName::Stat,
    CallName::Umask,
    CallName::Unlink,
    CallName::Wait,
    CallName::Write,
];

const CHECKS: [CheckName; 26] = [
    CheckName::MacRead,
    CheckName::MacWrite,
    CheckName::LabelOrder,
    CheckName::MacUpgrade,
    CheckName::MacDowngrade,
    CheckName::MacSubject,
    CheckName::DacRead,
    CheckName::DacSearch,
    CheckName::DacWrite,
    CheckName::DacExecute,
    CheckName::ExecKind,
    CheckName::Owner,
    CheckName::Chown,
    CheckName::Setfcap,
    CheckName::CapWithin,
    CheckName::CapGrow,
    CheckName::Setuid,
    CheckName::Setgid,
    CheckName::Kill,
    CheckName::LinkDir,
    CheckName::UnlinkDir,
    CheckName::AudWrite,
    CheckName::AudSwitch,
    CheckName::SetuidAll,
    CheckName::SetgidAll,
    CheckName::Fsetid,
];

const ERRNOS: [Errno; 20] = [
    Errno::EACCES,
    Errno::EAGAIN,
    Errno::EBADF,
    Errno::EBUSY,
    Errno::ECHILD,
    Errno::EEXIST,
    Errno::EFBIG,
    Errno::EINVAL,
    Errno::EISDIR,
    Errno::EMFILE,
    Errno::EMLINK,
    Errno::ENFILE,
    Errno::ENOENT,
    Errno::ENOSPC,
    Errno::ENOTDIR,
    Errno::ENOTEMPTY,
    Errno::EPERM,
    Errno::EPIPE,
    Errno::ESPIPE,
    Errno::ESRCH,
];

// The calls whose words begin as this one does, and all calls where none does.
#[tactic(auto, unfolding(crate::specs::Named::find_named))]
fn candidates(word: &[u8]) -> &'static [CallName]
    ensures { find_named word_of result.now word.now ≡ call_named word.now }
{
    match word {
        [b'a', ..] => &CALLS[..2],
        [b'c', ..] => &CALLS[2..12],
        [b'd', ..] => &CALLS[12..13],
        [b'e', ..] => &CALLS[13..15],
        [b'f', ..] => &CALLS[15..17],
        [b'g', ..] => &CALLS[17..20],
        [b'k', ..] => &CALLS[20..21],
        [b'l', ..] => &CALLS[21..23],
        [b'm', b'a', ..] => &CALLS[23..29],
        [b'm', b'k', ..] => &CALLS[29..31],
        [b'o', ..] => &CALLS[31..32],
        [b'p', ..] => &CALLS[32..33],
        [b'r', ..] => &CALLS[33..37],
        [b's', ..] => &CALLS[37..40],
        [b'u', ..] => &CALLS[40..42],
        [b'w', ..] => &CALLS[42..],
        _ => &CALLS,
    }
}

// Whether two words of one length are equal. This takes fewer steps than `==` of slices does.
fn have_same_bytes(word: &[u8], other: &[u8]) -> bool
    requires { length word.now ≡ length other.now }
    ensures { result ≡ pointwise ◌==◌ word.now other.now }
{
    let (mut left, mut right) = (word, other);
    while let ([first, more @ ..], [second, rest @ ..]) = (left, right) {
        if first != second {
            return false;
        }
        left = more;
        right = rest;
    }
    true
}

// Whether two words are equal. Those of one length often differ in their last bytes, so these are compared first.
fn are_equal(word: &[u8], other: &[u8]) -> bool
    ensures { result ≡ pointwise ◌==◌ word.now other.now }
{
    word.len() == other.len() && word.last() == other.last() && have_same_bytes(word, other)
}

// The first of some calls with a word.
#[tactic(auto, unfolding(crate::specs::Named::find_named))]
fn first_named(calls: &[CallName], word: &[u8]) -> Option<CallName>
    ensures { result ≡ find_named word_of calls.now word.now }
{
    calls
        .iter()
        .copied()
        .find(|call| are_equal(word, call.word()))
}

impl CallName {
    /// The call with this word.
    pub fn from_word(word: &[u8]) -> Option<CallName>
        ensures found { result ≡ call_named word.now }
        ensures exact { IsFoundBy word_of word.now result }
    {
        first_named(candidates(word), word)
    }
}

impl CheckName {
    /// The check with this word.
    #[tactic(auto, unfolding(crate::specs::Named::find_named))]
    pub fn from_word(word: &[u8]) -> Option<CheckName>
        ensures found { result ≡ check_named word.now }
        ensures exact { IsFoundBy check_word word.now result }
    {
        CHECKS.iter().copied().find(|check| word == check.word())
    }
}

impl Errno {
    /// The error number with this word.
    #[tactic(auto, unfolding(crate::specs::Named::find_named))]
    pub fn from_word(word: &[u8]) -> Option<Errno>
        ensures found { result ≡ errno_named word.now }
        ensures exact { IsFoundBy errno_word word.now result }
    {
        ERRNOS.iter().copied().find(|errno| word == errno.word())
    }
}
