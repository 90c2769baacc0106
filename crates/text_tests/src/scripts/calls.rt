// A line of each call.
use super::small_policy;
use cap_bits::{Cap, CapSet, CapState};
use kern_model::{Call, OpenFlags, Path, Pid, Signal, Whence};
use lab_text::{Policy, mac_from_text, top};
use script_text::{Line, LineError, read_line};
use std::alloc::Global;
use std::test::Fail;

// Each call once. A path is named as its call, a label is top's, and capability sets have `cap_kill` as permitted.
const LINES: &[&[u8]] = &[
    b"1@unc open open wcxta 4644",
    b"1@unc close 1",
    b"1@unc read 0000000003 65536",
    b"1@unc write 4294967295 \"x \\x00\"",
    b"1@unc lseek 1 \"cur\" -4294967295",
    b"1@unc dup 2",
    b"1@unc pipe",
    b"1@unc mkfifo /mkfifo 0600",
    b"1@unc fstat 3",
    b"1@unc mkdir /mkdir 755",
    b"1@unc rmdir /rmdir",
    b"1@unc link /link to",
    b"1@unc unlink \"/unlink\"",
    b"1@unc rename /rename to",
    b"1@unc readdir //readdir/",
    b"1@unc stat /./stat",
    b"1@unc chdir /chdir",
    b"1@unc chmod /chmod 6777",
    b"1@unc chown /chown 1 2",
    b"1@unc umask 0777",
    b"1@unc cap_get_file /cap_get_file",
    b"1@unc cap_set_file /cap_set_file \"cap_kill=p\"",
    b"1@unc cap_get_fd 4",
    b"1@unc cap_set_fd 5 CAP_KILL+p",
    b"1@unc mac_get_file /mac_get_file",
    b"1@unc mac_set_file /mac_set_file sec:a,b",
    b"1@unc mac_get_fd 6",
    b"1@unc mac_set_fd 7 \"sec:b,a\"",
    b"1@unc fork",
    b"1@unc exec /exec",
    b"1@unc exit 255",
    b"1@unc wait",
    b"1@unc kill 4095@sec:a,b TERM",
    b"1@unc getpid",
    b"1@unc getppid",
    b"1@unc getids",
    b"1@unc setuid 8",
    b"1@unc setgid 9",
    b"1@unc cap_get_proc",
    b"1@unc cap_set_proc cap_kill=p",
    b"1@unc mac_get_proc",
    b"1@unc mac_set_proc sec:b,a,b",
    b"1@unc aud_write note",
    b"1@unc aud_switch on",
];

const WRITTEN: OpenFlags = OpenFlags {
    r: false,
    w: true,
    c: true,
    x: true,
    t: true,
    a: true,
};

// Whether a path is this name alone.
fn is_name(path: &Path, name: &[u8]) -> bool {
    match path.components() {
        [only] => only.bytes() == name,
        _ => false,
    }
}

// Whether a path is this name in the root directory.
fn is(path: &Path, name: &[u8]) -> bool {
    path.absolute && is_name(path, name)
}

fn is_relative(path: &Path, name: &[u8]) -> bool {
    !path.absolute && is_name(path, name)
}

fn is_of_files(call: &Call) -> bool {
    match call {
        Call::OpenPath(path, flags, mode) => {
            is_relative(path, b"open") && *flags == WRITTEN && *mode == Some(0o4644)
        }
        Call::Close(fd) => *fd == 1,
        Call::Read(fd, n) => *fd == 3 && *n == 65536,
        Call::Write(fd, bytes) => *fd == 4294967295 && bytes.items() == b"x \0".as_slice(),
        Call::Lseek(fd, from, to) => *fd == 1 && *from == Whence::Cur && *to == -4294967295,
        Call::Dup(fd) => *fd == 2,
        Call::Pipe => true,
        Call::Mkfifo(path, mode) => is(path, b"mkfifo") && *mode == 0o600,
        Call::Fstat(fd) => *fd == 3,
        _ => false,
    }
}

fn is_of_the_tree(call: &Call) -> bool {
    match call {
        Call::Mkdir(path, mode) => is(path, b"mkdir") && *mode == 0o755,
        Call::Rmdir(path) => is(path, b"rmdir"),
        Call::Link(path, to) => is(path, b"link") && is_relative(to, b"to"),
        Call::Unlink(path) => is(path, b"unlink"),
        Call::Rename(path, to) => is(path, b"rename") && is_relative(to, b"to"),
        Call::Readdir(path) => is(path, b"readdir"),
        Call::Stat(path) => is(path, b"stat"),
        Call::Chdir(path) => is(path, b"chdir"),
        Call::Exec(path) => is(path, b"exec"),
        _ => false,
    }
}

fn permits_kill(caps: &CapState) -> bool {
    let mut kill = CapState::none();
    kill.p = CapSet::none().with(Cap::Kill);
    *caps == kill
}

fn is_of_attributes(policy: &Policy, call: &Call) -> bool {
    match call {
        Call::Chmod(path, mode) => is(path, b"chmod") && *mode == 0o6777,
        Call::Chown(path, user, group) => is(path, b"chown") && *user == 1 && *group == 2,
        Call::CapGetFile(path) => is(path, b"cap_get_file"),
        Call::CapSetFile(path, caps) => is(path, b"cap_set_file") && permits_kill(caps),
        Call::CapGetFd(fd) => *fd == 4,
        Call::CapSetFd(fd, caps) => *fd == 5 && permits_kill(caps),
        Call::MacGetFile(path) => is(path, b"mac_get_file"),
        Call::MacSetFile(path, label) => is(path, b"mac_set_file") && *label == top(policy),
        Call::MacGetFd(fd) => *fd == 6,
        Call::MacSetFd(fd, label) => *fd == 7 && *label == top(policy),
        _ => false,
    }
}

fn is_of_processes(policy: &Policy, call: &Call) -> bool {
    match call {
        Call::Umask(mode) => *mode == 0o777,
        Call::Exit(code) => *code == 255,
        Call::Kill(who, signal) => {
            who.n == 4095 && who.label == top(policy) && *signal == Signal::Term
        }
        Call::Setuid(user) => *user == 8,
        Call::Setgid(group) => *group == 9,
        Call::CapSetProc(caps) => permits_kill(caps),
        Call::MacSetProc(label) => *label == top(policy),
        Call::AudWrite(bytes) => bytes.items() == b"note".as_slice(),
        Call::AudSwitch(on) => *on,
        Call::Fork | Call::Wait | Call::Getpid | Call::Getppid | Call::Getids => true,
        Call::CapGetProc | Call::MacGetProc => true,
        _ => false,
    }
}

fn is_parsed(policy: &Policy, call: &Call) -> bool {
    is_of_files(call)
        || is_of_the_tree(call)
        || is_of_attributes(policy, call)
        || is_of_processes(policy, call)
}

// Whether a call is that of the word which stands first in its line, with the values of its table.
fn is_of_line(policy: &Policy, call: &Call, line: &[u8]) -> bool {
    let word = call.name().word();
    is_parsed(policy, call) && line.get(6..6 + word.len()) == Some(word)
}

// Whether a line says the call that stands first in it, with the values of its table.
fn is_of_table(alloc: Global, policy: &Policy, line: &[u8]) -> Result<bool, Fail> {
    let said = read_line(alloc, policy, line)?;
    match &said {
        Line::One { who: _, call } => Ok(is_of_line(policy, call, line)),
        Line::Blank | Line::Tool(_) => Err(Fail::new("the line says no call")),
    }
}

// The first of the lines that says another call.
fn other(alloc: Global, policy: &Policy) -> Result<Option<usize>, Fail> {
    for (place, line) in LINES.iter().enumerate() {
        if !is_of_table(alloc, policy, line)? {
            return Ok(Some(place));
        }
    }
    Ok(None)
}

#[test]
fn calls(rt: HostRuntime) -> Result<(), Fail> {
    let policy = small_policy(rt.alloc())?;
    assert_eq!(rt; other(rt.alloc(), &policy)?, None);
    Ok(())
}

fn says_nothing(alloc: Global, policy: &Policy, line: &[u8]) -> Result<bool, LineError> {
    let line = read_line(alloc, policy, line)?;
    let blank = matches!(&line, Line::Blank);
    drop(line);
    Ok(blank)
}

#[test]
fn blank_lines(rt: HostRuntime) -> Result<(), Fail> {
    let policy = small_policy(rt.alloc())?;
    assert!(rt; says_nothing(rt.alloc(), &policy, b"")?);
    assert!(rt; says_nothing(rt.alloc(), &policy, b"   ")?);
    assert!(rt; says_nothing(rt.alloc(), &policy, b"# getpid")?);
    assert!(rt; says_nothing(rt.alloc(), &policy, b"  #\t\"\xff")?);
    Ok(())
}

// Whether a line says that this process waits.
fn says_wait(alloc: Global, policy: &Policy, line: &[u8], wanted: &Pid) -> Result<bool, LineError> {
    let line = read_line(alloc, policy, line)?;
    let waits = matches!(&line, Line::One { who, call: Call::Wait } if who == wanted);
    drop(line);
    Ok(waits)
}

#[test]
fn tags(rt: HostRuntime) -> Result<(), Fail> {
    let policy = small_policy(rt.alloc())?;
    let label = mac_from_text(&policy, b"sec:a,b")?;
    let who = Pid { label, n: 7 };
    assert!(rt; says_wait(rt.alloc(), &policy, b"7@sec:a,b wait", &who)?);
    assert!(rt; says_wait(rt.alloc(), &policy, b"  0007@sec:b,a,b   wait ", &who)?);
    Ok(())
}
