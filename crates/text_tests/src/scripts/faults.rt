// Lines that are refused.
use super::small_policy;
use lab_text::Policy;
use script_text::LineError::*;
use script_text::{LineError, NoMemory, read_line};
use std::alloc::Global;
use std::test::Fail;

// A line: what stands first, and how often a byte stands after that.
type Text = (&'static [u8], usize, u8);

const LONG: &[(Text, Option<LineError>)] = &[
    ((b"1@unc mac_get_file /", 2029, b'a'), Some(TooLong)),
    ((b"1@unc stat /a", 2035, b' '), None),
    ((b"#", 2048, b'#'), Some(TooLong)),
    ((b"#", 2047, b'#'), None),
    ((b"", 2049, b' '), Some(TooLong)),
];

const FAULTS: &[(&[u8], LineError)] = &[
    (b"1@unc", Syntax),
    (b"1@unc frob", Syntax),
    (b"1@unc Getpid", Syntax),
    (b"4096@unc getpid", BadTag),
    (b"1@zzz getpid", BadTag),
    (b"1@unc stat /a/../b", BadPath),
    (b"1@unc mac_set_proc zzz", BadLabel),
    (b"1@unc cap_set_proc +e", BadCaps),
    // Words.
    (b"1@unc getpid\t", Syntax),
    (b"1@unc stat \"/a", Syntax),
    (b"1@unc stat \"/a\"b", Syntax),
    (b"\"1@unc\" getpid", Syntax),
    (b"1@unc \"getpid\"", Syntax),
    (b"\"9@zzz\" getpid", Syntax),
    // How many arguments there are.
    (b"1@unc getpid 1", Syntax),
    (b"1@unc stat", Syntax),
    (b"1@unc stat /a /b", Syntax),
    (b"1@unc link /a", Syntax),
    (b"1@unc chown /a 1", Syntax),
    (b"1@unc chown /a 1 2 3", Syntax),
    (b"1@unc lseek 0 set", Syntax),
    (b"1@unc lseek 0 set 0 0", Syntax),
    // Flags, and the mode beside them.
    (b"1@unc open /a c 0644", Syntax),
    (b"1@unc open /a rx", Syntax),
    (b"1@unc open /a rt", Syntax),
    (b"1@unc open /a ra", Syntax),
    (b"1@unc open /a wr", Syntax),
    (b"1@unc open /a rr", Syntax),
    (b"1@unc open /a rz", Syntax),
    (b"1@unc open /a \"\"", Syntax),
    (b"1@unc open /a rwc", Syntax),
    (b"1@unc open /a rw 0644", Syntax),
    (b"1@unc open /a rwc 01000", Syntax),
    (b"1@unc open /a", Syntax),
    // Numbers, modes and words of a list.
    (b"1@unc close 12345678901", Syntax),
    (b"1@unc close 4294967296", Syntax),
    (b"1@unc close -1", Syntax),
    (b"1@unc read 0 65537", Syntax),
    (b"1@unc exit 256", Syntax),
    (b"1@unc umask 1000", Syntax),
    (b"1@unc umask 4777", Syntax),
    (b"1@unc chmod /a 1000", Syntax),
    (b"1@unc chmod /a 778", Syntax),
    (b"1@unc chmod /a 00644", Syntax),
    (b"1@unc lseek 0 Set 0", Syntax),
    (b"1@unc lseek 0 set --1", Syntax),
    (b"1@unc lseek 0 set -", Syntax),
    (b"1@unc lseek 0 set -4294967296", Syntax),
    (b"1@unc aud_switch ON", Syntax),
    (b"1@unc kill 1@unc HUP", Syntax),
    (b"1@unc kill 1@unc 00", Syntax),
    // Tags.
    (b"0@unc getpid", BadTag),
    (b"12345678901@unc getpid", BadTag),
    (b"4294967296@unc getpid", BadTag),
    (b"unc getpid", BadTag),
    (b"1@ getpid", BadTag),
    (b"1@sec:a, getpid", BadTag),
    (b"1@unc@unc getpid", BadTag),
    // Utilities.
    (b"1@unc getfcap", Syntax),
    (b"1@zzz setfmac sec", Syntax),
    (b"1@unc Getfcap /a", Syntax),
    (b"1@zzz setfcap +e /..", BadTag),
    (b"1@unc setfmac zzz /a /..", BadPath),
    (b"1@unc setfmac zzz /a", BadLabel),
    (b"1@unc setfcap +e /a", BadCaps),
    // Numbers of processes.
    (b"1@unc kill 1@ 0", BadLabel),
    (b"1@unc kill 0@unc 0", BadLabel),
    (b"1@unc kill 4096@unc TERM", BadLabel),
    (b"1@unc kill 4294967296@unc 0", Syntax),
    (b"1@unc kill unc 0", Syntax),
    (b"1@unc kill @unc 0", Syntax),
    // The first fault counts, wherever it stands.
    (b"1@zzz frob", Syntax),
    (b"1@zzz chmod /.. 9", Syntax),
    (b"1@unc kill 0@zzz HUP", Syntax),
    (b"1@zzz stat /..", BadTag),
    (b"1@zzz mac_set_file /.. zzz", BadTag),
    (b"1@unc mac_set_file /.. zzz", BadPath),
    (b"1@unc cap_set_file /.. +e", BadPath),
    (b"1@unc cap_set_file \"\" =", BadPath),
    (b"1@unc mac_set_fd 0 \"\"", BadLabel),
];

fn canonical(alloc: Global, text: Text) -> Result<Vec<u8>, NoMemory> {
    let (prefix, times, byte) = text;
    let mut line = Vec::from_slice(alloc, prefix)?;
    for _ in 0..times {
        line.push(byte)?;
    }
    Ok(line)
}

// Why a line is refused, if it is.
fn fault_of(alloc: Global, policy: &Policy, line: &[u8]) -> Option<LineError> {
    read_line(alloc, policy, line).err()
}

// The first of the long lines that comes out otherwise.
fn other_long(alloc: Global, policy: &Policy) -> Result<Option<usize>, NoMemory> {
    for (place, (text, fault)) in LONG.iter().enumerate() {
        let line = canonical(alloc, *text)?;
        if fault_of(alloc, policy, &line) != *fault {
            return Ok(Some(place));
        }
    }
    Ok(None)
}

#[test]
fn long_lines(rt: HostRuntime) -> Result<(), Fail> {
    let policy = small_policy(rt.alloc())?;
    assert_eq!(rt; other_long(rt.alloc(), &policy)?, None);
    Ok(())
}

// The first of the lines that comes out otherwise.
fn other(alloc: Global, policy: &Policy) -> Option<usize> {
    FAULTS.iter().position(|(line, fault)| fault_of(alloc, policy, line) != Some(*fault))
}

#[test]
fn faults(rt: HostRuntime) -> Result<(), Fail> {
    let policy = small_policy(rt.alloc())?;
    assert_eq!(rt; other(rt.alloc(), &policy), None);
    Ok(())
}
