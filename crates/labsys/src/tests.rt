// Whole runs over ends in memory: what each status leaves in the output and in the trail.
mod hostile;
mod other_ends;
mod programs;

use super::*;
use fs_path::{next_line, number_of};
use io_ends::{MemSink, MemSource};
use std::alloc::Global;
use std::process::Abort;
use std::test::Fail;

const INPUT: &[u8] = b"world 2\n\
    levels unc conf sec\n\
    categories a b\n\
    bound all\n\
    dir / 0777 0 0 unc\n\
    file /a 0644 10 10 sec \"hello\"\n\
    proc unc 10 10 - \"cap_mac_read=ep\"\n\
    script\n\
    1@unc mac_get_file /a\n";

const CALL: &[u8] = b"1@unc mac_get_file /a\n";

const REPLY: &[u8] = b"1@unc mac_get_file ok sec\n";

const END: &[u8] = b"end 1@unc unc \"cap_mac_read=ep\"\n";

const HEADER: &[u8] = b"trail 1\n\
    levels unc conf sec\n\
    categories a b\n\
    bound all\n";

const BOOT: &[u8] = b"0 boot 1@unc unc \"cap_mac_read=ep\"\n";

const RECORD: &[u8] = b"1 exercise 1@unc unc cap_mac_read mac_read obj:1@sec sec - p1\n";

const SECOND: &[u8] = b"2 exercise 1@unc unc cap_mac_read mac_read obj:1@sec sec - p1\n";

type Pieces = &'static [&'static [u8]];

const ANSWERS: Pieces = &[REPLY, END, b"done 1\n"];

const TRAIL: Pieces = &[HEADER, BOOT, RECORD];

const LIMIT: usize = 16_777_216;

// A call of 84 bytes, and how many calls the longest input has.
const ABSENT: &[u8] =
    b"1@unc mac_get_file /bbbbbbbbbbbbbbbbbbbbbbbbbbbbbbbbbbbbbbbbbbbbbbbbbbbbbbbbbbbbbbb\n";

const CALLS: u32 = 199_728;

// The room of the output and of the trail.
const ROOM: usize = 8_388_608;

// The call that fails, counted from 1 at its end: a read, a write to the output or a write to the trail.
#[derive(Clone, Copy, Debug)]
enum Fails {
    Nothing,
    Read(u64),
    Write(u64),
    Note(u64),
}

// What a run leaves: its status, and the bytes of the output and of the trail.
#[derive(Debug, PartialEq, Eq, Drop)]
struct Left {
    status: Status,
    out: Vec<u8>,
    trail: Vec<u8>,
}

impl Left {
    fn new(alloc: Global, status: Status, out: &[&[u8]], trail: &[&[u8]]) -> Result<Left, Fail> {
        Ok(Left {
            status,
            out: out.concat(alloc)?,
            trail: trail.concat(alloc)?,
        })
    }

    // Whether a run left these. Tests assert this, and no `assert_eq!` of two values, since a test is proved again at
    // each of its ways out.
    fn is(
        self,
        alloc: Global,
        status: Status,
        out: &[&[u8]],
        trail: &[&[u8]],
    ) -> Result<bool, Fail> {
        let wanted = Left::new(alloc, status, out, trail)?;
        Ok(self == wanted)
    }
}

#[derive(Drop)]
struct Ends {
    source: MemSource,
    out: MemSink,
    trail: MemSink,
}

impl Ends {
    fn new(alloc: Global, input: &[&[u8]], fails: Fails) -> Result<Ends, Fail> {
        let mut reads = Vec::new(alloc);
        let mut writes = Vec::new(alloc);
        let mut notes = Vec::new(alloc);
        match fails {
            Fails::Nothing => {}
            Fails::Read(call) => reads.push(call)?,
            Fails::Write(call) => writes.push(call)?,
            Fails::Note(call) => notes.push(call)?,
        }
        Ok(Ends {
            source: MemSource::new(input.concat(alloc)?, reads),
            out: MemSink::new(alloc, ROOM, writes)?,
            trail: MemSink::new(alloc, ROOM, notes)?,
        })
    }

    fn run(&mut self, alloc: Global, texts: &[&str]) -> Result<Left, Fail> {
        let mut words = Vec::new(alloc);
        for text in texts {
            words.push(String::from_str(alloc, text)?)?;
        }
        let status = run(
            alloc,
            &words,
            &mut self.source,
            &mut self.out,
            &mut self.trail,
        );
        Left::new(alloc, status, &[self.out.bytes()], &[self.trail.bytes()])
    }
}

// What `play` leaves of an input.
fn played(alloc: Global, input: &[&[u8]], fails: Fails) -> Result<Left, Fail> {
    Ends::new(alloc, input, fails)?.run(alloc, &["play", "trail.out"])
}

// What each fault leaves of the worked input.
const FAULTS: [(Fails, Status, Pieces, Pieces); 12] = [
    (Fails::Read(1), Status::ReadFault, &[], &[]),
    // The second read finds the end, so each call was played before it.
    (Fails::Read(2), Status::ReadFault, &[REPLY], TRAIL),
    (Fails::Note(1), Status::TrailFault, &[], &[]),
    (Fails::Note(2), Status::TrailFault, &[], &[HEADER]),
    (Fails::Note(3), Status::TrailFault, &[], &[HEADER, BOOT]),
    (Fails::Write(1), Status::WriteFault, &[], TRAIL),
    (Fails::Write(2), Status::WriteFault, &[REPLY], TRAIL),
    (Fails::Write(3), Status::WriteFault, &[REPLY, END], TRAIL),
    // Each piece is one write, so there is no further one to fail.
    (Fails::Nothing, Status::Done, ANSWERS, TRAIL),
    (Fails::Read(3), Status::Done, ANSWERS, TRAIL),
    (Fails::Note(4), Status::Done, ANSWERS, TRAIL),
    (Fails::Write(4), Status::Done, ANSWERS, TRAIL),
];

#[test]
fn a_fault_leaves_the_pieces_before_it(rt: HostRuntime) -> Result<(), Fail> {
    let alloc = rt.alloc();
    for (fails, status, out, trail) in FAULTS {
        assert!(rt;
            played(alloc, &[INPUT], fails)?.is(alloc, status, out, trail)?,
            "{fails:?}"
        );
    }
    Ok(())
}

#[test]
fn a_reply_stands_before_the_next_records(rt: HostRuntime) -> Result<(), Fail> {
    let alloc = rt.alloc();
    let input = [INPUT, CALL];
    let rows: [(Fails, Status, Pieces); 2] = [
        (Fails::Note(4), Status::TrailFault, TRAIL),
        (
            Fails::Write(2),
            Status::WriteFault,
            &[HEADER, BOOT, RECORD, SECOND],
        ),
    ];
    for (fails, status, trail) in rows {
        assert!(rt;
            played(alloc, &input, fails)?.is(alloc, status, &[REPLY], trail)?,
            "{fails:?}"
        );
    }
    Ok(())
}

// A day of logins, programs and relabelling.
const DAY: &[u8] = b"world 2\n\
    levels public internal secret top\n\
    categories hr eng ops fin net med\n\
    bound all\n\
    dir / 0755 0 0 public\n\
    dir /bin 0755 0 0 public\n\
    file /bin/login 0755 0 0 public \"login\" \"cap_setuid,cap_setgid,cap_mac_relabel_subj=ep\"\n\
    file /bin/passwd 4755 5 5 public \"passwd\" \"cap_dac_write=p\"\n\
    file /bin/sh 0755 0 0 public \"sh\"\n\
    dir /home 0755 0 0 public\n\
    dir /home/ann 0700 100 100 internal:eng\n\
    dir /home/bob 0700 101 101 secret:fin\n\
    file /home/bob/pay 0600 101 101 secret:fin \"4200\"\n\
    file /shadow 0600 5 5 public \"ann:x\"\n\
    proc public 0 0 - \"cap_kill,cap_setfcap,cap_mac_upgrade=ep\"\n\
    proc secret:fin 101 101 - \"=\"\n\
    script\n\
    1@public getfcap /bin/login /bin/sh\n\
    1@public fork\n\
    2@public exec /bin/login\n\
    2@public mac_set_proc internal:eng\n\
    2@public setgid 100\n\
    2@public setuid 100\n\
    2@public cap_set_proc \"=\"\n\
    2@public exec /bin/sh\n\
    2@public chdir /home/ann\n\
    2@public open notes rwc 0644\n\
    2@public write 0 \"plan\"\n\
    2@public lseek 0 set 0\n\
    2@public read 0 16\n\
    2@public open /home/bob/pay r\n\
    2@public exec /bin/passwd\n\
    2@public getids\n\
    2@public open /shadow w\n\
    2@public setuid 100\n\
    1@public setfcap \"cap_kill=ep\" /bin/sh\n\
    1@public mkdir /drop 0755\n\
    1@public setfmac secret /drop\n\
    1@public getfmac /drop /bin\n\
    1@secret:fin open /home/bob/pay rw\n\
    1@secret:fin read 0 64\n\
    2@public exit 0\n\
    1@public wait\n\
    1@public kill 1@secret:fin TERM\n";

// How many writes the day makes to the output, one for each line.
const DAY_ANSWERS: usize = 32;

// How many it makes to the trail: one for the header, and one for each record.
const DAY_NOTES: usize = 21;

// The text up to its rest.
fn text_before<'a>(text: &'a [u8], rest: &[u8]) -> &'a [u8] {
    let length = text.len().saturating_sub(rest.len());
    text.get(..length).unwrap_or(text)
}

// The first lines of a text, and its rest.
fn first_lines(text: &[u8], count: usize) -> (&[u8], &[u8]) {
    let mut rest = text;
    for _ in 0..count {
        if let Some((_, after)) = next_line(rest) {
            rest = after;
        }
    }
    (text_before(text, rest), rest)
}

// The number of the call that the first of these lines of the trail is about.
fn first_call(lines: &[u8]) -> usize {
    let word = lines.split(|byte| *byte == b' ').next().unwrap_or(&[]);
    number_of(word).unwrap_or(0) as usize
}

// The trail up to the last record of a call. Its header has four lines.
fn records_up_to(trail: &[u8], call: usize) -> &[u8] {
    let (_, mut rest) = first_lines(trail, 4);
    for _ in 0..DAY_NOTES {
        if first_call(rest) > call {
            break;
        }
        if let Some((_, after)) = next_line(rest) {
            rest = after;
        }
    }
    text_before(trail, rest)
}

// The n-th answer that fails leaves those before it, and the records of the n-th call.
#[test]
fn each_answer_of_a_day_fails_in_turn(rt: HostRuntime) -> Result<(), Fail> {
    let alloc = rt.alloc();
    let whole = played(alloc, &[DAY], Fails::Nothing)?;
    for count in 1..=DAY_ANSWERS {
        let (out, _) = first_lines(&whole.out, count - 1);
        let trail = records_up_to(&whole.trail, count);
        assert!(rt;
            played(alloc, &[DAY], Fails::Write(count as u64))?.is(
                alloc,
                Status::WriteFault,
                &[out],
                &[trail]
            )?,
            "{count}"
        );
    }
    let fails = Fails::Write(DAY_ANSWERS as u64 + 1);
    assert!(rt; played(alloc, &[DAY], fails)? == whole);
    Ok(())
}

// The n-th piece of the trail that fails leaves those before it, and the replies to the calls before its own.
#[test]
fn each_record_of_a_day_fails_in_turn(rt: HostRuntime) -> Result<(), Fail> {
    let alloc = rt.alloc();
    let whole = played(alloc, &[DAY], Fails::Nothing)?;
    for count in 1..=DAY_NOTES {
        let lines = if count == 1 { 0 } else { count + 2 };
        let (trail, rest) = first_lines(&whole.trail, lines);
        let (out, _) = first_lines(&whole.out, first_call(rest).saturating_sub(1));
        assert!(rt;
            played(alloc, &[DAY], Fails::Note(count as u64))?.is(
                alloc,
                Status::TrailFault,
                &[out],
                &[trail]
            )?,
            "{count}"
        );
    }
    let fails = Fails::Note(DAY_NOTES as u64 + 1);
    assert!(rt; played(alloc, &[DAY], fails)? == whole);
    Ok(())
}

// What inputs with a refused line leave.
const REFUSED: [(Pieces, Pieces, Pieces); 4] = [
    (&[], &[b"refused 1 world syntax\n"], &[]),
    (
        &[b"world 1\n", CALL],
        &[b"refused 1 world old_format\n"],
        &[],
    ),
    (
        &[b"world 2\nlevels unc"],
        &[b"refused 2 world syntax\n"],
        &[],
    ),
    (
        &[INPUT, b"1@unc fork now\n", CALL],
        &[REPLY, END, b"refused 10 script syntax\n"],
        TRAIL,
    ),
];

#[test]
fn a_refused_line_leaves_what_stands_before_it(rt: HostRuntime) -> Result<(), Fail> {
    let alloc = rt.alloc();
    for (input, out, trail) in REFUSED {
        assert!(rt; played(alloc, input, Fails::Nothing)?.is(alloc, Status::Refused, out, trail)?);
    }
    Ok(())
}

// The worked input, and after it calls that find no file, up to the limit.
fn longest_input(alloc: Global) -> Result<Vec<u8>, Fail> {
    let mut input = Vec::from_slice(alloc, INPUT)?;
    for _ in 2..CALLS {
        input.extend_from_slice(ABSENT)?;
    }
    input.extend_from_slice(b"1@unc mac_get_file /")?;
    input.resize(LIMIT - 1, b'b')?;
    input.push(b'\n')?;
    Ok(input)
}

// The replies to its calls.
fn longest_replies(alloc: Global) -> Result<Vec<u8>, Fail> {
    let mut replies = Vec::from_slice(alloc, REPLY)?;
    for _ in 1..CALLS {
        replies.extend_from_slice(b"1@unc mac_get_file ENOENT\n")?;
    }
    Ok(replies)
}

#[test]
fn one_byte_over_16_mib_is_too_long(rt: HostRuntime) -> Result<(), Fail> {
    let alloc = rt.alloc();
    let mut input = longest_input(alloc)?;
    let replies = longest_replies(alloc)?;
    let out = [&replies, END, b"done 199728\n"];
    assert!(rt; played(alloc, &[&input], Fails::Nothing)?.is(alloc, Status::Done, &out, TRAIL)?);
    input.push(b'\n')?;
    let out = [&replies, END, b"too long\n"];
    assert!(rt; played(alloc, &[&input], Fails::Nothing)?.is(alloc, Status::TooLong, &out, TRAIL)?);
    Ok(())
}

#[test]
fn words_that_are_no_command_touch_nothing(rt: HostRuntime) -> Result<(), Fail> {
    let alloc = rt.alloc();
    let rows: [&[&str]; 37] = [
        &[],
        &["frob", "trail.out"],
        &["play"],
        &["play", ""],
        &["play", "-"],
        &["play", "--"],
        &["play", "-x"],
        &["play", "a", "b"],
        &["gen"],
        &["gen", ""],
        &["gen", "-1"],
        &["gen", "0"],
        &["gen", "1x"],
        &["gen", "100001"],
        &["gen", "0000001"],
        &["gen", "1", "2"],
        &["drill"],
        &["drill", "0"],
        &["drill", "100001"],
        &["check", "trail.out"],
        &["upgrade", "trail.out"],
        &["lineage", "trail.out"],
        &["select"],
        &["select", ""],
        &["view"],
        &["view", ""],
        &["view", "-unc"],
        &["view", "unc", "conf"],
        &[""],
        &["-"],
        &["--"],
        &["-x"],
        &["--", "check"],
        &["-check"],
        &["--help"],
        &["--help", "x"],
        &["--version"],
    ];
    let mut ends = Ends::new(alloc, &[INPUT], Fails::Nothing)?;
    let nothing = Left::new(alloc, Status::Usage, &[], &[])?;
    for words in rows {
        assert!(rt; ends.run(alloc, words)? == nothing);
    }
    assert!(rt;
        ends.run(alloc, &["play", "trail.out"])?
            .is(alloc, Status::Done, ANSWERS, TRAIL)?
    );
    Ok(())
}

// The head of each generated input.
const GENERATED: &[u8] = b"world 2\n\
    levels l0 l1 l2 l3\n\
    categories c0 c1\n\
    bound all\n\
    dir / 0777 0 0 l0\n\
    dir /d0 0777 0 0 l0\n\
    dir /d1 0777 0 0 l1\n\
    dir /d2 0777 0 0 l2\n\
    dir /d3 0777 0 0 l3\n\
    proc l0 100 100 - \"=\"\n\
    proc l1 101 101 - \"=\"\n\
    proc l2 102 102 - \"=\"\n\
    proc l3 103 103 - \"=\"\n\
    script\n";

// The call of the input of one line.
const ONE_LINE: &[u8] = b"1@l2 read 3 8\n";

// What a command leaves of an input, where this call fails.
fn performed(alloc: Global, words: &[&str], input: &[&[u8]], fails: Fails) -> Result<Left, Fail> {
    Ends::new(alloc, input, fails)?.run(alloc, words)
}

// Each fault leaves these pieces of what a command writes.
fn faults_leave(
    rt: &impl Abort,
    alloc: Global,
    words: &[&str],
    input: &[&[u8]],
    rows: &[(Fails, Status, Pieces)],
) -> Result<(), Fail> {
    for (fails, status, out) in rows.iter().copied() {
        assert!(rt;
            performed(alloc, words, input, fails)?.is(alloc, status, out, &[])?,
            "{fails:?}"
        );
    }
    Ok(())
}

#[test]
fn gen_writes_the_generated_input(rt: HostRuntime) -> Result<(), Fail> {
    let alloc = rt.alloc();
    let rows: [(&str, Pieces); 4] = [
        ("1", &[GENERATED, ONE_LINE]),
        ("000001", &[GENERATED, ONE_LINE]),
        (
            "2",
            &[GENERATED, b"1@l0 mkdir /d3/f7 0755\n", b"1@l1 close 2\n"],
        ),
        (
            "02",
            &[GENERATED, b"1@l0 mkdir /d3/f7 0755\n", b"1@l1 close 2\n"],
        ),
    ];
    for (lines, out) in rows {
        assert!(rt;
            performed(alloc, &["gen", lines], &[b"not read"], Fails::Read(1))?.is(
                alloc,
                Status::Done,
                out,
                &[]
            )?,
            "{lines}"
        );
    }
    Ok(())
}

// Each piece is one write: the head, and then each line.
#[test]
fn a_write_of_gen_fails_in_turn(rt: HostRuntime) -> Result<(), Fail> {
    let alloc = rt.alloc();
    let rows: [(u64, Status, Pieces); 3] = [
        (1, Status::WriteFault, &[]),
        (2, Status::WriteFault, &[GENERATED]),
        (3, Status::Done, &[GENERATED, ONE_LINE]),
    ];
    for (write, status, out) in rows {
        assert!(rt;
            performed(alloc, &["gen", "1"], &[], Fails::Write(write))?.is(alloc, status, out, &[])?,
            "{write}"
        );
    }
    Ok(())
}

// Whether two drills write the same line. A read of the source would fail, but it is not read.
fn drills_are_equal(alloc: Global, lines: &str) -> Result<bool, Fail> {
    let words = ["drill", lines];
    let first = performed(alloc, &words, &[b"not read"], Fails::Read(1))?;
    let second = performed(alloc, &words, &[b"not read"], Fails::Read(1))?;
    Ok(first == second && matches!(first.status, Status::Done))
}

#[test]
fn drills_of_one_number_are_equal(rt: HostRuntime) -> Result<(), Fail> {
    assert!(rt; drills_are_equal(rt.alloc(), "100000")?);
    Ok(())
}

// What `check` leaves of inputs: a whole one, one with a utility on two paths, and refused ones.
const CHECKED: [(Pieces, Status, &[u8]); 6] = [
    (&[INPUT], Status::Done, b"ok 2 1 1\n"),
    (
        &[INPUT, b"1@unc getfmac /a /b\n", b"# a comment\n", CALL],
        Status::Done,
        b"ok 2 1 4\n",
    ),
    (&[], Status::Refused, b"refused 1 world syntax\n"),
    (
        &[b"world 2\nlevels unc"],
        Status::Refused,
        b"refused 2 world syntax\n",
    ),
    (
        &[INPUT, b"1@unc fork now\n", CALL],
        Status::Refused,
        b"refused 10 script syntax\n",
    ),
    (
        &[INPUT, b"1@unc fork"],
        Status::Refused,
        b"refused 10 script syntax\n",
    ),
];

#[test]
fn check_writes_what_it_found(rt: HostRuntime) -> Result<(), Fail> {
    let alloc = rt.alloc();
    for (input, status, out) in CHECKED {
        assert!(rt;
            performed(alloc, &["check"], input, Fails::Nothing)?.is(alloc, status, &[out], &[])?
        );
    }
    Ok(())
}

#[test]
fn a_fault_of_check_leaves_nothing(rt: HostRuntime) -> Result<(), Fail> {
    let rows: [(Fails, Status, Pieces); 3] = [
        (Fails::Read(1), Status::ReadFault, &[]),
        (Fails::Read(2), Status::ReadFault, &[]),
        (Fails::Write(1), Status::WriteFault, &[]),
    ];
    faults_leave(&rt, rt.alloc(), &["check"], &[INPUT], &rows)
}

// The head of a world in which the process of `sec` may write to the file of `unc`.
const OPEN_BELOW: &[u8] = b"world 2\n\
    levels unc conf sec\n\
    categories a b\n\
    bound all\n\
    dir / 0777 0 0 unc\n\
    file /u 0666 10 10 unc \"\"\n\
    proc unc 10 10 - \"=\"\n\
    proc sec 10 10 - \"cap_mac_write=ep\"\n\
    script\n";

// The head of a world whose process may take other labels.
const RELABELS: &[u8] = b"world 2\n\
    levels unc conf sec\n\
    categories a b\n\
    bound all\n\
    dir / 0777 0 0 unc\n\
    proc unc 10 10 - \"cap_mac_relabel_subj=ep\"\n\
    script\n";

const ASKS: &[u8] = b"1@unc getpid\n";

const ANSWERED: &[u8] = b"1@unc getpid ok 1@unc\n";

// What `view` leaves of inputs: with a crossing, without one, of a world that lacks the label, and refused ones.
const VIEWED: [(&str, Pieces, Status, Pieces); 9] = [
    (
        "unc",
        &[OPEN_BELOW, ASKS, b"1@sec open /u w\n", ASKS],
        Status::Done,
        &[ANSWERED, b"crossed\n"],
    ),
    (
        "unc",
        &[OPEN_BELOW, ASKS, b"1@sec getpid\n", ASKS],
        Status::Done,
        &[ANSWERED, ANSWERED, b"end 1@unc unc \"=\"\n", b"done 2\n"],
    ),
    (
        "conf",
        &[
            RELABELS,
            b"1@unc mac_set_proc conf\n",
            ASKS,
            b"1@unc mac_set_proc sec\n",
        ],
        Status::Done,
        &[b"1@unc mac_set_proc ok\n", ANSWERED, b"crossed\n"],
    ),
    (
        "unc",
        &[OPEN_BELOW, b"1@sec open /u w\n", ASKS, b"1@unc fork now\n"],
        Status::Refused,
        &[b"crossed\n", b"refused 12 script syntax\n"],
    ),
    (
        "unc",
        &[OPEN_BELOW, ASKS, b"1@unc fork now\n"],
        Status::Refused,
        &[
            ANSWERED,
            b"end 1@unc unc \"=\"\n",
            b"refused 11 script syntax\n",
        ],
    ),
    (
        "zzz",
        &[RELABELS, ASKS],
        Status::Refused,
        &[b"refused 0 view bad_label\n"],
    ),
    (
        "unc:",
        &[RELABELS, b"1@unc fork now\n"],
        Status::Refused,
        &[b"refused 0 view bad_label\n"],
    ),
    (
        "zzz",
        &[b"world 2\nlevels unc"],
        Status::Refused,
        &[b"refused 2 world syntax\n"],
    ),
    ("unc", &[], Status::Refused, &[b"refused 1 world syntax\n"]),
];

#[test]
fn view_writes_what_the_label_sees(rt: HostRuntime) -> Result<(), Fail> {
    let alloc = rt.alloc();
    for (label, input, status, out) in VIEWED {
        assert!(rt;
            performed(alloc, &["view", label], input, Fails::Nothing)?.is(alloc, status, out, &[])?,
            "{label}"
        );
    }
    Ok(())
}

#[test]
fn a_fault_of_view_leaves_what_stands_before_it(rt: HostRuntime) -> Result<(), Fail> {
    let rows: [(Fails, Status, Pieces); 5] = [
        (Fails::Read(1), Status::ReadFault, &[]),
        (Fails::Read(2), Status::ReadFault, &[ANSWERED, b"crossed\n"]),
        (Fails::Write(1), Status::WriteFault, &[]),
        (Fails::Write(2), Status::WriteFault, &[ANSWERED]),
        (Fails::Write(3), Status::Done, &[ANSWERED, b"crossed\n"]),
    ];
    let input: Pieces = &[OPEN_BELOW, ASKS, b"1@sec open /u w\n", ASKS];
    faults_leave(&rt, rt.alloc(), &["view", "unc"], input, &rows)
}

// Four replies stand before the first call that overrides the rules on labels.
#[test]
fn a_view_of_a_day_ends_at_the_crossing(rt: HostRuntime) -> Result<(), Fail> {
    let alloc = rt.alloc();
    let whole = played(alloc, &[DAY], Fails::Nothing)?;
    let (out, _) = first_lines(&whole.out, 4);
    assert!(rt;
        performed(alloc, &["view", "public"], &[DAY], Fails::Nothing)?.is(
            alloc,
            Status::Done,
            &[out, b"crossed\n"],
            &[]
        )?
    );
    Ok(())
}

// The head of the worked input in the old format, spelled in another way.
const OLD: &[u8] = b"world 1\n\
    # a world\n\
    levels unc conf sec\n\
    categories a b\n\
    bound all\n\
    dir  / 0777 0 0 unc\n\
    file /a 0644 10 10 sec \"hello\" \"=\"\n\
    proc unc 10 10 - \"cap_mac_read=ep\"\n\
    script\n";

// The text of its world.
const UPGRADED: &[u8] = b"world 2\n\
    levels unc conf sec\n\
    categories a b\n\
    bound all\n\
    dir / 0777 0 0 unc\n\
    file /a 0644 10 10 sec \"hello\"\n\
    proc unc 10 10 - \"cap_mac_read=ep\"\n\
    script\n";

// Lines of a script that could be spelled in another way.
const COMMENT: &[u8] = b"# a  comment\n";

const WIDE: &[u8] = b"1@unc  mac_get_file \"/a\"\n";

const UNIFORM: &[u8] = b"1@unc setfcap \"cap_kill=ep\" /a\n";

// What `upgrade` leaves of inputs: whole ones, and refused ones.
const UPGRADES: [(Pieces, Status, Pieces); 9] = [
    (
        &[OLD, WIDE, b"\n", COMMENT, UNIFORM],
        Status::Done,
        &[UPGRADED, WIDE, b"\n", COMMENT, UNIFORM],
    ),
    (&[OLD], Status::Done, &[UPGRADED]),
    (
        &[OLD, WIDE, b"\n", b"1@unc fork now\n", CALL],
        Status::Refused,
        &[UPGRADED, WIDE, b"\n", b"refused 12 script syntax\n"],
    ),
    (
        &[OLD, CALL, b"1@unc fork"],
        Status::Refused,
        &[UPGRADED, CALL, b"refused 11 script syntax\n"],
    ),
    (
        &[
            OLD,
            UNIFORM,
            b"1@unc setfcap \"cap_kill=e cap_chown=p\" /a\n",
        ],
        Status::Refused,
        &[UPGRADED, UNIFORM, b"refused 11 script mixed_caps\n"],
    ),
    (
        &[OLD, b"1@unc cap_set_file /a \"cap_kill=e\"\n"],
        Status::Refused,
        &[UPGRADED, b"refused 10 script mixed_caps\n"],
    ),
    (
        &[OLD, b"1@unc cap_set_file .. \"cap_kill=e\"\n"],
        Status::Refused,
        &[UPGRADED, b"refused 10 script bad_path\n"],
    ),
    (&[], Status::Refused, &[b"refused 1 world syntax\n"]),
    (&[INPUT], Status::Refused, &[b"refused 1 world syntax\n"]),
];

#[test]
fn upgrade_writes_the_input_in_the_new_format(rt: HostRuntime) -> Result<(), Fail> {
    let alloc = rt.alloc();
    for (input, status, out) in UPGRADES {
        assert!(rt;
            performed(alloc, &["upgrade"], input, Fails::Nothing)?.is(alloc, status, out, &[])?
        );
    }
    Ok(())
}

#[test]
fn a_fault_of_upgrade_leaves_what_stands_before_it(rt: HostRuntime) -> Result<(), Fail> {
    let rows: [(Fails, Status, Pieces); 7] = [
        (Fails::Read(1), Status::ReadFault, &[]),
        (
            Fails::Read(2),
            Status::ReadFault,
            &[UPGRADED, WIDE, b"\n", CALL],
        ),
        (Fails::Write(1), Status::WriteFault, &[]),
        (Fails::Write(2), Status::WriteFault, &[UPGRADED]),
        (Fails::Write(3), Status::WriteFault, &[UPGRADED, WIDE]),
        (
            Fails::Write(4),
            Status::WriteFault,
            &[UPGRADED, WIDE, b"\n"],
        ),
        (
            Fails::Write(5),
            Status::Done,
            &[UPGRADED, WIDE, b"\n", CALL],
        ),
    ];
    let input: Pieces = &[OLD, WIDE, b"\n", CALL];
    faults_leave(&rt, rt.alloc(), &["upgrade"], input, &rows)
}

// The lines of the two records of the worked trail.
const BOOT_LINE: &[u8] =
    b"{\"call\":0,\"caps\":\"cap_mac_read=ep\",\"event\":\"boot\",\"label\":\"unc\",\"pid\":\"1@unc\"}\n";

const EXERCISE_LINE: &[u8] =
    b"{\"call\":1,\"cap\":\"cap_mac_read\",\"check\":\"mac_read\",\"event\":\"exercise\",\"label\":\"unc\",\
      \"new\":null,\"pid\":\"1@unc\",\"place\":\"p1\",\"thing\":\"obj:1@sec\",\"thing_label\":\"sec\"}\n";

#[test]
fn a_fault_of_select_leaves_what_stands_before_it(rt: HostRuntime) -> Result<(), Fail> {
    let rows: [(Fails, Status, Pieces); 5] = [
        (Fails::Read(2), Status::ReadFault, &[]),
        (Fails::Write(1), Status::WriteFault, &[]),
        (Fails::Write(2), Status::WriteFault, &[BOOT_LINE]),
        (
            Fails::Write(3),
            Status::WriteFault,
            &[BOOT_LINE, EXERCISE_LINE],
        ),
        (
            Fails::Nothing,
            Status::Done,
            &[BOOT_LINE, EXERCISE_LINE, b"done 2\n"],
        ),
    ];
    faults_leave(&rt, rt.alloc(), &["select", "all"], TRAIL, &rows)
}

#[test]
fn a_fault_of_lineage_leaves_nothing(rt: HostRuntime) -> Result<(), Fail> {
    let rows: [(Fails, Status, Pieces); 4] = [
        (Fails::Read(1), Status::ReadFault, &[]),
        (Fails::Read(2), Status::ReadFault, &[]),
        (Fails::Write(1), Status::WriteFault, &[]),
        (Fails::Nothing, Status::Done, &[b"yes 2\n"]),
    ];
    faults_leave(&rt, rt.alloc(), &["lineage"], TRAIL, &rows)
}
