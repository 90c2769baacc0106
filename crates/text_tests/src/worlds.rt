// What no clause says: tables of worlds, with the line and the cause of each that is refused.
use fs_path::next_line;
use kern_model::Body;
use lab_text::mac_to_text;
use line_text::LineFault;
use line_text::LineFault::*;
use std::alloc::Global;
use std::test::Fail;
use world_text::*;

/// What comes of a text.
#[derive(Clone, Copy, Debug, PartialEq)]
enum Answer {
    /// A world, whose script begins at the line with this number.
    World(u64),
    Refused(u64, LineFault),
    /// It ends at the line with this number, of which so many bytes are there.
    Ended(u64, usize),
}

use Answer::{Ended, Refused, World};

// A text: what stands first, a part, how often it stands after that, and what stands after the parts.
type Repeated = (&'static [u8], &'static [u8], usize, &'static [u8]);

// Three levels and two categories.
const HEAD: &[u8] = b"world 2\nlevels unc conf sec\ncategories a b\nbound all\n";

// The head, and the root.
const HEAD_AND_ROOT: &[u8] =
    b"world 2\nlevels unc conf sec\ncategories a b\nbound all\ndir / 0777 0 0 unc\n";

// Whole texts.
const HEADS: &[(&[u8], Answer)] = &[
    (b"", Ended(1, 0)),
    (b"world 2", Ended(1, 7)),
    (b"world 2\n", Ended(2, 0)),
    (b"\n# first\n world  2 \n", Ended(4, 0)),
    (b"world \"2\"\n", Ended(2, 0)),
    (b"\"world\" 2\n", Refused(1, Syntax)),
    (b"world 1\n", Refused(1, OldFormat)),
    (b"\n# first\n world  1 \nlevels\n", Refused(3, OldFormat)),
    (b"world \"\\x31\"\n", Refused(1, OldFormat)),
    (b"world 1", Ended(1, 7)),
    (b"world 01\n", Refused(1, Syntax)),
    (b"world 1 1\n", Refused(1, Syntax)),
    (b"\"world\" 1\n", Refused(1, Syntax)),
    (b"world 3\n", Refused(1, Syntax)),
    (b"levels unc\n", Refused(1, Syntax)),
    (b"world 2\nlevels\n", Refused(2, Syntax)),
    (b"world 2\nlevels a a\n", Refused(2, Repeated)),
    (b"world 2\nlevels a 9 a\n", Refused(2, Syntax)),
    (
        b"world 2\nlevels unc conf sec n4 n5 n6 n7 n8 n9 n10 n11 n12 n13 n14 n15 n16 n17\n",
        Refused(2, TooMany),
    ),
    (b"world 2\nlevels a\ncategories\nbound none\n", Ended(5, 0)),
    (b"world 2\nlevels a\ncategories a\n", Ended(4, 0)),
    (b"world 2\nlevels a\ncategories b b\n", Refused(3, Repeated)),
    (
        b"world 2\nlevels a\ncategories\ngrades low\nbound all\n",
        Ended(6, 0),
    ),
    (
        b"world 2\nlevels a\ncategories\ngrades\n",
        Refused(4, Syntax),
    ),
    (
        b"world 2\nlevels a\ncategories\ngrades low 9\n",
        Refused(4, Syntax),
    ),
    (
        b"world 2\nlevels a\ncategories\ngrades low low\n",
        Refused(4, Repeated),
    ),
    (
        b"world 2\nlevels a\ncategories\ngrades low\ngrades high\n",
        Refused(5, Syntax),
    ),
    (b"world 2\nlevels a\ngrades low\n", Refused(3, Syntax)),
    (
        b"world 2\nlevels a\ncategories\nbound\n",
        Refused(4, Syntax),
    ),
    (
        b"world 2\nlevels a\ncategories\nbound cap_kill\n",
        Ended(5, 0),
    ),
    (
        b"world 2\nlevels a\ncategories\nbound CAP_SETUID,cap_Kill\n",
        Ended(5, 0),
    ),
    (
        b"world 2\nlevels a\ncategories\nbound \"all\"\n",
        Ended(5, 0),
    ),
    (
        b"world 2\nlevels a\ncategories\nbound cap_x\n",
        Refused(4, UnknownName),
    ),
    (
        b"world 2\nlevels a\ncategories\nbound cap_kill,\n",
        Refused(4, UnknownName),
    ),
    (
        b"world 2\nlevels a\ncategories\nbound \"\"\n",
        Refused(4, Syntax),
    ),
    (
        b"world 2\nlevels a\ncategories\nbound cap_kill cap_setuid\n",
        Refused(4, Syntax),
    ),
];

// Texts where the old format is due.
const OLD_HEADS: &[(&[u8], Answer)] = &[
    (b"world 1", Ended(1, 7)),
    (b"world 1\n", Ended(2, 0)),
    (b"\n world  \"1\"\n", Ended(3, 0)),
    (b"world 2\n", Refused(1, Syntax)),
    (b"world 01\n", Refused(1, Syntax)),
    (
        b"world 1\nlevels a\ncategories\nbound none\ndir / 0777 0 0 a\nscript\n",
        World(7),
    ),
    (
        b"world 1\nlevels a\ncategories\nbound none\ndir / 0777 0 0 a\n\
        file /f 0644 0 0 a \"\" \"cap_kill=ep cap_chown=p\"\n",
        Refused(6, MixedCaps),
    ),
];

// Texts with a part that stands many times.
const LONG_HEADS: &[(Repeated, Answer)] = &[
    ((b"world 1", b" ", 2_041, b"\n"), Refused(1, OldFormat)),
    ((b"world 1", b" ", 2_042, b"\n"), Refused(1, Syntax)),
    ((b"world 2\nlevels", b" a", 17, b"\n"), Refused(2, TooMany)),
    ((b"world 2\nlevels", b" a", 17, b" 9\n"), Refused(2, Syntax)),
    (
        (b"world 2\nlevels a\ncategories", b" b", 65, b"\n"),
        Refused(3, TooMany),
    ),
    (
        (b"world 2\nlevels a\ncategories", b" b", 65, b" 9\n"),
        Refused(3, Syntax),
    ),
    (
        (b"world 2\nlevels a\ncategories\ngrades", b" c", 17, b"\n"),
        Refused(4, TooMany),
    ),
];

// What stands after the head, which has four lines.
const ROOTS: &[(&[u8], Answer)] = &[
    (b"script\n", Refused(5, Syntax)),
    (b"proc unc 0 0 - \"=\"\n", Refused(5, NoParent)),
    (b"proc unc 0 0 - \"cap_x=p\"\n", Refused(5, UnknownName)),
    (b"dir /a 0777 0 0 unc\n", Refused(5, NoParent)),
    (b"dir / 0777 0 0 sec\n", Refused(5, RootLabel)),
    (b"fifo / 0777 0 0 unc\n", Refused(5, RootLabel)),
    (
        b"file / 0777 0 0 unc \"\" cap_kill=e\n",
        Refused(5, RootLabel),
    ),
    (b"dir / 0777 0 0 zzz\n", Refused(5, UnknownName)),
];

// What stands after the root, which is line 5.
const TREES: &[(&[u8], Answer)] = &[
    (b"script\n1@unc", World(7)),
    (b" script # no comment\n", Refused(6, Syntax)),
    (b"script", Ended(6, 6)),
    (b"dir /d 0755 10 10 unc\n", Ended(7, 0)),
    (b"dir /x/y 0755 0 0 unc\n", Refused(6, NoParent)),
    (
        b"\n  \n#\n # \"\ndir /x/y 0755 0 0 unc\n",
        Refused(10, NoParent),
    ),
    (
        b"dir /h 0755 0 0 sec\nfile /h/f 0644 0 0 unc \"\"\n",
        Refused(7, LabelOrder),
    ),
    (
        b"dir /h 0755 0 0 sec:a\nfile /h/f 0644 0 0 sec:b \"\"\n",
        Refused(7, LabelOrder),
    ),
    (b"dir / 0777 0 0 unc\n", Refused(6, Repeated)),
    (b"dir //./ 0777 0 0 unc\n", Refused(6, Repeated)),
    (
        b"file \"/a b\" 0644 0 0 unc \"\"\nfifo \"/a\\x20b\" 0644 0 0 sec\n",
        Refused(7, Repeated),
    ),
    (
        b"file /a 0644 0 0 unc \"\"\ndir /a/b 0 0 0 unc\n",
        Refused(7, NoParent),
    ),
    (b"file /a 0644 0 0 zzz \"\"\n", Refused(6, UnknownName)),
    (b"file /a 0644 0 0 unc:z \"\"\n", Refused(6, UnknownName)),
    (
        b"file /a 0644 0 0 unc \"\"\nfile /a 0644 0 0 zzz \"\"\n",
        Refused(7, UnknownName),
    ),
    (b"file /x/y 0644 0 0 zzz \"\"\n", Refused(6, UnknownName)),
    (
        b"file /a 0644 0 0 unc \"\" \"cap_kill=ep cap_chown=ei\"\n",
        Ended(7, 0),
    ),
    (
        b"file /a 0644 0 0 unc \"\" \"cap_kill=p cap_chown=i\"\n",
        Ended(7, 0),
    ),
    (
        b"file /a 0644 0 0 unc \"\" \"cap_kill=e cap_chown=i\"\n",
        Refused(6, MixedCaps),
    ),
    (b"file /a 0644 0 0 unc \"\" CAP_KILL+ei-e\n", Ended(7, 0)),
    (
        b"file /a 0644 0 0 unc \"\" \"cap_kill=ep cap_chown=i\"\n",
        Refused(6, MixedCaps),
    ),
    (
        b"file /a 0644 0 0 unc \"\" \"cap_kill=ep cap_chown=p\"\n",
        Refused(6, MixedCaps),
    ),
    (
        b"file /a 0644 0 0 unc \"\" cap_kill=e\n",
        Refused(6, MixedCaps),
    ),
    (
        b"file /a 0644 0 0 zzz \"\" cap_kill=e\n",
        Refused(6, UnknownName),
    ),
    (
        b"file / 0644 0 0 unc \"\" cap_kill=e\n",
        Refused(6, Repeated),
    ),
    (
        b"file /x/y 0644 0 0 unc \"\" cap_kill=e\n",
        Refused(6, NoParent),
    ),
    (
        b"dir /h 0755 0 0 sec\nfile /h/f 0644 0 0 unc \"\" cap_kill=e\n",
        Refused(7, LabelOrder),
    ),
    (
        b"file /a 0644 0 0 zzz \"\" \"cap_kill=ep\"\n",
        Refused(6, UnknownName),
    ),
    (
        b"file /a 0644 0 0 unc \"\" \"cap_x=e\"\n",
        Refused(6, UnknownName),
    ),
    (
        b"file / 0644 0 0 unc \"\" \"cap_kill,cap_x=e\"\n",
        Refused(6, UnknownName),
    ),
    (
        b"file /a 0644 0 0 unc \"\" \"cap_x=e +e\"\n",
        Refused(6, UnknownName),
    ),
    (
        b"file /a 0644 0 0 unc \"\" \"+e cap_x=e\"\n",
        Refused(6, Syntax),
    ),
    (b"file /a 0644 0 0 unc \"\" \"\"\n", Refused(6, Syntax)),
    (
        b"file /a 0644 0 0 zzz \"\" \"cap_kill\"\n",
        Refused(6, Syntax),
    ),
    (
        b"file /a 0644 0 0 unc: \"\" \"cap_x=ep\"\n",
        Refused(6, Syntax),
    ),
    (
        b"file a 0644 0 0 zzz \"\" \"cap_x=ep\"\n",
        Refused(6, Syntax),
    ),
    (
        b"proc unc 0 0 - \"cap_mac_read=ep cap_kill=i\"\n",
        Ended(7, 0),
    ),
    (b"proc unc 0 0 - \"=eip\"\n", Ended(7, 0)),
    (b"proc zzz 0 0 - \"cap_mac_read=e\"\n", Refused(6, Syntax)),
    (
        b"proc unc 0 0 - \"cap_kill=ep cap_chown=ei\"\n",
        Refused(6, Syntax),
    ),
    (
        b"proc unc 0 0 - \"cap_kill=e cap_x=e\"\n",
        Refused(6, UnknownName),
    ),
    (b"proc unc 0 0 - \"cap_kill=e-\"\n", Refused(6, Syntax)),
    (b"proc unc 0 0 , \"cap_x=p\"\n", Refused(6, Syntax)),
    (b"proc zzz 0 0 - \"=\"\n", Refused(6, UnknownName)),
    (b"dir a 0755 0 0 unc\n", Refused(6, Syntax)),
    (b"dir /.. 0755 0 0 unc\n", Refused(6, Syntax)),
    (b"dir /a 1755 0 0 unc\n", Refused(6, Syntax)),
    (b"dir /a 0755 4294967296 0 unc\n", Refused(6, Syntax)),
    (b"dir /a 0755 0 0 unc \"\"\n", Refused(6, Syntax)),
    (b"file /a 0755 0 0 unc\n", Refused(6, Syntax)),
    (b"file /a 0755 0 0 unc \"\" = =\n", Refused(6, Syntax)),
    (b"pipe /a 0755 0 0 unc\n", Refused(6, Syntax)),
    (b"dir /a 0755 0 0 unc\r\n", Refused(6, Syntax)),
];

// Texts there with a part that stands many times.
const LONG_TREES: &[(Repeated, Answer)] = &[
    ((b"", b"#", 2048, b"\nscript\n"), World(8)),
    ((b"", b"#", 2049, b"\nscript\n"), Refused(6, Syntax)),
    (
        (b"proc unc 1 1 1", b",1", 15, b" \"=\"\nscript\n"),
        World(8),
    ),
    (
        (b"proc unc 1 1 1", b",1", 16, b" \"=\"\nscript\n"),
        Refused(6, Syntax),
    ),
    ((b"", b"proc sec 1 1 - =\n", 4095, b"script\n"), World(4102)),
    (
        (b"", b"proc sec 1 1 - =\n", 4096, b"script\n"),
        Refused(4101, TooMany),
    ),
];

// Each kind of line, with quoted words, comments and blank lines.
const WHOLE: &[u8] = b"# a world\n\
    world 2\n\
    levels unc conf sec\n\
    \n\
    categories a b\n\
    bound none\n\
    dir / 0777 0 0 unc\n\
    # one entry of each kind\n\
    dir /d 0750 1 2 conf:a\n\
    file \"/d/x y\" 6644 3 4 sec:b,a \"\\x00\\\"\" \"cap_mac_read=ep\"\n\
    fifo /p 10 4294967295 0 unc\n\
    proc conf:a 5 6 7,8 \"=\"\n\
    script\n\
    1@conf:a mac_get_file /d\n";

// The lines before a text, and this text.
fn whole_text(alloc: Global, before: &[u8], text: &[u8]) -> Result<Vec<u8>, NoMemory> {
    let mut bytes = Vec::from_slice(alloc, before)?;
    bytes.extend_from_slice(text)?;
    Ok(bytes)
}

fn repeated(alloc: Global, text: Repeated) -> Result<Vec<u8>, NoMemory> {
    let (prefix, part, times, back) = text;
    let mut bytes = Vec::from_slice(alloc, prefix)?;
    for _ in 0..times {
        bytes.extend_from_slice(part)?;
    }
    bytes.extend_from_slice(back)?;
    Ok(bytes)
}

// What a text in this format gives that is read one line at a time.
fn answered(alloc: Global, due: Format, text: &[u8]) -> Result<Answer, NoMemory> {
    let mut expecting = Expecting::Format(due);
    let mut rest = text;
    let mut number = 1;
    while let Some((line, after)) = next_line(rest) {
        expecting = match parse_line(alloc, expecting, line)? {
            Parsed::Refuses(fault) => return Ok(Refused(number, fault)),
            Parsed::GoesOn(expecting) => expecting,
            Parsed::Begins(_) => return Ok(World(number + 1)),
        };
        rest = after;
        number += 1;
    }
    Ok(Ended(number, rest.len()))
}

// Whether a text in this format is read whole.
fn is_read(alloc: Global, due: Format, text: &[u8]) -> bool {
    match due {
        Format::One => WorldText::read_old(alloc, text).is_ok(),
        Format::Two => WorldText::read(alloc, text).is_ok(),
    }
}

// Whether a text in this format comes out so after the lines before it, and is read whole only where it is a world.
fn comes_out(
    alloc: Global,
    due: Format,
    before: &[u8],
    text: &[u8],
    wanted: Answer,
) -> Result<bool, NoMemory> {
    let text = whole_text(alloc, before, text)?;
    let accepted = is_read(alloc, due, &text);
    Ok(answered(alloc, due, &text)? == wanted && accepted == matches!(wanted, World(_)))
}

// The first of the texts that comes out otherwise, after the lines before each.
fn other(
    alloc: Global,
    due: Format,
    before: &[u8],
    texts: &[(&[u8], Answer)],
) -> Result<Option<usize>, NoMemory> {
    for (place, (text, wanted)) in texts.iter().enumerate() {
        if !comes_out(alloc, due, before, text, *wanted)? {
            return Ok(Some(place));
        }
    }
    Ok(None)
}

// The same for texts with a part that stands many times.
fn other_long(
    alloc: Global,
    before: &[u8],
    texts: &[(Repeated, Answer)],
) -> Result<Option<usize>, NoMemory> {
    for (place, (text, wanted)) in texts.iter().enumerate() {
        let text = repeated(alloc, *text)?;
        if !comes_out(alloc, Format::Two, before, &text, *wanted)? {
            return Ok(Some(place));
        }
    }
    Ok(None)
}

#[test]
fn heads(rt: HostRuntime) -> Result<(), Fail> {
    assert_eq!(rt; other(rt.alloc(), Format::Two, b"", HEADS)?, None);
    Ok(())
}

#[test]
fn old_heads(rt: HostRuntime) -> Result<(), Fail> {
    assert_eq!(rt; other(rt.alloc(), Format::One, b"", OLD_HEADS)?, None);
    Ok(())
}

#[test]
fn long_heads(rt: HostRuntime) -> Result<(), Fail> {
    assert_eq!(rt; other_long(rt.alloc(), b"", LONG_HEADS)?, None);
    Ok(())
}

#[test]
fn roots(rt: HostRuntime) -> Result<(), Fail> {
    assert_eq!(rt; other(rt.alloc(), Format::Two, HEAD, ROOTS)?, None);
    Ok(())
}

#[test]
fn trees(rt: HostRuntime) -> Result<(), Fail> {
    assert_eq!(rt; other(rt.alloc(), Format::Two, HEAD_AND_ROOT, TREES)?, None);
    Ok(())
}

#[test]
fn long_trees(rt: HostRuntime) -> Result<(), Fail> {
    assert_eq!(rt; other_long(rt.alloc(), HEAD_AND_ROOT, LONG_TREES)?, None);
    Ok(())
}

// Whether the third object is the file of the whole world, with the text of its label.
fn has_file(alloc: Global, text: &WorldText) -> Result<bool, NoMemory> {
    let [_, _, file, ..] = text.world.objects.items() else {
        return Ok(false);
    };
    let [_, name] = file.path.components() else {
        return Ok(false);
    };
    let label = mac_to_text(alloc, &text.policy, &file.label)?;
    Ok(
        name.bytes() == b"x y".as_slice()
            && label.as_slice() == b"sec:a,b".as_slice()
            && file.attr.mode == 0o6644
            && matches!(&file.body, Body::File(bytes) if bytes.items() == b"\0\"".as_slice()),
    )
}

#[test]
fn whole(rt: HostRuntime) -> Result<(), Fail> {
    assert_eq!(rt; answered(rt.alloc(), Format::Two, WHOLE)?, World(14));
    let text = WorldText::read(rt.alloc(), WHOLE)?;
    assert!(rt; has_file(rt.alloc(), &text)?);
    Ok(())
}

// A world with so many files of one label.
fn files(alloc: Global, count: u32) -> Result<Vec<u8>, NoMemory> {
    let mut text = Vec::from_slice(alloc, HEAD_AND_ROOT)?;
    for n in 0..count {
        text.extend_from_slice(b"file /")?;
        text.extend_from_slice(n.to_string(alloc)?.as_bytes())?;
        text.extend_from_slice(b" 0644 0 0 unc \"\"\n")?;
    }
    Ok(text)
}

// One object more than a label has numbers.
#[test]
fn many_objects(rt: HostRuntime) -> Result<(), Fail> {
    let text = files(rt.alloc(), 65_535)?;
    assert_eq!(rt;
        answered(rt.alloc(), Format::Two, &text)?,
        Refused(65_540, TooMany)
    );
    Ok(())
}

// A world in another spelling, and in the one form in which worlds are written.
const SPELLED: &[u8] = b"# spaces, escapes and order of words\n\
    \x20world  2\n\
    levels low high\n\
    categories a b\n\
    bound \"CAP_setuid,cap_KILL\"\n\
    dir \"/\" 755 0 0 low\n\
    dir \"//a b/\" 0700 1 2 low\n\
    file \"/a b/x\\\"\" 4644 4294967295 7 high:b,a \"x\\x0A\" \" cap_setuid=ie cap_kill,cap_chown=pe\"\n\
    proc high:a 3 4 5,006 \"cap_setgid=p+i CAP_FOWNER=ep\"\n\
    file /none 0 0 0 low \"\" \"=e-e\"\n\
    fifo /p 0 0 0 high:b\n\
    proc low 0 0 - =\n\
    script\n";

const WRITTEN: &[u8] = b"world 2\n\
    levels low high\n\
    categories a b\n\
    bound cap_kill,cap_setuid\n\
    dir / 0755 0 0 low\n\
    dir \"/a b\" 0700 1 2 low\n\
    file \"/a b/x\\\"\" 4644 4294967295 7 high:a,b \"x\\x0a\" \"cap_chown,cap_kill=ep cap_setuid=ei\"\n\
    file /none 0000 0 0 low \"\"\n\
    fifo /p 0000 0 0 high:b\n\
    proc high:a 3 4 5,6 \"cap_fowner=ep cap_setgid=ip\"\n\
    proc low 0 0 - \"=\"\n\
    script\n";

fn is_written(alloc: Global, text: &[u8], written: &[u8]) -> Result<bool, WorldError> {
    let found = WorldText::read(alloc, text)?.write()?;
    Ok(found.as_slice() == written)
}

#[test]
fn written_round_trip(rt: HostRuntime) -> Result<(), Fail> {
    assert!(rt; is_written(rt.alloc(), SPELLED, WRITTEN)?);
    assert!(rt; is_written(rt.alloc(), WRITTEN, WRITTEN)?);
    Ok(())
}

// A world with grades, as it is written.
const GRADED: &[u8] = b"world 2\n\
    levels unc\n\
    categories a\n\
    grades low mid high\n\
    bound none\n\
    dir / 0777 0 0 unc\n\
    file /l 0666 1 1 unc:a/low \"\"\n\
    proc unc/mid 1 1 - \"=\"\n\
    script\n";

#[test]
fn grades_round_trip(rt: HostRuntime) -> Result<(), Fail> {
    assert!(rt; is_written(rt.alloc(), GRADED, GRADED)?);
    Ok(())
}

// A text in the old format, after its first line, is written as what it says in the format of today.
#[test]
fn old_format_is_written_anew(rt: HostRuntime) -> Result<(), Fail> {
    let old = whole_text(rt.alloc(), b"world 1", &GRADED[7..])?;
    let written = WorldText::read_old(rt.alloc(), &old)?.write()?;
    assert!(rt; written.as_slice() == GRADED);
    Ok(())
}

// A file that the process may not see, in a directory of the process's own label.
const HIDDEN: &[u8] = b"world 2\n\
    levels unc conf sec\n\
    categories a b\n\
    bound all\n\
    dir / 0777 0 0 unc\n\
    dir /d 0755 10 10 unc\n\
    file /d/h 0644 10 10 sec \"\"\n\
    proc unc 10 10 - \"=\"\n\
    script\n";

// How many objects and processes a text has.
fn counts(alloc: Global, text: &[u8]) -> Result<(usize, usize), WorldError> {
    let text = WorldText::read(alloc, text)?;
    Ok((
        text.world.objects.items().len(),
        text.world.procs.items().len(),
    ))
}

#[test]
fn hidden_file_round_trip(rt: HostRuntime) -> Result<(), Fail> {
    let written = WorldText::read(rt.alloc(), HIDDEN)?.write()?;
    assert!(rt; written.as_slice() == HIDDEN);
    assert_eq!(rt; counts(rt.alloc(), &written)?, (3, 1));
    Ok(())
}
