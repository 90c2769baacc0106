// What no clause says: which texts are read, and what a header looks like. The cases have the records that runs write.
use aud_record::HeaderError::{Form, Name};
use aud_record::RecError::{Syntax, Truncated, UnknownWord};
use aud_record::*;
use cap_bits::{Cap, CapSet};
use lab_text::{Policy, Word};
use std::alloc::Global;
use std::test::Fail;

// A text, and how many bytes the record has with which it begins, or why there is none.
const TEXTS: [(&[u8], Result<usize, RecError>); 38] = [
    (
        b"1 exercise 1@unc unc cap_mac_read mac_read obj:1@sec sec - p1\n",
        Ok(62),
    ),
    (
        b"1 exercise 1@unc unc cap_mac_read mac_read obj:1@sec sec - p1",
        Err(Truncated),
    ),
    (
        b"1 exercise 1@unc unc cap_zzz mac_read obj:1@sec sec - p1\n",
        Err(UnknownWord(21)),
    ),
    (
        b"1 exercise 1@unc unc cap_mac_read mac_read obj:1@sec sec - p1\nand more",
        Ok(62),
    ),
    (b"", Err(Truncated)),
    (b"0 boot 1@unc unc \"=\"\n", Ok(21)),
    (b"1 frob 1@unc\n", Err(UnknownWord(2))),
    (b"1 exit 1@unc stop 3\n", Err(UnknownWord(13))),
    (b"1 exit 1@unc kill INT\n", Err(UnknownWord(18))),
    (b"1 switch 1@unc maybe\n", Err(UnknownWord(15))),
    (b"1 fork 1@unc 2@zzz\n", Err(Syntax(13))),
    (b"1 fork 1@zzz 2@unc\n", Err(Syntax(7))),
    (
        b"1 deny 1@unc frob EACCES mac_read p1\n",
        Err(UnknownWord(13)),
    ),
    (b"1 deny 1@unc open EIO mac_read p1\n", Err(UnknownWord(18))),
    (
        b"1 deny 1@unc open EACCES mac_look p1\n",
        Err(UnknownWord(25)),
    ),
    (b"1 note 1@unc \"a\\x0a\\\"b\\\"\"\n", Ok(26)),
    // A word too many or too few, and a space too many.
    (b"1 fork 1@unc 2@unc 3@unc\n", Err(Syntax(19))),
    (b"1 fork 1@unc 2@unc \n", Err(Syntax(19))),
    (b"1 fork 1@unc\n", Err(Syntax(12))),
    (b"1 fork 1@unc \n", Err(Syntax(13))),
    (b"1  fork 1@unc 2@unc\n", Err(Syntax(2))),
    (b" 1 fork 1@unc 2@unc\n", Err(Syntax(0))),
    (b"\n", Err(Syntax(0))),
    (b"1 \n", Err(Syntax(2))),
    // Other spellings of numbers, labels, names and quoted words.
    (b"01 fork 1@unc 2@unc\n", Err(Syntax(0))),
    (b"+1 fork 1@unc 2@unc\n", Err(Syntax(0))),
    (b"1 fork 01@unc 2@unc\n", Err(Syntax(7))),
    (b"1 fork 65536@unc 2@unc\n", Err(Syntax(7))),
    (b"18446744073709551615 fork 65535@unc 0@sec:a,b\n", Ok(46)),
    (b"18446744073709551616 fork 1@unc 2@unc\n", Err(Syntax(0))),
    (b"1 fork 1@unc 2@sec:b,a\n", Err(Syntax(13))),
    (
        b"1 exercise 1@unc unc CAP_MAC_READ mac_read obj:1@sec sec - p1\n",
        Err(UnknownWord(21)),
    ),
    (b"1 note 1@unc \"\\x41\"\n", Err(Syntax(13))),
    (b"1 note 1@unc \"\\x0A\"\n", Err(Syntax(13))),
    (b"1 note 1@unc a\n", Err(Syntax(13))),
    (b"1 note 1@unc \"a\"b\n", Err(Syntax(16))),
    (
        b"1 cap_set_proc 1@unc \"cap_kill=p cap_chown=p\"\n",
        Err(Syntax(21)),
    ),
    (b"1 exit 1@unc exit 256\n", Err(Syntax(18))),
];

fn words(alloc: Global, names: &[&[u8]]) -> Result<Vec<Word>, NoMemory> {
    let mut words = Vec::new(alloc);
    for name in names {
        words.push(Word::new(alloc, name)?)?;
    }
    Ok(words)
}

fn policy(alloc: Global, cats: &[&[u8]], grades: &[&[u8]]) -> Result<Policy, Fail> {
    let levels = words(alloc, &[b"unc", b"conf", b"sec"])?;
    let cats = words(alloc, cats)?;
    let grades = words(alloc, grades)?;
    Ok(
        Policy::new(alloc, &levels, &cats, &grades)
            .ok()
            .ok_or("a policy")?,
    )
}

// The first text that comes out otherwise.
fn other(alloc: Global, policy: &Policy) -> Option<usize> {
    TEXTS.iter().position(|(text, wanted)| {
        rec_read(alloc, policy, text).map(|read| read.used) != *wanted
    })
}

#[test]
fn texts(rt: HostRuntime) -> Result<(), Fail> {
    let policy = policy(rt.alloc(), &[b"a", b"b"], &[])?;
    assert_eq!(rt; other(rt.alloc(), &policy), None);
    Ok(())
}

// Texts, and how many bytes of each the header has, or which line of it is at fault.
const HEADERS: [(&[u8], Result<usize, HeaderError>); 18] = [
    (
        b"trail 1\nlevels unc sec\ncategories a b\nbound cap_kill,cap_setuid\n0 boot",
        Ok(64),
    ),
    (b"trail 1\nlevels unc\ncategories\nbound all\n", Ok(40)),
    (b"", Err(Form(1))),
    (
        b"trail 2\nlevels unc\ncategories\nbound all\n",
        Err(Form(1)),
    ),
    (b"trail 1\nlevels\ncategories\nbound all\n", Err(Form(2))),
    (b"trail 1\nlevels unc", Err(Form(2))),
    (
        b"trail 1\nlevels unc  sec\ncategories\nbound all\n",
        Err(Form(2)),
    ),
    (
        b"trail 1\nlevels unc unc\ncategories\nbound all\n",
        Err(Name(2)),
    ),
    (
        b"trail 1\nlevels unc\ncategory a\nbound all\n",
        Err(Form(3)),
    ),
    (
        b"trail 1\nlevels unc\ncategories a a\nbound all\n",
        Err(Name(3)),
    ),
    (
        b"trail 1\nlevels unc\ncategories\nbound ALL\n",
        Err(Form(4)),
    ),
    (b"trail 1\nlevels unc\ncategories\nbound\n", Err(Form(4))),
    (b"trail 1\nlevels unc\ncategories\nbound all", Err(Form(4))),
    (
        b"trail 1\nlevels unc\ncategories\nbound cap_x\n",
        Err(Name(4)),
    ),
    (
        b"trail 1\nlevels unc\ncategories\ngrades low high\nbound all\n",
        Ok(56),
    ),
    (
        b"trail 1\nlevels unc\ncategories\ngrades\nbound all\n",
        Err(Form(4)),
    ),
    (
        b"trail 1\nlevels unc\ncategories\ngrades low low\nbound all\n",
        Err(Name(4)),
    ),
    (
        b"trail 1\nlevels unc\ncategories\ngrades low\nbound cap_x\n",
        Err(Name(5)),
    ),
];

// The first text whose header comes out otherwise.
fn other_header(alloc: Global) -> Option<usize> {
    HEADERS.iter().position(|(text, wanted)| header_read(alloc, text).map(|header| header.used)
        != *wanted)
}

#[test]
fn header_texts(rt: HostRuntime) -> Result<(), Fail> {
    assert_eq!(rt; other_header(rt.alloc()), None);
    Ok(())
}

fn is_header(alloc: Global, policy: &Policy, bound: &CapSet, text: &[u8]) -> Result<bool, Fail> {
    let header = header_text(alloc, policy, bound)?;
    Ok(header.as_slice() == text)
}

#[test]
fn headers(rt: HostRuntime) -> Result<(), Fail> {
    let bound = CapSet::none().with(Cap::Kill).with(Cap::Setuid);
    assert!(rt;
        is_header(
            rt.alloc(),
            &policy(rt.alloc(), &[b"a", b"b"], &[])?,
            &bound,
            b"trail 1\nlevels unc conf sec\ncategories a b\nbound cap_kill,cap_setuid\n"
        )?
    );
    assert!(rt;
        is_header(
            rt.alloc(),
            &policy(rt.alloc(), &[], &[])?,
            &CapSet::all(),
            b"trail 1\nlevels unc conf sec\ncategories\nbound all\n"
        )?
    );
    assert!(rt;
        is_header(
            rt.alloc(),
            &policy(rt.alloc(), &[], &[b"low", b"high"])?,
            &CapSet::all(),
            b"trail 1\nlevels unc conf sec\ncategories\ngrades low high\nbound all\n"
        )?
    );
    Ok(())
}
