// Lines and values, read and written.
use fs_path::{
    NoMemory, groups_of, is_blank, mode_of, number_of, put_groups, put_mode, put_number,
    put_quoted, put_word, words_of,
};
use std::alloc::Global;

// The words of a line, each after a quote where it is quoted, and before a comma.
fn parsed(alloc: Global, line: &[u8]) -> Result<Option<Vec<u8>>, NoMemory> {
    let Some(words) = words_of(alloc, line)? else {
        return Ok(None);
    };
    let mut text = Vec::new(alloc);
    for word in words.items() {
        if word.quoted {
            text.push(b'"')?;
        }
        text.extend_from_slice(word.bytes.items())?;
        text.push(b',')?;
    }
    Ok(Some(text))
}

fn is_read(alloc: Global, line: &[u8], words: &[u8]) -> bool {
    match parsed(alloc, line) {
        Ok(Some(found)) => found.as_slice() == words,
        _ => false,
    }
}

fn is_refused(alloc: Global, line: &[u8]) -> bool {
    match words_of(alloc, line) {
        Ok(words) => words.is_none(),
        Err(_) => false,
    }
}

#[test]
fn lines_are_read_as_words(rt: HostRuntime) {
    assert!(rt; is_read(rt.alloc(), b"   ", b""));
    assert!(rt; is_read(rt.alloc(), b"  a   #'{} ", b"a,#'{},"));
    assert!(rt; is_read(rt.alloc(), b" \"a b\" \"\" ", b"\"a b,\","));
    assert!(rt; is_read(rt.alloc(), br#""\"\\\x20\xFf\x0a""#, b"\"\"\\ \xff\n,"));
}

#[test]
fn lines_of_no_form_are_refused(rt: HostRuntime) {
    assert!(rt; is_refused(rt.alloc(), b"\"a"));
    assert!(rt; is_refused(rt.alloc(), br#""a""b""#));
    assert!(rt; is_refused(rt.alloc(), br#""\x4g""#));
    assert!(rt; is_refused(rt.alloc(), b"a\tb"));
    assert!(rt; is_refused(rt.alloc(), b"\"\x80\""));
}

#[test]
fn blank_lines(rt: HostRuntime) {
    assert!(rt; is_blank(b"  "));
    assert!(rt; is_blank(b"  #a"));
    assert!(rt; !is_blank(b" a #"));
}

#[test]
fn numbers_and_modes(rt: HostRuntime) {
    assert!(rt; number_of(b"0000000042") == Some(42));
    assert!(rt; number_of(b"4294967296").is_none());
    assert!(rt; mode_of(b"6777") == Some(0o6777));
    assert!(rt; mode_of(b"1000").is_none());
}

fn are_groups(alloc: Global, word: &[u8], numbers: &[u32]) -> bool {
    match groups_of(alloc, word) {
        Ok(Some(groups)) => groups.items() == numbers,
        _ => false,
    }
}

#[test]
fn groups(rt: HostRuntime) {
    assert!(rt; are_groups(rt.alloc(), b"-", &[]));
    assert!(rt; are_groups(rt.alloc(), b"7,0,4294967295", &[7, 0, 4_294_967_295]));
}

fn is_word(alloc: Global, word: &[u8], text: &[u8]) -> bool {
    let mut written = Vec::new(alloc);
    put_word(&mut written, word).is_ok() && written.as_slice() == text
}

fn is_number(alloc: Global, number: u64, text: &[u8]) -> bool {
    let mut written = Vec::new(alloc);
    put_number(&mut written, number).is_ok() && written.as_slice() == text
}

fn is_mode(alloc: Global, mode: u16, text: &[u8]) -> bool {
    let mut written = Vec::new(alloc);
    put_mode(&mut written, mode).is_ok() && written.as_slice() == text
}

fn is_list(alloc: Global, numbers: &[u32], text: &[u8]) -> bool {
    let mut written = Vec::new(alloc);
    put_groups(&mut written, numbers).is_ok() && written.as_slice() == text
}

#[test]
fn writing(rt: HostRuntime) {
    assert!(rt; is_word(rt.alloc(), b"a~b", b"a~b"));
    assert!(rt; is_word(rt.alloc(), b"", b"\"\""));
    assert!(rt;
        is_word(
            rt.alloc(),
            b"a ~\"\\\n\x7f\xff",
            br#""a ~\"\\\x0a\x7f\xff""#
        )
    );
    assert!(rt; is_number(rt.alloc(), u64::MAX, b"18446744073709551615"));
    assert!(rt; is_mode(rt.alloc(), 0o6041, b"6041"));
    assert!(rt; is_list(rt.alloc(), &[], b"-"));
    assert!(rt; is_list(rt.alloc(), &[10, 0, 4_294_967_295], b"10,0,4294967295"));
}

#[test]
fn a_bare_word_is_quoted(rt: HostRuntime) {
    let mut written = Vec::new(rt.alloc());
    assert!(rt; put_quoted(&mut written, b"a").is_ok());
    assert!(rt; written.as_slice() == b"\"a\"".as_slice());
}
