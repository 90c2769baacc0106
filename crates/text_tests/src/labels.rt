// Texts of labels and policies.
use lab_lattice::{Label, Lattice};
use lab_text::LabelError::{Syntax, UnknownCategory, UnknownGrade, UnknownLevel};
use lab_text::*;
use std::alloc::Global;
use std::test::Fail;

fn words(alloc: Global, text: &[u8]) -> Result<Vec<Word>, NoMemory> {
    let mut words = Vec::new(alloc);
    for word in text.split(|byte| *byte == b' ') {
        if !word.is_empty() {
            words.push(Word::new(alloc, word)?)?;
        }
    }
    Ok(words)
}

fn policy_of(
    alloc: Global,
    levels: &[u8],
    cats: &[u8],
    grades: &[u8],
) -> Result<Policy, PolicyError> {
    let levels = words(alloc, levels).map_err(PolicyError::NoMemory)?;
    let cats = words(alloc, cats).map_err(PolicyError::NoMemory)?;
    let grades = words(alloc, grades).map_err(PolicyError::NoMemory)?;
    Policy::new(alloc, &levels, &cats, &grades)
}

fn three_levels(alloc: Global) -> Result<Policy, PolicyError> {
    policy_of(alloc, b"unc conf sec", b"a b", b"")
}

fn three_grades(alloc: Global) -> Result<Policy, PolicyError> {
    policy_of(alloc, b"unc conf sec", b"a b", b"low mid high")
}

// Whether levels and categories, with no grades, make no policy, for this cause.
fn is_refused(alloc: Global, levels: &[u8], cats: &[u8], cause: PolicyError) -> bool {
    match policy_of(alloc, levels, cats, b"") {
        Ok(_) => false,
        Err(found) => found == cause,
    }
}

// Whether these grades make no policy, for this cause.
fn are_refused_grades(alloc: Global, grades: &[u8], cause: PolicyError) -> bool {
    match policy_of(alloc, b"unc", b"", grades) {
        Ok(_) => false,
        Err(found) => found == cause,
    }
}

// Whether a label is written so.
fn is_written(alloc: Global, policy: &Policy, label: &Label, text: &[u8]) -> bool {
    match mac_to_text(alloc, policy, label) {
        Ok(written) => written.as_slice() == text,
        Err(_) => false,
    }
}

// Whether a text denotes the label that is written so.
fn is_label(alloc: Global, policy: &Policy, text: &[u8], canonical: &[u8]) -> bool {
    match mac_from_text(policy, text) {
        Ok(label) => is_written(alloc, policy, &label, canonical),
        Err(_) => false,
    }
}

// Whether a text denotes no label, for this cause.
fn is_no_label(policy: &Policy, text: &[u8], cause: LabelError) -> bool {
    match mac_from_text(policy, text) {
        Ok(_) => false,
        Err(found) => found == cause,
    }
}

#[test]
fn labels(rt: HostRuntime) -> Result<(), Fail> {
    let policy = three_levels(rt.alloc())?;
    assert!(rt; is_label(rt.alloc(), &policy, b"sec:b,a", b"sec:a,b"));
    assert!(rt; is_label(rt.alloc(), &policy, b"unc", b"unc"));
    assert!(rt; is_label(rt.alloc(), &policy, b"sec:a,a,b,a", b"sec:a,b"));
    Ok(())
}

#[test]
fn grades(rt: HostRuntime) -> Result<(), Fail> {
    let policy = three_grades(rt.alloc())?;
    assert!(rt; is_label(rt.alloc(), &policy, b"sec:b,a/low", b"sec:a,b/low"));
    assert!(rt; is_label(rt.alloc(), &policy, b"unc/mid", b"unc/mid"));
    assert!(rt; is_label(rt.alloc(), &policy, b"unc/high", b"unc"));
    assert!(rt; is_label(rt.alloc(), &policy, b"unc", b"unc"));
    Ok(())
}

#[test]
fn malformed_labels(rt: HostRuntime) -> Result<(), Fail> {
    let policy = three_levels(rt.alloc())?;
    assert!(rt; is_no_label(&policy, b"", Syntax(0)));
    assert!(rt; is_no_label(&policy, b"sec:", Syntax(4)));
    assert!(rt; is_no_label(&policy, b"sec:a,", Syntax(6)));
    assert!(rt; is_no_label(&policy, b"zzz:z,", Syntax(6)));
    assert!(rt; is_no_label(&policy, b"9x", Syntax(0)));
    Ok(())
}

#[test]
fn malformed_grades(rt: HostRuntime) -> Result<(), Fail> {
    let policy = three_grades(rt.alloc())?;
    assert!(rt; is_no_label(&policy, b"unc/", Syntax(4)));
    assert!(rt; is_no_label(&policy, b"unc:/low", Syntax(4)));
    assert!(rt; is_no_label(&policy, b"unc/low:a", Syntax(7)));
    assert!(rt; is_no_label(&policy, b"unc/low,mid", Syntax(7)));
    assert!(rt; is_no_label(&policy, b"zzz/z/", Syntax(5)));
    Ok(())
}

#[test]
fn unknown_grades(rt: HostRuntime) -> Result<(), Fail> {
    let policy = three_grades(rt.alloc())?;
    assert!(rt; is_no_label(&policy, b"unc/x", UnknownGrade(4)));
    assert!(rt; is_no_label(&policy, b"sec:a,b/Low", UnknownGrade(8)));
    assert!(rt; is_no_label(&policy, b"sec:z/x", UnknownCategory(4)));
    assert!(rt; is_no_label(&three_levels(rt.alloc())?, b"unc/high", UnknownGrade(4)));
    Ok(())
}

#[test]
fn unknown_names(rt: HostRuntime) -> Result<(), Fail> {
    let policy = three_levels(rt.alloc())?;
    assert!(rt; is_no_label(&policy, b"zzz:z", UnknownLevel(0)));
    assert!(rt; is_no_label(&policy, b"SEC", UnknownLevel(0)));
    assert!(rt; is_no_label(&policy, b"sec:z", UnknownCategory(4)));
    assert!(rt; is_no_label(&policy, b"sec:a,z", UnknownCategory(6)));
    Ok(())
}

#[test]
fn long_names(rt: HostRuntime) -> Result<(), Fail> {
    let policy = three_levels(rt.alloc())?;
    assert!(rt; is_no_label(&policy, &[b'x'; 31], UnknownLevel(0)));
    assert!(rt; is_no_label(&policy, &[b'x'; 32], Syntax(31)));
    Ok(())
}

#[test]
fn bounds_of_two_labels(rt: HostRuntime) -> Result<(), Fail> {
    let policy = three_levels(rt.alloc())?;
    let first = mac_from_text(&policy, b"sec:a")?;
    let second = mac_from_text(&policy, b"conf:b")?;
    assert!(rt; is_written(rt.alloc(), &policy, &first.lub(&second), b"sec:a,b"));
    assert!(rt; is_written(rt.alloc(), &policy, &first.glb(&second), b"conf"));
    Ok(())
}

#[test]
fn bounds_of_two_grades(rt: HostRuntime) -> Result<(), Fail> {
    let policy = three_grades(rt.alloc())?;
    let first = mac_from_text(&policy, b"sec:a/low")?;
    let second = mac_from_text(&policy, b"conf:b/mid")?;
    assert!(rt; is_written(rt.alloc(), &policy, &first.lub(&second), b"sec:a,b/low"));
    assert!(rt; is_written(rt.alloc(), &policy, &first.glb(&second), b"conf/mid"));
    assert!(rt; is_written(rt.alloc(), &policy, &top(&policy), b"sec:a,b/low"));
    assert!(rt; is_written(rt.alloc(), &policy, &bottom(&policy), b"unc"));
    Ok(())
}

#[test]
fn top_and_bottom(rt: HostRuntime) -> Result<(), Fail> {
    let policy = three_levels(rt.alloc())?;
    assert!(rt; is_written(rt.alloc(), &policy, &top(&policy), b"sec:a,b"));
    assert!(rt; is_written(rt.alloc(), &policy, &bottom(&policy), b"unc"));
    assert!(rt; mac_valid(&policy, &top(&policy)));
    Ok(())
}

const CATS_65: &[u8] =
    b"c0 c1 c2 c3 c4 c5 c6 c7 c8 c9 c10 c11 c12 c13 c14 c15 c16 c17 c18 c19 c20 c21 c22 c23 c24 c25 c26 c27 c28 c29 c30 c31 c32 c33 c34 c35 c36 c37 c38 c39 c40 c41 c42 c43 c44 c45 c46 c47 c48 c49 c50 c51 c52 c53 c54 c55 c56 c57 c58 c59 c60 c61 c62 c63 c64";

#[test]
fn policies(rt: HostRuntime) {
    assert!(rt; is_refused(rt.alloc(), b"", b"", PolicyError::Empty));
    assert!(rt; is_refused(rt.alloc(), b"unc", CATS_65, PolicyError::TooMany));
    assert!(rt; is_refused(rt.alloc(), b"9x", b"", PolicyError::BadName));
    assert!(rt; is_refused(rt.alloc(), b"a a", b"", PolicyError::Repeated));
    assert!(rt;
        is_refused(
            rt.alloc(),
            b"a a a a a a a a a a a a a a a a a",
            b"",
            PolicyError::TooMany
        )
    );
    assert!(rt; policy_of(rt.alloc(), b"A a", b"a_ a-", b"").is_ok());
}

#[test]
fn policies_with_grades(rt: HostRuntime) {
    assert!(rt;
        are_refused_grades(
            rt.alloc(),
            b"a b c d e f g h i j k l m n o p a",
            PolicyError::TooMany
        )
    );
    assert!(rt; are_refused_grades(rt.alloc(), b"a 9 a", PolicyError::BadName));
    assert!(rt; are_refused_grades(rt.alloc(), b"a b a", PolicyError::Repeated));
    assert!(rt; policy_of(rt.alloc(), b"a b", b"a b", b"a b").is_ok());
}

// So many names, each of this letter and two more.
fn many_names(alloc: Global, letter: u8, count: u8) -> Result<Vec<Word>, NoMemory> {
    let mut names = Vec::new(alloc);
    for n in 0..count {
        names.push(Word::new(alloc, &[letter, b'a' + n / 26, b'a' + n % 26])?)?;
    }
    Ok(names)
}

// Whether a label is read back from its text.
fn is_read_back(alloc: Global, policy: &Policy, label: &Label) -> bool {
    match mac_to_text(alloc, policy, label) {
        Ok(text) => mac_from_text(policy, &text) == Ok(*label),
        Err(_) => false,
    }
}

#[test]
fn policies_at_their_limits(rt: HostRuntime) -> Result<(), Fail> {
    let levels = many_names(rt.alloc(), b'l', 16)?;
    let cats = many_names(rt.alloc(), b'c', 64)?;
    let grades = many_names(rt.alloc(), b'g', 16)?;
    let policy = Policy::new(rt.alloc(), &levels, &cats, &grades)?;
    assert!(rt; is_read_back(rt.alloc(), &policy, &top(&policy)));
    assert!(rt; is_read_back(rt.alloc(), &policy, &bottom(&policy)));
    assert!(rt; is_label(rt.alloc(), &policy, b"lap:ccl,caa/gaa", b"lap:caa,ccl/gaa"));
    assert!(rt; is_label(rt.alloc(), &policy, b"laa/gap", b"laa"));
    Ok(())
}

#[test]
fn number_drawn_at_a_label(rt: HostRuntime) -> Result<(), Fail> {
    let policy = three_levels(rt.alloc())?;
    let label = mac_from_text(&policy, b"sec:b,a")?;
    let mut text = Vec::new(rt.alloc());
    put_numbered(&mut text, &policy, 4_095, &label)?;
    assert!(rt; text.as_slice() == b"4095@sec:a,b".as_slice());
    Ok(())
}
