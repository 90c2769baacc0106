// Runs over the other ends: those that never fail, and files.
use super::{ANSWERS, INPUT, TRAIL};
use crate::{Status, run};
use io_ends::{FileSink, FileSource, SureSink, SureSource};
use std::alloc::{AllocError, Global};
use std::fs::{self, File};
use std::io;
use std::test::Fail;

// A world and a script whose call needs no capability.
const PLAIN: &[u8] = b"world 2\n\
    levels unc conf sec\n\
    categories a b\n\
    bound all\n\
    dir / 0777 0 0 unc\n\
    file /a 0644 10 10 sec \"hello\"\n\
    proc sec 10 10 - \"=\"\n\
    script\n\
    1@sec mac_get_file /a\n";

// The words of `play`, with the name of the trail's file.
fn words_of_play(alloc: Global, name: &str) -> Result<Vec<String>, AllocError> {
    let mut words = Vec::new(alloc);
    words.push(String::from_str(alloc, "play")?)?;
    words.push(String::from_str(alloc, name)?)?;
    Ok(words)
}

#[test]
fn a_run_over_ends_that_never_fail_is_done(rt: HostRuntime) -> Result<(), Fail> {
    let alloc = rt.alloc();
    let words = words_of_play(alloc, "trail.out")?;
    let mut source = SureSource::new(PLAIN.to_vec(alloc)?);
    let mut out = SureSink::new();
    let mut trail = SureSink::new();
    let status = run(alloc, &words, &mut source, &mut out, &mut trail);
    assert!(rt; status == Status::Done);
    Ok(())
}

// What `play` leaves of an input in a file: the status, with the output and the trail in files of these names.
fn played_over_files(rt: HostRuntime, input: &str, out: &str, trail: &str) -> io::Result<Status> {
    let alloc = rt.alloc();
    let words = words_of_play(alloc, trail)?;
    let mut source = FileSource::new(File::open(&rt, input)?);
    let mut replies = FileSink::named(rt, String::from_str(alloc, out)?);
    let mut records = FileSink::named(rt, String::from_str(alloc, trail)?);
    Ok(run(alloc, &words, &mut source, &mut replies, &mut records))
}

// Whether the file of this name has these pieces. It is removed.
fn had(rt: HostRuntime, name: &str, pieces: &[&[u8]]) -> io::Result<bool> {
    let found = fs::read(&rt, name)?;
    fs::remove_file(&rt, name)?;
    Ok(found == pieces.concat(rt.alloc())?)
}

#[test]
fn files_have_what_a_run_writes(rt: HostRuntime) -> io::Result<()> {
    let (input, out, trail) = ("labsys_input", "labsys_out", "labsys_trail");
    fs::write(&rt, input, INPUT)?;
    let status = played_over_files(rt, input, out, trail)?;
    assert!(rt; status == Status::Done);
    assert!(rt; had(rt, out, ANSWERS)?);
    assert!(rt; had(rt, trail, TRAIL)?);
    assert!(rt; had(rt, input, &[INPUT])?);
    Ok(())
}
