// The standard descriptors, before the first file is opened.
use std::fs::{self, OpenOptions};
use std::io;
use std::os::fd::{AsRawFd, IntoRawFd};
use std::os::unix::fs::MetadataExt;

// What takes the place of a closed descriptor. There is no use of it that reads or writes bytes.
const NOWHERE: &str = "/dev/null";

// Opens a file at a descriptor that is closed, where no lower one is. Standard input can't be read then, and standard
// output not be written, as where they are closed.
fn fill_if_closed(rt: &HostRuntime, descriptor: i32) -> io::Result<()> {
    let is_output = descriptor == rt.stdout().as_raw_fd();
    let file = OpenOptions::new()
        .read(is_output)
        .write(!is_output)
        .open(rt, NOWHERE)?;
    if file.as_raw_fd() == descriptor {
        file.into_raw_fd();
    }
    Ok(())
}

/// Opens a file at each standard descriptor that is closed, so that no file of the run takes its place.
pub fn fill_closed(rt: &HostRuntime) {
    for descriptor in 0..3 {
        if fill_if_closed(rt, descriptor).is_err() {
            return;
        }
    }
}

// Whether a path leads to the regular file that a standard descriptor refers to, by its own path.
fn is_file_at(rt: &HostRuntime, path: &str, standard: &str) -> io::Result<bool> {
    let named = fs::metadata(rt, path)?;
    let opened = fs::metadata(rt, standard)?;
    Ok(named.is_file() && named.dev() == opened.dev() && named.ino() == opened.ino())
}

/// The name of the standard input or output, where that is the regular file of a path: what is written to the file
/// would overwrite what is read or written there.
pub fn standard_file(rt: &HostRuntime, path: &str) -> Option<&'static str> {
    if is_file_at(rt, path, "/dev/stdin").unwrap_or(false) {
        return Some("standard input");
    }
    if is_file_at(rt, path, "/dev/stdout").unwrap_or(false) {
        return Some("standard output");
    }
    None
}
