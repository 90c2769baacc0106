// Standard input and output, and files. What a system call does is not proved, so these sources and
// sinks do not report their bytes.
ghost use Rattle.std.specs.Prelude.{◌≡◌, ◌<◌, ◌≤◌, [], None, Ok, length, is_ok, if◌then◌else◌, IfOk};
ghost use Rattle.std.specs.Io.{ReadsAtMost, WritesAtMost};
ghost use Rattle.std.specs.Io.KnownBytes.{ReadConsumes, WriteAppends};
ghost use Rattle.io_ends.specs.Faults.{CountsFault, next_count};

use crate::ends::count_fault;
use crate::{Failed, Sink, Source};
use std::fs;
use std::io::{self, ErrorKind, Read, Write};
use std::marker::Model;
use std::rt::Files;

/// A source over standard input, as the runtime's `reader()` returns it, or over a file that is open
/// for reading. Each read that the system refuses is a fault. One that a signal interrupted is made
/// again.
#[derive(Drop)]
pub struct FileSource<R: Read> {
    reader: R,
    faults: u64,
    error: Option<io::Error>,
}

impl<R: Read> Model for FileSource<R> {
    ghost use Rattle.io_ends.specs.Files.{ReaderState};

    ghost Value = { ReaderState };

    ghost view = { λ a. record { reported = R.remaining a.reader; faults = a.faults } };
}

impl<R: Read> FileSource<R> {
    /// A source of the bytes of a reader.
    pub fn new(reader: R) -> Self
        ensures { result ≡ record { reported = R.remaining reader; faults = 0 } }
    {
        FileSource {
            reader,
            faults: 0,
            error: None,
        }
    }

    /// The error of the last fault, if there was one. No contract speaks of it.
    pub fn error(&self) -> Option<io::Error> {
        self.error
    }
}

// A read, made again as long as signals interrupt it.
fn read_again<R: Read>(reader: &mut R, buf: &mut [u8]) -> io::Result<usize>
    ensures bound { ReadsAtMost result buf.new }
    ensures bytes { ReadConsumes (R.remaining reader.old) (R.remaining reader.new) result buf.new }
{
    for _ in 0..u64::MAX {
        match reader.read(buf) {
            Err(e) if e.kind() == ErrorKind::Interrupted => {}
            read => return read,
        }
    }
    reader.read(buf)
}

impl<R: Read> Source for FileSource<R> {
    ghost view = { λ s. record { left = None; faults = s.faults } };

    fn read(&mut self, buf: &mut [u8]) -> Result<usize, Failed>
        ensures bound { ReadsAtMost result buf.new }
        ensures bytes { ReadConsumes None None result buf.new }
        ensures counts { CountsFault self.old.faults self.new.faults result }

        // It returns the bytes of its reader.
        ensures given { ReadConsumes self.old.reported self.new.reported result buf.new }
    {
        match read_again(&mut self.reader, buf) {
            Ok(count) => Ok(count),
            Err(error) => {
                self.error = Some(error);
                Err(count_fault(&mut self.faults))
            }
        }
    }
}

// Where a sink's bytes go.
#[derive(Drop)]
enum Place<F> {
    Standard,
    Named(String),
    Opened(F),
}

/// A sink over standard output, or over a named file. Each write that the system refuses is a
/// fault, and so is one that takes no byte of a piece that is not empty. One that a signal
/// interrupted is made again. It is not buffered: each write calls the system before it returns.
#[derive(Drop)]
pub struct FileSink<R: Files> {
    rt: R,
    place: Place<R::File>,
    faults: u64,
    error: Option<io::Error>,
}

impl<R: Files> Model for FileSink<R> {
    ghost use Rattle.std.specs.Prelude.{ℕ};

    ghost Value = { ℕ };

    ghost view = { λ a. a.faults };
}

impl<R: Files + Print> FileSink<R> {
    /// A sink over standard output.
    pub fn stdout(rt: R) -> Self
        ensures { result ≡ 0 }
    {
        FileSink {
            rt,
            place: Place::Standard,
            faults: 0,
            error: None,
        }
    }

    /// A sink over the file of this name. The first write of a piece that is not empty creates the
    /// file, or truncates it where it exists. Where that fails, the next such write tries again.
    pub fn named(rt: R, name: String) -> Self
        ensures { result ≡ 0 }
    {
        FileSink {
            rt,
            place: Place::Named(name),
            faults: 0,
            error: None,
        }
    }

    /// The error of the last fault, if there was one that the system gave. No contract speaks of it.
    pub fn error(&self) -> Option<io::Error> {
        self.error
    }
}

// One write of a piece.
fn write_some<R: Files + Print>(
    rt: &R,
    place: &mut Place<R::File>,
    piece: &[u8],
) -> io::Result<usize>
    ensures { IfOk result (λ n. n ≤ length piece.now) }
{
    match place {
        Place::Standard => rt.write_some(piece),
        Place::Opened(file) => file.write(piece),
        Place::Named(name) => {
            let mut file = fs::create(rt, name.as_str())?;
            let written = file.write(piece);
            *place = Place::Opened(file);
            written
        }
    }
}

// A write of a piece, made again as long as signals interrupt it.
fn write_again<R: Files + Print>(
    rt: &R,
    place: &mut Place<R::File>,
    piece: &[u8],
) -> io::Result<usize>
    ensures { IfOk result (λ n. n ≤ length piece.now) }
{
    for _ in 0..u64::MAX {
        match write_some(rt, place, piece) {
            Err(e) if e.kind() == ErrorKind::Interrupted => {}
            written => return written,
        }
    }
    write_some(rt, place, piece)
}

impl<R: Files + Print> Sink for FileSink<R> {
    ghost view = { λ s. record { held = None; faults = s } };

    fn write(&mut self, piece: &[u8]) -> Result<usize, Failed>
        ensures bound { WritesAtMost result piece.now }
        ensures some { IfOk result (λ n. 0 < length piece.now → 0 < n) }
        ensures empty { piece.now ≡ [] → result ≡ Ok 0 }
        ensures bytes { WriteAppends None None result piece.now }
        ensures counts { CountsFault self.old self.new result }
    {
        if piece.is_empty() {
            return Ok(0);
        }
        match write_again(&self.rt, &mut self.place, piece) {
            Ok(count) if count > 0 => Ok(count),
            written => {
                self.error = written.err();
                Err(count_fault(&mut self.faults))
            }
        }
    }
}
