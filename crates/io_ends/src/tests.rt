use super::*;
use std::alloc::AllocError;
use std::fs::{self, File};
use std::io::{self, Read};

// Whether these bytes were read, and whether the source had more.
fn is_whole(read: Result<Whole, ReadError>, bytes: &[u8], more: bool) -> bool {
    match read {
        Ok(whole) => whole.bytes.items() == bytes && whole.more == more,
        Err(_) => false,
    }
}

// Whether the file of this name holds these bytes.
fn holds(rt: HostRuntime, name: &str, bytes: &[u8]) -> bool {
    match fs::read(&rt, name) {
        Ok(found) => found.as_slice() == bytes,
        Err(_) => false,
    }
}

#[test]
fn a_list_keeps_what_is_pushed(rt: HostRuntime) {
    let mut list = ByteList::new(rt.alloc());
    assert!(rt; list.push(7).is_ok());
    assert!(rt; list.items() == [7u8].as_slice());
}

#[test]
fn a_whole_piece_is_written(rt: HostRuntime) -> Result<(), AllocError> {
    let mut sink = MemSink::new(rt.alloc(), 8, Vec::new(rt.alloc()))?;
    assert!(rt; write_whole(&mut sink, b"hello").is_ok());
    assert!(rt; sink.bytes() == b"hello".as_slice());
    Ok(())
}

#[test]
fn whole_bytes_stop_at_the_limit(rt: HostRuntime) -> Result<(), AllocError> {
    let bytes = b"hello".to_vec(rt.alloc())?;
    let mut source = MemSource::new(bytes, Vec::new(rt.alloc()));
    let read = read_whole(rt.alloc(), &mut source, 4);
    assert!(rt; is_whole(read, b"hell", true));
    Ok(())
}

#[test]
fn whole_bytes_take_several_reads(rt: HostRuntime) -> Result<(), AllocError> {
    let bytes = vec![in rt.alloc(); 7u8; 10_000]?;
    let mut source = SureSource::new(bytes.as_slice().to_vec(rt.alloc())?);
    let read = read_whole(rt.alloc(), &mut source, 10_000);
    assert!(rt; is_whole(read, &bytes, false));
    Ok(())
}

#[test]
fn a_sure_sink_takes_a_piece(rt: HostRuntime) {
    assert!(rt; SureSink::new().write(b"hello") == Ok(5));
}

#[test]
fn a_file_is_made_at_the_first_write(rt: HostRuntime) -> io::Result<()> {
    let name = "io_ends_made";
    let _ = fs::remove_file(&rt, name);
    let mut sink = FileSink::named(rt, String::from_str(rt.alloc(), name)?);
    assert!(rt; sink.write(b"") == Ok(0));
    assert!(rt; File::open(&rt, name).is_err());
    assert!(rt; write_whole(&mut sink, b"hello").is_ok());
    assert!(rt; write_whole(&mut sink, b" world").is_ok());
    assert!(rt; holds(rt, name, b"hello world"));
    fs::remove_file(&rt, name)
}

#[test]
fn a_file_that_exists_is_truncated(rt: HostRuntime) -> io::Result<()> {
    let name = "io_ends_again";
    fs::write(&rt, name, "hello")?;
    let mut sink = FileSink::named(rt, String::from_str(rt.alloc(), name)?);
    assert!(rt; holds(rt, name, b"hello"));
    assert!(rt; sink.write(b"new") == Ok(3));
    assert!(rt; holds(rt, name, b"new"));
    fs::remove_file(&rt, name)
}

#[test]
fn a_file_is_read_to_its_end(rt: HostRuntime) -> io::Result<()> {
    let name = "io_ends_source";
    fs::write(&rt, name, "hello")?;
    let mut source = FileSource::new(File::open(&rt, name)?);
    let read = read_whole(rt.alloc(), &mut source, 100);
    assert!(rt; is_whole(read, b"hello", false));
    fs::remove_file(&rt, name)
}

#[test]
fn a_folder_is_not_read(rt: HostRuntime) -> io::Result<()> {
    let mut folder = FileSource::new(File::open(&rt, ".")?);
    assert!(rt; folder.read(&mut [0u8; 4]) == Err(Failed));
    Ok(())
}

#[test]
fn a_file_of_no_folder_is_not_made(rt: HostRuntime) -> io::Result<()> {
    let name = String::from_str(rt.alloc(), "no_such_folder/file")?;
    let mut sink = FileSink::named(rt, name);
    assert!(rt; sink.write(b"hello") == Err(Failed));
    Ok(())
}

#[test]
fn a_piece_goes_to_standard_output(rt: HostRuntime) {
    let mut sink = FileSink::stdout(rt);
    assert!(rt; write_whole(&mut sink, b"a piece\n").is_ok());
}

// A reader that gives a byte at each call but the second, which fails.
#[derive(Drop)]
struct Flaky {
    calls: u8,
}

impl Read for Flaky {
    fn read(&mut self, buf: &mut [u8]) -> io::Result<usize> {
        self.calls = self.calls.saturating_add(1);
        if self.calls == 2 {
            return Err(io::Error::from(io::ErrorKind::Other));
        }
        match buf.first_mut() {
            Some(first) => {
                *first = self.calls;
                Ok(1)
            }
            None => Ok(0),
        }
    }
}

#[test]
fn a_read_that_fails_takes_nothing(rt: HostRuntime) {
    let mut source = FileSource::new(Flaky { calls: 0 });
    let mut buf = [0u8; 2];
    assert!(rt; source.read(&mut buf) == Ok(1));
    assert!(rt; source.read(&mut buf) == Err(Failed));
    assert!(rt;
        source
            .error()
            .is_some_and(|e| e.kind() == io::ErrorKind::Other)
    );
    assert!(rt; buf == [1, 0]);
    assert!(rt; source.read(&mut buf) == Ok(1));
    assert!(rt; buf == [3, 0]);
}

// A reader whose first call a signal interrupts.
#[derive(Drop)]
struct Interrupted {
    calls: u8,
}

impl Read for Interrupted {
    fn read(&mut self, _buf: &mut [u8]) -> io::Result<usize> {
        self.calls = self.calls.saturating_add(1);
        if self.calls == 1 {
            return Err(io::Error::from(io::ErrorKind::Interrupted));
        }
        Ok(0)
    }
}

#[test]
fn a_read_that_is_interrupted_is_made_again(rt: HostRuntime) {
    let mut source = FileSource::new(Interrupted { calls: 0 });
    assert!(rt; source.read(&mut [0u8; 2]) == Ok(0));
    assert!(rt; source.error().is_none());
}

#[test]
fn a_read_that_fails_ends_in_an_error(rt: HostRuntime) {
    let mut source = FileSource::new(Flaky { calls: 0 });
    let read = read_whole(rt.alloc(), &mut source, 4);
    assert!(rt; read.err() == Some(ReadError::Failed));
}

// Whether the next answer is this one, and then lends this line.
fn answers<S: Source>(lines: &mut Lines, source: &mut S, next: Next, line: &[u8]) -> bool {
    lines.more() && lines.next(source) == Ok(next) && lines.line() == line
}

// Whether these lines come next, and then this answer.
fn gives<S: Source>(lines: &mut Lines, source: &mut S, wanted: &[&[u8]], last: Next) -> bool {
    for line in wanted {
        if !answers(lines, source, Next::Line, line) {
            return false;
        }
    }
    answers(lines, source, last, b"")
}

#[test]
fn lines_are_read_one_after_another(rt: HostRuntime) -> Result<(), AllocError> {
    let mut source = SureSource::new(b"one\n\ntwo\n".to_vec(rt.alloc())?);
    let mut lines = Lines::new(rt.alloc(), 9)?;
    let given = gives(&mut lines, &mut source, &[b"one", b"", b"two"], Next::End);
    assert!(rt; given && !lines.more());
    Ok(())
}

#[test]
fn a_line_that_is_not_ended_is_no_line(rt: HostRuntime) -> Result<(), AllocError> {
    let mut source = SureSource::new(b"one\ntwo".to_vec(rt.alloc())?);
    let mut lines = Lines::new(rt.alloc(), 7)?;
    let given = gives(&mut lines, &mut source, &[b"one"], Next::Unended);
    assert!(rt; given && lines.number() == 2);
    Ok(())
}

#[test]
fn lines_past_the_limit_are_too_much(rt: HostRuntime) -> Result<(), AllocError> {
    let mut source = SureSource::new(b"one\ntwo\n".to_vec(rt.alloc())?);
    let mut lines = Lines::new(rt.alloc(), 7)?;
    assert!(rt; gives(&mut lines, &mut source, &[b"one"], Next::TooMuch));
    Ok(())
}

#[test]
fn a_line_has_at_most_2048_bytes(rt: HostRuntime) -> Result<(), AllocError> {
    let mut bytes = vec![in rt.alloc(); 7u8; 4098]?;
    bytes[2048] = b'\n';
    let mut source = SureSource::new(bytes);
    let mut lines = Lines::new(rt.alloc(), 4098)?;
    assert!(rt; gives(&mut lines, &mut source, &[&[7u8; 2048]], Next::LongLine));
    Ok(())
}

// Whether so many empty lines come next, and then the read fails.
fn gives_empty<S: Source>(lines: &mut Lines, source: &mut S, count: usize) -> bool {
    for _ in 0..count {
        if !answers(lines, source, Next::Line, b"") {
            return false;
        }
    }
    lines.more() && lines.next(source) == Err(ReadError::Failed)
}

#[test]
fn lines_are_given_before_a_read_fails(rt: HostRuntime) -> Result<(), AllocError> {
    let mut bytes = vec![in rt.alloc(); b'\n'; 4098]?;
    bytes[4095] = 7;
    let mut source = MemSource::new(bytes, vec![in rt.alloc(); 2u64]?);
    let mut lines = Lines::new(rt.alloc(), 4098)?;
    let given = gives_empty(&mut lines, &mut source, 4095);
    assert!(rt; given && lines.number() == 4096);
    Ok(())
}

#[test]
fn a_line_takes_several_reads(rt: HostRuntime) -> Result<(), AllocError> {
    let mut bytes = vec![in rt.alloc(); 7u8; 6000]?;
    bytes[2047] = b'\n';
    bytes[4095] = b'\n';
    bytes[5999] = b'\n';
    let mut source = SureSource::new(bytes);
    let mut lines = Lines::new(rt.alloc(), 6000)?;
    let wanted: [&[u8]; 3] = [&[7u8; 2047], &[7u8; 2047], &[7u8; 1903]];
    assert!(rt; gives(&mut lines, &mut source, &wanted, Next::End));
    Ok(())
}

// A reader that gives one byte at each call.
#[derive(Drop)]
struct Slow<'a> {
    bytes: &'a [u8],
}

impl<'a> Read for Slow<'a> {
    fn read(&mut self, buf: &mut [u8]) -> io::Result<usize> {
        match (self.bytes.split_first(), buf.first_mut()) {
            (Some((byte, rest)), Some(first)) => {
                *first = *byte;
                self.bytes = rest;
                Ok(1)
            }
            _ => Ok(0),
        }
    }
}

#[test]
fn a_line_comes_byte_by_byte(rt: HostRuntime) -> Result<(), AllocError> {
    let mut source = FileSource::new(Slow {
        bytes: b"one\ntwo\n",
    });
    let mut lines = Lines::new(rt.alloc(), 100)?;
    assert!(rt; gives(&mut lines, &mut source, &[b"one", b"two"], Next::End));
    Ok(())
}
