// Bytes in a FIFO that a process has open, by what the calls answer with ample memory.
use crate::descriptors::{Files, how};
use crate::objects::{has_bytes, make_fifo};
use fd_table::PipeError;
use fs_nodes::Buffers;
use kern_model::{Fd, Kind, NoMemory, Oid};
use std::alloc::Global;

const READER: Fd = 0;

const WRITER: Fd = 1;

// What is done with a FIFO on which `READER` and `WRITER` are open, and what is seen.
#[derive(Clone, Copy)]
enum Step<'a> {
    // Putting these bytes ends so.
    Put(&'a [u8], Result<(), PipeError>),
    // Taking bytes to the front of a buffer of this length ends so, and leaves these bytes there.
    Take(&'a [u8], Result<usize, PipeError>),
    Close(Fd),
    // These bytes wait.
    Wait(&'a [u8]),
}

// Makes a FIFO and opens it, if the descriptors are `READER` and `WRITER`.
fn open_fifo(files: &mut Files) -> Option<Oid> {
    let id = make_fifo(&mut files.nodes).ok()?;
    let opened = files.open(&id, how(true)) == Ok(READER)
        && files.open(&id, how(false)) == Ok(WRITER);
    opened.then_some(id)
}

// Whether putting bytes into a FIFO ends so.
fn put_ends(files: &mut Files, id: &Oid, bytes: &[u8], end: Result<(), PipeError>) -> bool {
    match files.nodes.object(id) {
        Some(object) if object.kind == Kind::Fifo => {
            files.table.pipe_put(&mut files.nodes, id, bytes) == end
        }
        _ => false,
    }
}

// Whether taking bytes out of a FIFO ends so.
fn take_ends(files: &mut Files, id: &Oid, buf: &mut [u8], end: Result<usize, PipeError>) -> bool {
    match files.nodes.object(id) {
        Some(object) if object.kind == Kind::Fifo => {
            files.table.pipe_take(&mut files.nodes, id, buf) == end
        }
        _ => false,
    }
}

// Whether a step is as it says. Bytes are taken to the buffer.
fn is_played(files: &mut Files, id: &Oid, buf: &mut [u8], step: Step) -> bool {
    match step {
        Step::Put(bytes, end) => put_ends(files, id, bytes, end),
        Step::Take(bytes, end) => match buf.get_mut(..bytes.len()) {
            Some(front) => take_ends(files, id, front, end) && *front == *bytes,
            None => false,
        },
        Step::Close(fd) => files.close(fd) == Ok(()),
        Step::Wait(bytes) => has_bytes(&files.nodes, id, bytes),
    }
}

// Whether each step on a new FIFO is as it says.
fn are_played(files: &mut Files, steps: &[Step]) -> bool {
    let Some(id) = open_fifo(files) else {
        return false;
    };
    let mut buf = [b'-'; 4];
    for step in steps {
        if !is_played(files, &id, &mut buf, *step) {
            return false;
        }
    }
    true
}

fn plays(alloc: Global, steps: &[Step]) -> Result<bool, NoMemory> {
    Ok(are_played(&mut Files::new(alloc)?, steps))
}

#[test]
fn bytes_come_out_in_order(rt: HostRuntime) {
    let steps = [
        Step::Put(b"abc", Ok(())),
        Step::Put(b"de", Ok(())),
        Step::Take(b"abcd", Ok(4)),
        Step::Take(b"ebcd", Ok(1)),
    ];
    assert!(rt; plays(rt.alloc(), &steps) == Ok(true));
}

#[test]
fn fifo_holds_4096_bytes(rt: HostRuntime) {
    let bytes = [b'x'; 4096];
    let steps = [
        Step::Put(b"x", Ok(())),
        Step::Put(&bytes, Err(PipeError::Again)),
        Step::Put(&bytes[1..], Ok(())),
        Step::Put(b"x", Err(PipeError::Again)),
        Step::Take(b"x", Ok(1)),
        Step::Put(b"x", Ok(())),
    ];
    assert!(rt; plays(rt.alloc(), &steps) == Ok(true));
}

#[test]
fn empty_fifo_ends_without_a_writer(rt: HostRuntime) {
    let steps = [
        Step::Take(b"-", Err(PipeError::Again)),
        Step::Close(WRITER),
        Step::Take(b"-", Ok(0)),
    ];
    assert!(rt; plays(rt.alloc(), &steps) == Ok(true));
}

#[test]
fn last_close_drops_the_bytes_of_a_fifo(rt: HostRuntime) {
    let steps = [
        Step::Put(b"abc", Ok(())),
        Step::Close(READER),
        Step::Wait(b"abc"),
        Step::Put(b"d", Err(PipeError::Broken)),
        Step::Close(WRITER),
        Step::Wait(b""),
    ];
    assert!(rt; plays(rt.alloc(), &steps) == Ok(true));
}
