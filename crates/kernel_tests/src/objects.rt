// What no clause says: that the calls succeed with ample memory.
use cap_bits::FileCaps;
use fs_nodes::{Buffers, NodeError, Nodes, WriteError};
use kern_model::{Attr, Body, ByteList, Kind, Oid};
use lab_lattice::bottom;
use std::alloc::Global;

fn attr() -> Attr {
    Attr {
        owner: 1,
        group: 2,
        mode: 0o644,
        caps: FileCaps::none(),
    }
}

// Makes a file with these bytes.
fn make_file(alloc: Global, nodes: &mut Nodes, bytes: &[u8]) -> Option<Oid> {
    let body = Body::File(ByteList::from_slice(alloc, bytes).ok()?);
    nodes.create(bottom(), attr(), body).ok()
}

// Makes a FIFO.
pub fn make_fifo(nodes: &mut Nodes) -> Result<Oid, NodeError> {
    nodes.create(bottom(), attr(), Body::Fifo)
}

// Whether a write into a file ends so.
fn write_ends(
    nodes: &mut Nodes,
    id: &Oid,
    (at, bytes): (u32, &[u8]),
    end: Result<(), WriteError>,
) -> bool {
    match nodes.get(id) {
        Some(object) if object.kind == Kind::File => nodes.write_at(id, at, bytes) == end,
        _ => false,
    }
}

// Whether the bytes that are read of a file, so many from there on, are these.
fn reads(nodes: &Nodes, id: &Oid, (at, n): (u32, u32), bytes: &[u8]) -> bool {
    match nodes.read_at(id, at, n) {
        Ok(read) => read.items() == bytes,
        Err(_) => false,
    }
}

// Whether an object holds these bytes.
pub fn has_bytes(nodes: &Nodes, id: &Oid, bytes: &[u8]) -> bool {
    match nodes.get(id) {
        Some(object) => object.bytes.items() == bytes,
        None => false,
    }
}

// Whether the only object, a file of three bytes, is read and written.
fn change(nodes: &mut Nodes, id: &Oid) -> bool {
    reads(nodes, id, (1, 9), b"bc")
        && write_ends(nodes, id, (2, b"de"), Ok(()))
        && has_bytes(nodes, id, b"abde")
        && nodes.key(id) == Some(0)
        && nodes.slots().len() == 1
}

// Whether a file takes this many bytes at once.
fn take(alloc: Global, nodes: &mut Nodes, id: &Oid, n: usize) -> Option<bool> {
    let bytes = vec![in alloc; b'x'; n].ok()?;
    Some(write_ends(nodes, id, (0, &bytes), Ok(())))
}

// Whether a file of 65,536 bytes takes bytes in the place of others alone.
fn change_within(nodes: &mut Nodes, id: &Oid) -> bool {
    write_ends(nodes, id, (65_536, b"y"), Err(WriteError::TooBig))
        && write_ends(nodes, id, (65_535, b"yz"), Err(WriteError::TooBig))
        && write_ends(nodes, id, (65_537, b"y"), Err(WriteError::PastEnd))
        && reads(nodes, id, (65_534, 9), b"xx")
        && write_ends(nodes, id, (65_535, b"y"), Ok(()))
        && reads(nodes, id, (65_534, 9), b"xy")
}

// Whether one file is read and written, and then filled.
fn play(alloc: Global, nodes: &mut Nodes) -> Option<bool> {
    let id = make_file(alloc, nodes, b"abc")?;
    Some(change(nodes, &id) && take(alloc, nodes, &id, 65_536)? && change_within(nodes, &id))
}

fn plays(alloc: Global) -> Option<bool> {
    play(alloc, &mut Nodes::new(alloc).ok()?)
}

#[test]
fn file_is_written_and_has_65536_bytes(rt: HostRuntime) {
    assert!(rt; plays(rt.alloc()) == Some(true));
}

// Puts bytes into a FIFO that has none.
fn put(nodes: &mut Nodes, id: &Oid, bytes: &[u8; 3]) -> bool {
    match nodes.get(id) {
        Some(object) if object.kind == Kind::Fifo && object.bytes.items().is_empty() => {
            nodes.put_bytes(id, bytes).is_ok()
        }
        _ => false,
    }
}

// Whether bytes wait in a new FIFO.
fn wait(nodes: &mut Nodes, bytes: &[u8; 3]) -> Result<bool, NodeError> {
    let id = make_fifo(nodes)?;
    Ok(put(nodes, &id, bytes) && has_bytes(nodes, &id, bytes))
}

fn bytes_wait(alloc: Global) -> Result<bool, NodeError> {
    wait(&mut Nodes::new(alloc)?, b"abc")
}

#[test]
fn bytes_wait_in_a_fifo(rt: HostRuntime) {
    assert!(rt; bytes_wait(rt.alloc()) == Ok(true));
}

// To what the next FIFO comes after so many.
fn make_after(nodes: &mut Nodes, n: u32) -> Result<Oid, NodeError> {
    for _ in 0..n {
        make_fifo(nodes)?;
    }
    make_fifo(nodes)
}

fn next_fifo(alloc: Global, after: u32) -> Result<Oid, NodeError> {
    make_after(&mut Nodes::new(alloc)?, after)
}

#[test]
fn label_has_65535_objects(rt: HostRuntime) {
    assert!(rt; next_fifo(rt.alloc(), 65_534).is_ok());
    assert!(rt; next_fifo(rt.alloc(), 65_535) == Err(NodeError::Full));
}
