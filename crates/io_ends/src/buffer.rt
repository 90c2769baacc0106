// Bytes that were read and are not used yet.
ghost use Rattle.std.specs.Prelude.{◌≡◌, ◌+◌, ◌-◌, ◌<◌, ◌≤◌, [], drop, length, slice_range, take, IfOk, OnErr};
ghost use Rattle.std.specs.Io.KnownBytes.{Keeps};
ghost use Rattle.io_ends.specs.Faults.{CountsFault};
ghost use Rattle.io_ends.specs.Whole.{Fills};

use crate::whole::CHUNK;
use crate::{Failed, Source};
use fs_path::MAX_LINE;
use std::alloc::{AllocError, Global};
use std::marker::Model;

// How many bytes a buffer has room for: the longest line and one read.
const ROOM: usize = MAX_LINE + CHUNK;

// Bytes in order, in memory that is allocated once. They are read at the end and used from the beginning.
#[derive(Debug, Drop)]
pub(crate) struct Buffer {
    bytes: Vec<u8>,
    start: usize,
    end: usize,
}

impl Model for Buffer {
    ghost use Rattle.std.specs.Prelude.{◌≡◌, ◌≤◌, List, ℕ, slice_range, length};
    ghost use Rattle.io_ends.specs.declared.buffer.TheConstants.{ROOM};

    ghost Value = { List ℕ };

    ghost view = { λ a. slice_range a.bytes.items a.start a.end };

    ghost invariant = { λ a. (a.start ≤ a.end) × (a.end ≤ ROOM) × (length a.bytes.items ≡ ROOM) };
}

// Moves the bytes between two places to the beginning, where they are not there already, and returns where they end.
fn move_to_start(bytes: &mut [u8], start: usize, end: usize) -> usize
    requires order { start ≤ end }
    requires within { end ≤ length bytes.old }
    ensures end { result ≡ end - start }
    ensures moved { take result bytes.new ≡ slice_range bytes.old start end }
    ensures len { length bytes.new ≡ length bytes.old }
{
    if start > 0 {
        bytes.copy_within(start..end, 0);
    }
    end - start
}

impl Buffer {
    // An empty buffer.
    pub(crate) fn new(alloc: Global) -> Result<Self, AllocError>
        ensures { IfOk result (λ b. b ≡ []) }
    {
        let bytes = vec![in alloc; 0u8; ROOM]?;
        Ok(Buffer {
            bytes,
            start: 0,
            end: 0,
        })
    }

    // The bytes that are held.
    pub(crate) fn held(&self) -> &[u8]
        ensures value { result.now ≡ self.now }
        ensures few { length self.now ≤ ROOM }
    {
        &self.bytes[self.start..self.end]
    }

    // Drops the first `count` bytes.
    pub(crate) fn consume(&mut self, count: usize)
        requires { count ≤ length self.old }
        ensures { self.new ≡ drop count self.old }
    {
        self.start += count;
    }

    // Adds one read to the bytes, which stay at most `most`. Before it the bytes that are held move to the beginning, so
    // that each byte moves at most once.
    pub(crate) fn fill<S: Source>(&mut self, source: &mut S, most: usize) -> Result<usize, Failed>
        requires room { length self.old ≤ MAX_LINE }
        requires some { length self.old < most }
        ensures fills { IfOk result (λ n. Fills n self.old self.new most (S.view source.old).left (S.view source.new).left) }
        ensures chunk { IfOk result (λ n. n ≤ CHUNK) }
        ensures fails { OnErr result (self.new ≡ self.old) }
        ensures keeps { OnErr result (Keeps (S.view source.old).left (S.view source.new).left) }
        ensures counts { CountsFault (S.view source.old).faults (S.view source.new).faults result }
    {
        self.end = move_to_start(&mut self.bytes, self.start, self.end);
        self.start = 0;
        let room = (most - self.end).min(CHUNK);
        let count = source.read(&mut self.bytes[self.end..self.end + room])?;
        self.end += count;
        Ok(count)
    }
}
