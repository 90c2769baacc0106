// A source and a sink in memory, which report their bytes. The calls that fail are listed.
ghost use Rattle.std.specs.Prelude.{◌≡◌, ◌<◌, ◌≤◌, ◌++◌, [], Some, Ok, drop, length, min, take, IfOk, MatchResult};
ghost use Rattle.std.specs.Io.{ReadsAtMost, WritesAtMost};
ghost use Rattle.std.specs.Io.KnownBytes.{ReadConsumes, WriteAppends};
ghost use Rattle.io_ends.specs.Faults.{CountsFault};
ghost use Rattle.io_ends.specs.Memory.{ReadFails, ReadGives, WriteFails, WriteTakes};

use crate::ends::count_fault;
use crate::{Failed, Sink, Source};
use std::alloc::{AllocError, Global};
use std::marker::Model;

/// Copies the first bytes that are left to the beginning of a buffer, as many as fit, and returns how many.
pub fn copy_prefix(left: &[u8], buf: &mut [u8]) -> usize
    ensures count { result ≡ min (length buf.new) (length left.now) }
    ensures given { take result buf.new ≡ take result left.now }
    ensures whole { left.now ≡ take result buf.new ++ drop result left.now }
{
    let count = buf.len().min(left.len());
    buf[..count].copy_from_slice(&left[..count]);
    count
}

/// A source of bytes in memory. The calls in `fails`, counted from 1, fail.
#[derive(Debug, Drop)]
pub struct MemSource {
    bytes: Vec<u8>,
    at: usize,
    fails: Vec<u64>,
    calls: u64,
    faults: u64,
}

impl Model for MemSource {
    ghost use Rattle.std.specs.Prelude.{◌≤◌, drop, length};
    ghost use Rattle.io_ends.specs.Memory.{SourceState};

    ghost Value = { SourceState };

    ghost view = { λ a. record { left = drop a.at a.bytes.items; fails = a.fails.items; calls = a.calls; faults = a.faults } };

    ghost invariant = { λ a. a.at ≤ length a.bytes.items };
}

impl MemSource {
    /// A source of these bytes.
    pub fn new(bytes: Vec<u8>, fails: Vec<u64>) -> Self
        ensures { result ≡ record { left = bytes.items; fails = fails.items; calls = 0; faults = 0 } }
    {
        MemSource {
            bytes,
            at: 0,
            fails,
            calls: 0,
            faults: 0,
        }
    }
}

impl Source for MemSource {
    ghost view = { λ s. record { left = Some s.left; faults = s.faults } };

    fn read(&mut self, buf: &mut [u8]) -> Result<usize, Failed>
        ensures bound { ReadsAtMost result buf.new }
        ensures bytes { ReadConsumes (Some self.old.left) (Some self.new.left) result buf.new }
        ensures counts { CountsFault self.old.faults self.new.faults result }

        // Which calls fail, and how many bytes the others read.
        ensures exact { MatchResult result
            (λ count. ReadGives count buf.new self.old self.new)
            (λ _. ReadFails self.old self.new) }
    {
        self.calls = self.calls.saturating_add(1);
        if self.fails.contains(&self.calls) {
            return Err(count_fault(&mut self.faults));
        }
        let count = copy_prefix(&self.bytes[self.at..], buf);
        self.at += count;
        Ok(count)
    }
}

/// A sink in memory, with room for `room` bytes. Of the calls with a piece that is not empty,
/// those in `fails`, counted from 1, fail, and so do those that come when the room is full.
#[derive(Debug, Drop)]
pub struct MemSink {
    held: Vec<u8>,
    room: usize,
    fails: Vec<u64>,
    calls: u64,
    faults: u64,
}

impl Model for MemSink {
    ghost use Rattle.std.specs.Prelude.{◌≤◌, length, vec_capacity};
    ghost use Rattle.io_ends.specs.Memory.{SinkState};

    ghost Value = { SinkState };

    ghost view = { λ a. record { held = a.held.items; room = a.room; fails = a.fails.items; calls = a.calls; faults = a.faults } };

    ghost invariant = { λ a. (length a.held.items ≤ a.room) × (a.room ≤ vec_capacity a.held) };
}

impl MemSink {
    /// An empty sink. It allocates its room at once.
    pub fn new(alloc: Global, room: usize, fails: Vec<u64>) -> Result<Self, AllocError>
        ensures { IfOk result (λ s. s ≡ record { held = []; room = room; fails = fails.items; calls = 0; faults = 0 }) }
    {
        let held = Vec::with_capacity(alloc, room)?;
        Ok(MemSink {
            held,
            room,
            fails,
            calls: 0,
            faults: 0,
        })
    }

    /// The bytes that the sink holds.
    pub fn bytes(&self) -> &[u8]
        ensures value { result.now ≡ self.now.held }
        ensures within { length self.now.held ≤ self.now.room }
    {
        &self.held
    }
}

impl Sink for MemSink {
    ghost view = { λ s. record { held = Some s.held; faults = s.faults } };

    fn write(&mut self, piece: &[u8]) -> Result<usize, Failed>
        ensures bound { WritesAtMost result piece.now }
        ensures some { IfOk result (λ n. 0 < length piece.now → 0 < n) }
        ensures empty { piece.now ≡ [] → result ≡ Ok 0 }
        ensures bytes { WriteAppends (Some self.old.held) (Some self.new.held) result piece.now }
        ensures counts { CountsFault self.old.faults self.new.faults result }

        // Which calls fail, how many bytes the others take, and that an empty piece is no call.
        ensures exact { 0 < length piece.now → MatchResult result
            (λ count. WriteTakes count piece.now self.old self.new)
            (λ _. WriteFails self.old self.new) }
        ensures unchanged { piece.now ≡ [] → self.new ≡ self.old }
    {
        if piece.is_empty() {
            return Ok(0);
        }
        self.calls = self.calls.saturating_add(1);
        let room = self.room - self.held.len();
        if self.fails.contains(&self.calls) || room == 0 {
            return Err(count_fault(&mut self.faults));
        }
        let count = piece.len().min(room);
        self.held.extend_from_slice(&piece[..count]).unwrap();
        Ok(count)
    }
}
