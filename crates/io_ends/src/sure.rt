// A source and a sink that never fail.
ghost use Rattle.std.specs.Prelude.{◌≡◌, ◌<◌, [], Some, None, Ok, length, min, drop, IfOk};
ghost use Rattle.std.specs.Io.{ReadsAtMost, WritesAtMost};
ghost use Rattle.std.specs.Io.KnownBytes.{ReadConsumes, WriteAppends};
ghost use Rattle.io_ends.specs.Faults.{CountsFault};

use crate::memory::copy_prefix;
use crate::{Failed, Sink, Source};
use std::marker::Model;

/// A source of bytes in memory, which never fails. The program has none.
#[derive(Debug)]
pub struct SureSource {
    bytes: Vec<u8>,
    at: usize,
}

impl Drop for SureSource {
    fn drop(self) {
        let SureSource { bytes: _, at: _ } = self;
    }
}

impl Model for SureSource {
    ghost use Rattle.std.specs.Prelude.{◌≤◌, List, ℕ, drop, length};

    ghost Value = { List ℕ };

    ghost view = { λ a. drop a.at a.bytes.items };

    ghost invariant = { λ a. a.at ≤ length a.bytes.items };
}

impl SureSource {
    /// A source of these bytes.
    pub fn new(bytes: Vec<u8>) -> Self
        ensures { result ≡ bytes.items }
    {
        SureSource { bytes, at: 0 }
    }
}

impl Source for SureSource {
    ghost view = { λ s. record { left = Some s; faults = 0 } };

    fn read(&mut self, buf: &mut [u8]) -> Result<usize, Failed>
        ensures bound { ReadsAtMost result buf.new }
        ensures bytes { ReadConsumes (Some self.old) (Some self.new) result buf.new }
        ensures counts { CountsFault 0 0 result }

        // It reads as many bytes as fit.
        ensures exact { result ≡ Ok (min (length buf.new) (length self.old)) }
        ensures after { self.new ≡ drop (length buf.new) self.old }
    {
        let count = copy_prefix(&self.bytes[self.at..], buf);
        self.at += count;
        Ok(count)
    }
}

/// A sink that takes each piece whole, keeps nothing of it, and never fails.
#[derive(Clone, Copy, Debug, Default)]
pub struct SureSink;

impl SureSink {
    /// A sink.
    pub fn new() -> Self
        ensures { result ≡ record {} }
    {
        SureSink
    }
}

impl Sink for SureSink {
    ghost view = { λ _. record { held = None; faults = 0 } };

    fn write(&mut self, piece: &[u8]) -> Result<usize, Failed>
        ensures bound { WritesAtMost result piece.now }
        ensures some { IfOk result (λ n. 0 < length piece.now → 0 < n) }
        ensures empty { piece.now ≡ [] → result ≡ Ok 0 }
        ensures bytes { WriteAppends None None result piece.now }
        ensures counts { CountsFault 0 0 result }
        ensures exact { result ≡ Ok (length piece.now) }
    {
        Ok(piece.len())
    }
}
