// Sources of bytes, and sinks for them.
ghost use Rattle.std.specs.Prelude.{◌≡◌, ◌<◌, ◌≤◌, [], Ok, length, IfOk};
ghost use Rattle.std.specs.Io.{ReadsAtMost, WritesAtMost};
ghost use Rattle.std.specs.Io.KnownBytes.{ReadConsumes, WriteAppends};
ghost use Rattle.io_ends.specs.Ends.{SinkView, SourceView};
ghost use Rattle.io_ends.specs.Faults.{CountsFault, next_count};

/// A read or a write failed. The source or the sink has counted it.
#[derive(Clone, Copy, Debug, PartialEq, Eq)]
pub struct Failed;

/// A source of bytes.
pub trait Source {
    /// What contracts see of it. Its count of faults starts at 0 and stays at `u64::MAX` once there.
    ghost view: { Self → SourceView };

    /// Reads bytes into the beginning of `buf`, and returns how many. 0 for a buffer with room
    /// means that no byte is left. A read that fails takes none.
    fn read(&mut self, buf: &mut [u8]) -> Result<usize, Failed>
        ensures bound { ReadsAtMost result buf.new }
        ensures bytes { ReadConsumes (view self.old).left (view self.new).left result buf.new }
        ensures counts { CountsFault (view self.old).faults (view self.new).faults result };
}

/// A sink for bytes.
pub trait Sink {
    /// What contracts see of it. Its count of faults starts at 0 and stays at `u64::MAX` once there.
    ghost view: { Self → SinkView };

    /// Appends the first bytes of `piece`, and returns how many. A write that fails appends none.
    fn write(&mut self, piece: &[u8]) -> Result<usize, Failed>
        ensures bound { WritesAtMost result piece.now }
        ensures some { IfOk result (λ n. 0 < length piece.now → 0 < n) }
        ensures empty { piece.now ≡ [] → result ≡ Ok 0 }
        ensures bytes { WriteAppends (view self.old).held (view self.new).held result piece.now }
        ensures counts { CountsFault (view self.old).faults (view self.new).faults result };
}

/// Counts a fault, up to `u64::MAX`.
pub fn count_fault(faults: &mut u64) -> Failed
    ensures { faults.new ≡ next_count faults.old }
{
    *faults = faults.saturating_add(1);
    Failed
}
