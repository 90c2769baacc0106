// Writes of a whole piece, and reads of all bytes.
ghost use Rattle.std.specs.Prelude.{◌≡◌, ◌+◌, ◌^◌, ◌<◌, ◌≤◌, false, length, nat_lt, take, MatchResult, OnOk, OnErr, IfErr};
ghost use Rattle.std.specs.Io.KnownBytes.{Appends};
ghost use Rattle.io_ends.specs.Faults.{CountsFault, AppendsPart};
ghost use Rattle.io_ends.specs.Whole.{CountsRead, Fills, FillFails, ReadsWhole};

use crate::{ByteList, Failed, Sink, Source};
use std::alloc::{AllocError, Global};

// How many bytes one read asks for.
pub(crate) const CHUNK: usize = 4096;

/// Why the bytes of a source were not read.
#[derive(Clone, Copy, Debug, PartialEq, Eq)]
pub enum ReadError {
    /// A read failed, and the source has counted the fault.
    Failed,
    /// There was no memory for the bytes.
    NoMemory,
}

impl From<AllocError> for ReadError {
    ghost use Rattle.std.specs.Prelude.{◌≡◌};
    ghost use Rattle.io_ends.specs.declared.whole.ReadError.TheVariants.{NoMemory};

    ghost from_gives = { λ _ e. e ≡ NoMemory };

    fn from(_: AllocError) -> Self {
        ReadError::NoMemory
    }
}

/// The first bytes of a source, up to a limit, and whether it had more.
#[derive(Debug, Drop)]
pub struct Whole {
    /// The first bytes, up to the limit.
    pub bytes: ByteList,
    /// The source had more bytes than the limit.
    pub more: bool,
}

/// Appends a whole piece. It does not allocate. After a fault a proper prefix of the piece is
/// appended.
pub fn write_whole<K: Sink>(sink: &mut K, piece: &[u8]) -> Result<(), Failed>
    ensures ok { OnOk result (Appends (K.view sink.old).held (K.view sink.new).held piece.now) }
    ensures err { OnErr result (AppendsPart (K.view sink.old).held (K.view sink.new).held piece.now) }
    ensures counts { CountsFault (K.view sink.old).faults (K.view sink.new).faults result }
{
    let mut rest = piece;
    while !rest.is_empty() {
        let count = sink.write(rest)?;
        rest = &rest[count..];
    }
    Ok(())
}

// Adds one read to the bytes, which stay at most `most`.
fn fill<S: Source>(bytes: &mut ByteList, source: &mut S, most: usize) -> Result<usize, ReadError>
    requires { length bytes.old < most }
    ensures fills { MatchResult result
        (λ n. Fills n bytes.old bytes.new most (S.view source.old).left (S.view source.new).left)
        (λ _. FillFails bytes.old most (S.view source.old).left (S.view source.new).left) }
    ensures counts { CountsRead result (S.view source.old).faults (S.view source.new).faults }
{
    let mut chunk = [0u8; CHUNK];
    let room = (most - bytes.items().len()).min(CHUNK);
    match source.read(&mut chunk[..room]) {
        Ok(count) => {
            bytes.append(&chunk[..count])?;
            Ok(count)
        }
        Err(_) => Err(ReadError::Failed),
    }
}

// Bytes that were read, the last of which may be past the limit.
fn whole_of(mut bytes: ByteList, limit: usize) -> Whole
    ensures bytes { result.bytes ≡ take limit bytes }
    ensures more { result.more ≡ nat_lt limit (length bytes) }
{
    let more = limit < bytes.items().len();
    bytes.truncate(limit);
    Whole { bytes, more }
}

/// Reads a source to its end, or to one byte past `limit` bytes. After an error the bytes that were
/// read are lost.
pub fn read_whole<S: Source>(alloc: Global, source: &mut S, limit: u64) -> Result<Whole, ReadError>
    requires { limit < 2 ^ 32 }
    ensures reads { ReadsWhole result limit (S.view source.old).left (S.view source.new).left }
    ensures counts { CountsRead result (S.view source.old).faults (S.view source.new).faults }
{
    let limit = limit as usize;
    let mut bytes = ByteList::new(alloc);
    while bytes.items().len() <= limit {
        if fill(&mut bytes, source, limit + 1)? == 0 {
            break;
        }
    }
    Ok(whole_of(bytes, limit))
}
