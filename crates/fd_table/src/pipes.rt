// Bytes into pipes and FIFOs, and out of them.
ghost use Rattle.std.specs.Prelude.{◌≡◌, ◌++◌, true, false, Err, IfErr, IfOk, Ok, OnErr, OnOk, drop, length, take};
ghost use Rattle.kern_model.specs.Maps.{IfPresent};
ghost use Rattle.fs_nodes.specs.Nodes.{ForBytes, IsStream, copy_len};
ghost use Rattle.fd_table.specs.Files.{has_reader};
ghost use Rattle.fd_table.specs.Pipes.{IfFull, IfRoom, is_awaited, is_no_memory};

use crate::table::FdTable;
use fs_nodes::Buffers;
use kern_model::limits::MAX_PIPE_BYTES;
use kern_model::{NoMemory, Oid};

/// Why bytes do not go into a pipe or FIFO, or do not come out of it.
#[derive(Clone, Copy, Debug, PartialEq, Eq)]
pub enum PipeError {
    /// It has no description for reading (`EPIPE`).
    Broken,
    /// It has no room, or no byte yet (`EAGAIN`).
    Again,
    NoMemory(NoMemory),
}

impl From<NoMemory> for PipeError {
    ghost use Rattle.std.specs.Prelude.{◌≡◌};
    ghost use Rattle.fd_table.specs.declared.pipes.PipeError.TheVariants as error;

    ghost from_gives = { λ e n. n ≡ error.NoMemory e };

    fn from(e: NoMemory) -> Self {
        PipeError::NoMemory(e)
    }
}

// How many bytes are in a pipe or FIFO.
fn size<B: Buffers>(buffers: &B, id: &Oid) -> usize
    requires { IsStream (B.objects buffers.now) id.now }
    ensures { IfPresent (B.objects buffers.now) id.now (λ o. result ≡ length o.bytes) }
{
    let Some(object) = buffers.object(id) else {
        unreachable!();
    };
    object.bytes.items().len()
}

impl FdTable {
    /// Appends bytes to a pipe or FIFO.
    ///
    /// # Errors
    ///
    /// `Broken` where it has no description for reading, else `Again` where the bytes do not all fit.
    pub fn pipe_put<B: Buffers>(
        &self,
        buffers: &mut B,
        id: &Oid,
        bytes: &[u8],
    ) -> Result<(), PipeError>
        requires { IsStream (B.objects buffers.old) id.now }
        ensures broken { has_reader self.now id.now ≡ false → result ≡ Err PipeError.Broken }
        ensures again { IfPresent (B.objects buffers.old) id.now (λ o. IfFull self.now id.now o.bytes bytes.now (result ≡ Err PipeError.Again)) }
        ensures memory { IfPresent (B.objects buffers.old) id.now (λ o. IfRoom self.now id.now o.bytes bytes.now (IfErr result (λ e. is_no_memory e ≡ true))) }
        ensures put { ForBytes (B.objects buffers.old) id.now (λ old with_bytes. OnOk result (B.objects buffers.new ≡ with_bytes (old ++ bytes.now))) }
        ensures err { OnErr result (B.objects buffers.new ≡ B.objects buffers.old) }
        ensures rest { B.rest_same buffers.old buffers.new }
    {
        if !self.has_reader(id) {
            return Err(PipeError::Broken);
        }
        if size(buffers, id).saturating_add(bytes.len()) > MAX_PIPE_BYTES {
            return Err(PipeError::Again);
        }
        buffers.put_bytes(id, bytes)?;
        Ok(())
    }

    /// Moves the first bytes of a pipe or FIFO to a buffer, as many as are there and fit, and returns their number; 0 where it is
    /// empty and has no description for writing. It takes no memory.
    ///
    /// # Errors
    ///
    /// `Again` where it is empty and has a description for writing.
    pub fn pipe_take<B: Buffers>(
        &self,
        buffers: &mut B,
        id: &Oid,
        buf: &mut [u8],
    ) -> Result<usize, PipeError>
        requires { IsStream (B.objects buffers.old) id.now }
        ensures again { IfPresent (B.objects buffers.old) id.now (λ o. is_awaited self.now id.now o.bytes ≡ true → result ≡ Err PipeError.Again) }
        ensures count { IfPresent (B.objects buffers.old) id.now (λ o. is_awaited self.now id.now o.bytes ≡ false → result ≡ Ok (copy_len o.bytes buf.old)) }
        ensures taken { IfPresent (B.objects buffers.old) id.now (λ o. IfOk result (λ n. buf.new ≡ take n o.bytes ++ drop n buf.old)) }
        ensures left { ForBytes (B.objects buffers.old) id.now (λ old with_bytes. IfOk result (λ n. B.objects buffers.new ≡ with_bytes (drop n old))) }
        ensures err { OnErr result (B.objects buffers.new ≡ B.objects buffers.old) }
        ensures untouched { OnErr result (buf.new ≡ buf.old) }
        ensures rest { B.rest_same buffers.old buffers.new }
    {
        if size(buffers, id) == 0 && self.has_writer(id) {
            return Err(PipeError::Again);
        }
        Ok(buffers.take_bytes(id, buf))
    }
}
