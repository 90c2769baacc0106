// The call `read`.
ghost use Rattle.std.specs.Prelude.{◌≡◌, Some, IfOk, IsSome, drop, false, take, true};
ghost use Rattle.std.specs.FinMap as map;
ghost use Rattle.kern_model.specs.FileRows.{comes_out, open_object, read_row};
ghost use Rattle.kern_model.specs.State.{process_at};
ghost use Rattle.kern_model.specs.Valid.{IsValid};
ghost use Rattle.kern_model.specs.declared.objects.Object.{Object};
ghost use Rattle.chk_rules.specs.CheckLog.{CheckLog};
ghost use Rattle.fs_nodes.specs.Nodes.{IsFile, IsStream};
ghost use Rattle.sys_lookup.specs.PlaysRow.{PlaysRow};
ghost use Rattle.sys_file.specs.Descriptors.{RefersTo};

use crate::access::{Access, opened_for};
use crate::offsets::set_offset;
use chk_rules::{Checks, Stop};
use fd_table::{Opened, PipeError};
use kern_model::limits::MAX_PIPE_BYTES;
use kern_model::{Answer, ByteList, Errno, Fd, NoMemory, Oid, Pid, Place};
use sys_lookup::{CallResult, Caller, Effect, Shared};

/// `read`: up to `n` bytes of a file from the offset on, or from the start of a pipe or FIFO, which loses them.
pub fn read(shared: &mut Shared, checks: &mut Checks, who: &Pid, fd: Fd, n: u32) -> CallResult
    requires valid { ∥ IsValid shared.old ∥₁ }
    requires living { IsSome (map.get shared.old.procs who.now) }
    ensures { PlaysRow shared.old checks.old (read_row shared.old who.now (process_at shared.old who.now) fd n) result shared.new checks.new }
{
    let caller = Caller::new(shared, who);
    let (opened, object) = opened_for(&caller, checks, fd, Access::Read)?;
    if !object.is_stream() {
        return read_file(shared, who, fd, &opened, n);
    }
    caller.mac_write(checks, &object, Place::Handle)?;
    read_stream(shared, &opened, n)
}

// Reads up to `n` bytes of a file from the offset on, which moves after them.
fn read_file(shared: &mut Shared, who: &Pid, fd: Fd, opened: &Opened, n: u32) -> CallResult
    requires valid { ∥ IsValid shared.old ∥₁ }
    requires open { RefersTo shared.old who.now fd opened.now }
    requires file { IsFile shared.old.objects opened.now.description.object }
    ensures { (log : CheckLog) → PlaysRow shared.old log (comes_out false shared.old n opened.now (open_object shared.old opened.now)) result shared.new log }
{
    let bytes = bytes_at(shared, &opened.object, opened.offset, n)?;
    let end = opened.offset + bytes.items().len() as u32;
    set_offset(shared, who, fd, end);
    Ok(Effect::answers(Answer::Bytes(bytes)))
}

// The bytes of an object from an offset on: `n` of them, or all that are left where fewer are.
fn bytes_at(shared: &Shared, id: &Oid, at: u32, n: u32) -> Result<ByteList, NoMemory>
    ensures { (o : Object) → map.get shared.now.objects id.now ≡ Some o → IfOk result (λ bytes. bytes ≡ take n (drop at o.bytes)) }
{
    let nodes = shared.tree.nodes();
    nodes.read_at(id, at, n)
}

// Takes up to `n` bytes out of a pipe or FIFO. They are copied first, since that may run out of memory.
fn read_stream(shared: &mut Shared, opened: &Opened, n: u32) -> CallResult
    requires valid { ∥ IsValid shared.old ∥₁ }
    requires stream { IsStream shared.old.objects opened.now.description.object }
    ensures { (log : CheckLog) → PlaysRow shared.old log (comes_out true shared.old n opened.now (open_object shared.old opened.now)) result shared.new log }
{
    let bytes = bytes_at(shared, &opened.object, 0, n)?;
    let mut buffer = [0; MAX_PIPE_BYTES];
    let taken = &mut buffer[..bytes.items().len()];
    match shared
        .fds
        .pipe_take(&mut shared.tree, &opened.object, taken)
    {
        Ok(_) => Ok(Effect::answers(Answer::Bytes(bytes))),
        Err(PipeError::Again) => Err(Stop::Refused(Errno::EAGAIN)),
        Err(PipeError::Broken) => unreachable!(),
        Err(PipeError::NoMemory(_)) => unreachable!(),
    }
}
