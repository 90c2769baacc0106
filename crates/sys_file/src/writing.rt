// The call `write`.
ghost use Rattle.std.specs.Prelude.{◌≡◌, ◌+◌, ◌≤◌, ℕ, None, Some, IfOk, IsSome, OnOk, length};
ghost use Rattle.std.specs.FinMap as map;
ghost use Rattle.kern_model.specs.Descriptors.{Opened as Description, open_description};
ghost use Rattle.kern_model.specs.FileRows.{offset_change, open_object, place_in, put_in_stream, to_place, write_row};
ghost use Rattle.kern_model.specs.State.{apply_change, object_at, process_at};
ghost use Rattle.kern_model.specs.Valid.{IsValid};
ghost use Rattle.kern_model.specs.declared.calls.Answer.TheVariants as answer;
ghost use Rattle.kern_model.specs.declared.limits.TheConstants.{MAX_FILE_BYTES};
ghost use Rattle.kern_model.specs.declared.numbers.Pid.{Pid as Number};
ghost use Rattle.kern_model.specs.declared.objects.Object.{Object};
ghost use Rattle.chk_rules.specs.CheckLog.{CheckLog};
ghost use Rattle.chk_rules.specs.RowSteps.{GoesOn};
ghost use Rattle.fs_nodes.specs.Nodes.{IsFile, IsStream};
ghost use Rattle.sys_lookup.specs.PlaysRow.{PlaysRow};
ghost use Rattle.sys_file.specs.Descriptors.{IsOpen, RefersTo};
ghost use Rattle.sys_file.specs.Writing.{overwrite_change};

use crate::access::{Access, opened_for};
use crate::offsets::set_offset;
use chk_rules::{Checks, Stop, refuse_if};
use fd_table::{Opened, PipeError};
use fs_nodes::WriteError;
use kern_model::limits::MAX_FILE_BYTES;
use kern_model::{Answer, Attr, Errno, Fd, Oid, Pid, Place};
use sys_lookup::{CallResult, Caller, Effect, NoMemory, Shared};

/// `write`: all these bytes go into a file at the offset, or at its end where the descriptor appends, or into a pipe or FIFO.
pub fn write(
    shared: &mut Shared,
    checks: &mut Checks,
    who: &Pid,
    fd: Fd,
    bytes: &[u8],
) -> CallResult
    requires valid { ∥ IsValid shared.old ∥₁ }
    requires living { IsSome (map.get shared.old.procs who.now) }
    ensures { PlaysRow shared.old checks.old (write_row shared.old who.now (process_at shared.old who.now) fd bytes.now) result shared.new checks.new }
{
    let caller = Caller::new(shared, who);
    let (opened, object) = opened_for(&caller, checks, fd, Access::Write)?;
    if object.is_stream() {
        return write_stream(shared, &opened, bytes);
    }
    let at = place_to_write(shared, &opened, bytes)?;
    if bytes.is_empty() {
        return Ok(move_after(shared, who, fd, at, bytes));
    }
    let attr = caller.kept_attr(checks, &object, Place::Handle)?;
    overwrite(shared, &opened.object, at, bytes, attr)?;
    Ok(move_after(shared, who, fd, at, bytes))
}

// Puts bytes at the end of a pipe or FIFO.
fn write_stream(shared: &mut Shared, opened: &Opened, bytes: &[u8]) -> CallResult
    requires { IsStream shared.old.objects opened.now.description.object }
    ensures { (log : CheckLog) → PlaysRow shared.old log (put_in_stream shared.old opened.now bytes.now) result shared.new log }
{
    match shared.fds.pipe_put(&mut shared.tree, &opened.object, bytes) {
        Ok(()) => Ok(Effect::answers(Answer::Number(bytes.len() as u32))),
        Err(PipeError::Broken) => Err(Stop::Refused(Errno::EPIPE)),
        Err(PipeError::Again) => Err(Stop::Refused(Errno::EAGAIN)),
        Err(PipeError::NoMemory(e)) => Err(Stop::NoMemory(e)),
    }
}

// Where bytes go into a file, if they may.
fn place_to_write(shared: &Shared, opened: &Opened, bytes: &[u8]) -> Result<u32, Stop>
    requires valid { ∥ IsValid shared.now ∥₁ }
    requires file { IsFile shared.now.objects opened.now.description.object }
    ensures step { (log : CheckLog) → GoesOn log (to_place bytes.now opened.now (open_object shared.now opened.now)) result log }
    ensures within { IfOk result (λ at. at ≤ length (open_object shared.now opened.now).bytes) }
    ensures few { IfOk result (λ at. at + length bytes.now ≤ MAX_FILE_BYTES) }
{
    let size = shared.byte_count(&opened.object) as u32;
    let at = place_in_file(opened, size);
    refuse_if(at > size, Errno::EINVAL)?;
    refuse_if(at as usize + bytes.len() > MAX_FILE_BYTES, Errno::EFBIG)?;
    Ok(at)
}

// Where bytes go into a file of this size: at its end where the descriptor appends, else at the offset.
fn place_in_file(opened: &Opened, size: u32) -> u32
    ensures { (o : Object) → size ≡ length o.bytes → result ≡ place_in o opened.now }
{
    if opened.how.appends {
        size
    } else {
        opened.offset
    }
}

// Writes bytes into a file from a place on, and gives it these attributes.
fn overwrite(
    shared: &mut Shared,
    id: &Oid,
    at: u32,
    bytes: &[u8],
    attr: Attr,
) -> Result<(), NoMemory>
    requires file { IsFile shared.old.objects id.now }
    requires within { at ≤ length (object_at shared.old id.now).bytes }
    requires few { at + length bytes.now ≤ MAX_FILE_BYTES }
    ensures open { (who : Number) (fd : ℕ) → open_description shared.new (process_at shared.new who) fd ≡ open_description shared.old (process_at shared.old who) fd }
    ensures written { OnOk result (shared.new ≡ apply_change shared.old (overwrite_change shared.old id.now at bytes.now attr)) }
{
    match shared.tree.write_at(id, at, bytes) {
        Ok(()) => {
            shared.tree.set_attr(id, attr);
            Ok(())
        }
        Err(WriteError::NoMemory(e)) => Err(e),
        Err(WriteError::PastEnd) => unreachable!(),
        Err(WriteError::TooBig) => unreachable!(),
    }
}

// Moves the offset after bytes that are written from a place on, and answers their number.
fn move_after(shared: &mut Shared, who: &Pid, fd: Fd, at: u32, bytes: &[u8]) -> Effect
    requires open { IsOpen shared.old who.now fd }
    requires few { at + length bytes.now ≤ MAX_FILE_BYTES }
    ensures moved { (f : Description) → RefersTo shared.old who.now fd f → shared.new ≡ apply_change shared.old (offset_change f (at + length bytes.now)) }
    ensures effect { result ≡ record { answer = answer.Number (length bytes.now); own = None } }
{
    let count = bytes.len() as u32;
    set_offset(shared, who, fd, at + count);
    Effect::answers(Answer::Number(count))
}
