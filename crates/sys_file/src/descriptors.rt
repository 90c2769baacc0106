// The calls `close`, `dup`, `lseek` and `fstat`.
ghost use Rattle.std.specs.Prelude.{◌≡◌, ◌≤◌, ◌+ℤ◌, ℕ, ℤ, pos, None, Some, IfOk, IsSome, false, true, length};
ghost use Rattle.std.specs.FinMap as map;
ghost use Rattle.kern_model.specs.Descriptors.{open_description};
ghost use Rattle.kern_model.specs.FileRows.{base_of, close_row, closes, dup_row, fstat_row, moves, open_object, opened_to_seek, repeat};
ghost use Rattle.kern_model.specs.Kinds.{is_stream};
ghost use Rattle.kern_model.specs.State.{State, apply_changes, object_at, process_at};
ghost use Rattle.kern_model.specs.Valid.{IsValid};
ghost use Rattle.kern_model.specs.declared.limits.TheConstants.{MAX_FILE_BYTES};
ghost use Rattle.kern_model.specs.declared.numbers.Pid.{Pid as Number};
ghost use Rattle.chk_rules.specs.CheckLog.{CheckLog};
ghost use Rattle.chk_rules.specs.RowSteps.{GoesOn};
ghost use Rattle.fd_table.specs.Files.{is_past};
ghost use Rattle.sys_lookup.specs.PlaysRow.{LeavesNothing, PlaysRow};
ghost use Rattle.sys_file.specs.Descriptors.{IsOpen, PlaysOpened, seek_row};

use chk_rules::{Checks, Stop, refuse_if};
use fd_table::Opened;
use kern_model::{Answer, Errno, Fd, Oid, Pid, Place, Whence};
use sys_lookup::{CallResult, Caller, Effect, Shared};

/// `close`: a descriptor closes. What it refers to goes, where no other descriptor refers to it. It takes no memory.
pub fn close(shared: &mut Shared, who: &Pid, fd: Fd) -> CallResult
    requires valid { ∥ IsValid shared.old ∥₁ }
    requires living { IsSome (map.get shared.old.procs who.now) }
    ensures played { (log : CheckLog) → PlaysRow shared.old log (close_row shared.old who.now (process_at shared.old who.now) fd) result shared.new log }
    ensures nothing { LeavesNothing result }
{
    let caller = Caller::new(shared, who);
    caller.opened(fd)?;
    close_open(shared, who, fd);
    Ok(Effect::done())
}

// Closes a descriptor that is open.
fn close_open(shared: &mut Shared, who: &Pid, fd: Fd)
    requires valid { ∥ IsValid shared.old ∥₁ }
    requires open { IsOpen shared.old who.now fd }
    ensures { shared.new ≡ apply_changes shared.old (closes shared.old who.now (process_at shared.old who.now) fd) }
{
    if shared.fds.close(who, fd, &mut shared.tree).is_err() {
        unreachable!();
    }
}

/// `dup`: a further descriptor, the lowest that is free, on the same description. It takes no memory.
pub fn dup(shared: &mut Shared, who: &Pid, fd: Fd) -> CallResult
    requires { IsSome (map.get shared.old.procs who.now) }
    ensures played { (log : CheckLog) → PlaysRow shared.old log (dup_row shared.old who.now (process_at shared.old who.now) fd) result shared.new log }
    ensures nothing { LeavesNothing result }
{
    let caller = Caller::new(shared, who);
    caller.opened(fd)?;
    repeat(shared, who, fd)
}

// Has the lowest descriptor that is free refer to what a descriptor refers to that is open.
fn repeat(shared: &mut Shared, who: &Pid, fd: Fd) -> CallResult
    requires { IsOpen shared.old who.now fd }
    ensures played { PlaysOpened shared.old who.now fd (repeat who.now (process_at shared.old who.now)) result shared.new }
    ensures nothing { LeavesNothing result }
{
    match shared.fds.dup(who, fd) {
        Ok(lowest) => Ok(Effect::answers(Answer::Number(lowest))),
        // The descriptor is open, so all descriptors are.
        Err(_) => Err(Stop::Refused(Errno::EMFILE)),
    }
}

/// `fstat`: what is reported of the object that a descriptor refers to.
pub fn fstat(caller: &Caller<'_>, checks: &mut Checks, fd: Fd) -> CallResult
    ensures { (who : Number) → PlaysRow caller.now.state checks.old (fstat_row caller.now.state who caller.now.process fd) result caller.now.state checks.new }
{
    let opened = caller.opened(fd)?;
    caller.read_object(checks, &opened.object, Place::Handle)?;
    let stat = caller.report(&opened.object);
    Ok(Effect::answers(Answer::Stat(stat)))
}

/// Where `lseek` moves an offset: so many bytes from the start, from where it is, or from the end.
#[derive(Clone, Copy, Debug, PartialEq, Eq)]
pub struct Seek {
    pub from: Whence,
    pub offset: i64,
}

/// `lseek`: the offset of a descriptor on a file moves, within the file's bytes.
pub fn lseek(shared: &mut Shared, checks: &mut Checks, who: &Pid, fd: Fd, seek: Seek) -> CallResult
    requires valid { ∥ IsValid shared.old ∥₁ }
    requires living { IsSome (map.get shared.old.procs who.now) }
    ensures { PlaysRow shared.old checks.old (seek_row shared.old who.now fd seek) result shared.new checks.new }
{
    let caller = Caller::new(shared, who);
    let opened = opened_to_seek(&caller, checks, fd)?;
    let size = file_size(shared, &opened.object);
    match sum(base_of(&opened, seek.from, size), seek.offset) {
        Some(to) => move_to(shared, who, fd, to, size),
        None => Err(Stop::Refused(Errno::EINVAL)),
    }
}

// Moves the offset of a descriptor on a file of so many bytes, or refuses where it is not within them.
fn move_to(shared: &mut Shared, who: &Pid, fd: Fd, to: i64, size: u32) -> CallResult
    ensures { PlaysOpened shared.old who.now fd (λ f. moves f to size) result shared.new }
{
    match shared.fds.seek(who, fd, to, size) {
        Ok(offset) => Ok(Effect::answers(Answer::Number(offset))),
        // The descriptor is open, so the offset is not within the file.
        Err(_) => Err(Stop::Refused(Errno::EINVAL)),
    }
}

// The sum of a base and an offset, where it is no larger than an offset may be.
fn sum(base: u32, offset: i64) -> Option<i64>
    ensures some { (z : ℤ) → result ≡ Some z → z ≡ pos base +ℤ offset }
    ensures none { (size : ℕ) → size ≤ MAX_FILE_BYTES → result ≡ None → is_past (pos base +ℤ offset) size ≡ true }
{
    i64::from(base).checked_add(offset)
}

// What `lseek` moves in: a descriptor on an object that the caller may read by label, and that has offsets.
fn opened_to_seek(caller: &Caller<'_>, checks: &mut Checks, fd: Fd) -> Result<Opened, Stop>
    ensures step { GoesOn checks.old (opened_to_seek caller.now.state caller.now.process fd) result checks.new }
    ensures found { IfOk result (λ f. open_description caller.now.state caller.now.process fd ≡ Some f) }
    ensures no_stream { IfOk result (λ f. is_stream (open_object caller.now.state f).kind ≡ false) }
{
    let opened = caller.opened(fd)?;
    let object = caller.read_object(checks, &opened.object, Place::Handle)?;
    refuse_if(object.is_stream(), Errno::ESPIPE)?;
    Ok(opened)
}

// How many bytes an object contains that is no stream.
fn file_size(shared: &Shared, id: &Oid) -> u32
    requires { length (object_at shared.now id.now).bytes ≤ MAX_FILE_BYTES }
    ensures { result ≡ length (object_at shared.now id.now).bytes }
{
    shared.byte_count(id) as u32
}

// From where an offset is counted in a file of so many bytes.
fn base_of(opened: &Opened, from: Whence, size: u32) -> u32
    ensures { (s : State) → size ≡ length (open_object s opened.now).bytes → result ≡ base_of s opened.now from }
{
    match from {
        Whence::Set => 0,
        Whence::Cur => opened.offset,
        Whence::End => size,
    }
}
