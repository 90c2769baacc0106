// The calls `mkfifo` and `pipe`.
ghost use Rattle.std.specs.Prelude.{◌≡◌, None, IfOk, IsSome, OnOk, true};
ghost use Rattle.std.specs.FinMap as map;
ghost use Rattle.kern_model.specs.Arguments.{are_names};
ghost use Rattle.kern_model.specs.Create.{has_object_number};
ghost use Rattle.kern_model.specs.FileRows.{both_ends, pipe_addition, has_descriptions, has_free_descriptors, pipe_row, pipe_creation};
ghost use Rattle.kern_model.specs.State.{apply_changes, next_object, process_at};
ghost use Rattle.kern_model.specs.TreeRows.{mkfifo_row};
ghost use Rattle.kern_model.specs.Valid.{IsValid};
ghost use Rattle.chk_rules.specs.CheckLog.{CheckLog};
ghost use Rattle.sys_lookup.specs.PlaysRow.{PlaysCall, PlaysRow};
ghost use Rattle.sys_file.specs.PipeEnds.{end_flags};

use crate::opening::describe;
use cap_bits::FileCaps;
use chk_rules::{Checks, refuse_if};
use kern_model::{Answer, Attr, Body, Errno, Mode, Oid, OpenFlags, Path, Pid};
use sys_lookup::{CallResult, Caller, Effect, NewObject, NoMemory, Shared, make};

/// `mkfifo`: a FIFO is made where nothing has the name.
pub fn mkfifo(
    shared: &mut Shared,
    checks: &mut Checks,
    who: &Pid,
    path: &Path,
    mode: Mode,
) -> CallResult
    requires valid { ∥ IsValid shared.old ∥₁ }
    requires living { IsSome (map.get shared.old.procs who.now) }
    ensures played { PlaysCall shared.old who.now checks.old (λ s who p. mkfifo_row s who p path.now mode) result shared.new checks.new }
    ensures names { are_names path.now ≡ true }
{
    let fifo = NewObject {
        mode,
        body: Body::Fifo,
    };
    make(shared, checks, who, path, fifo)
}

/// `pipe`: a pipe is made. The caller's two lowest free descriptors are opened on it, the first for reading and the second for
/// writing.
pub fn pipe(shared: &mut Shared, who: &Pid) -> CallResult
    requires { IsSome (map.get shared.old.procs who.now) }
    ensures { (log : CheckLog) → PlaysRow shared.old log (pipe_row shared.old who.now (process_at shared.old who.now)) result shared.new log }
{
    let caller = Caller::new(shared, who);
    caller.may_open(2)?;
    refuse_if(!shared.can_create(&caller.label()), Errno::ENOSPC)?;
    Ok(make_pipe(shared, who)?)
}

// Makes a pipe, and opens both ends.
fn make_pipe(shared: &mut Shared, who: &Pid) -> Result<Effect, NoMemory>
    requires living { IsSome (map.get shared.old.procs who.now) }
    requires number { has_object_number shared.old (process_at shared.old who.now).label ≡ true }
    requires free { has_free_descriptors (process_at shared.old who.now) 2 ≡ true }
    requires left { has_descriptions shared.old (process_at shared.old who.now) 2 ≡ true }
    ensures answer { IfOk result (λ effect. effect ≡ record { answer = both_ends shared.old (process_at shared.old who.now); own = None }) }
    ensures piped { OnOk result (shared.new ≡ apply_changes shared.old (pipe_creation shared.old who.now (process_at shared.old who.now))) }
{
    let id = create_pipe(shared, who)?;
    let reader = describe(shared, who, &id, end_flags(true))?;
    let writer = describe(shared, who, &id, end_flags(false))?;
    Ok(Effect::answers(Answer::Two(reader, writer)))
}

// Makes a pipe of a process, and returns its number.
fn create_pipe(shared: &mut Shared, who: &Pid) -> Result<Oid, NoMemory>
    requires living { IsSome (map.get shared.old.procs who.now) }
    requires number { has_object_number shared.old (process_at shared.old who.now).label ≡ true }
    ensures id { IfOk result (λ id. id ≡ next_object shared.old (process_at shared.old who.now).label) }
    ensures made { OnOk result (shared.new ≡ apply_changes shared.old (pipe_addition shared.old (process_at shared.old who.now))) }
{
    let caller = Caller::new(shared, who);
    let creds = caller.creds();
    let attr = Attr {
        owner: creds.ids.euid,
        group: creds.ids.egid,
        mode: 0o600,
        caps: FileCaps::none(),
    };
    let label = caller.label();
    shared.create(label, attr, Body::Pipe)
}

// With which flags an end of a pipe is opened.
fn end_flags(reads: bool) -> OpenFlags
    ensures { result ≡ end_flags reads }
{
    OpenFlags {
        r: reads,
        w: !reads,
        c: false,
        x: false,
        t: false,
        a: false,
    }
}
