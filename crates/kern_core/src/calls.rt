// The calls. The body of each stands in the crate of its family; those of the calls on the audit trail stand here.
ghost use Rattle.std.specs.Prelude.{◌≡◌, true, IfOk, IsOk, IsSome};
ghost use Rattle.std.specs.FinMap as map;
ghost use Rattle.kern_model.specs.Arguments.{has_names};
ghost use Rattle.kern_model.specs.Step.{IsPlayed};
ghost use Rattle.kern_model.specs.Valid.{IsValid};
ghost use Rattle.kern_model.specs.Table.{row};
ghost use Rattle.sys_lookup.specs.PlaysRow.{LeavesNothingOf, PlaysCall};
ghost use Rattle.kern_core.specs.Kernel.{TakesNoMemory};

mod auditing;

use crate::outcome::{no_process, report};
use chk_rules::{Checks, Stop};
use kern_model::{Call, NoMemory, Outcome, Pid};
use std::alloc::Global;
use sys_lookup::{Caller, Effect, Shared};

/// Plays one call of a process, and returns the reply and the records that it leaves.
pub fn play(alloc: Global, shared: &mut Shared, who: &Pid, call: &Call) -> Result<Outcome, NoMemory>
    requires valid { ∥ IsValid shared.old ∥₁ }
    ensures played { IfOk result (λ outcome. IsPlayed shared.old who.now call.now outcome shared.new) }
    ensures names { IsSome (map.get shared.old.procs who.now) → has_names call.now ≡ true }
    ensures ready { TakesNoMemory shared.old who.now call.now → IsOk result }
{
    let Some(caller) = Caller::find(shared, who) else {
        return Ok(no_process(alloc));
    };
    let audited = caller.is_audited();
    let mut checks = Checks::new(alloc, *who, caller.label(), caller.caps().e);
    let played = play_body(alloc, shared, &mut checks, who, call);
    report(checks, who, audited, call.name(), played)
}

// Plays the body of a call of a living process.
fn play_body(
    alloc: Global,
    shared: &mut Shared,
    checks: &mut Checks,
    who: &Pid,
    call: &Call,
) -> Result<Effect, Stop>
    requires valid { ∥ IsValid shared.old ∥₁ }
    requires living { IsSome (map.get shared.old.procs who.now) }
    ensures played { PlaysCall shared.old who.now checks.old (λ s who p. row s who p call.now) result shared.new checks.new }
    ensures names { has_names call.now ≡ true }
    ensures nothing { LeavesNothingOf call.now result }
{
    match call {
        Call::OpenPath(_, _, _)
        | Call::Close(_)
        | Call::Read(_, _)
        | Call::Write(_, _)
        | Call::Lseek(_, _, _)
        | Call::Dup(_)
        | Call::Pipe
        | Call::Mkfifo(_, _)
        | Call::Fstat(_) => sys_file::play(alloc, shared, checks, who, call),
        Call::Mkdir(_, _)
        | Call::Rmdir(_)
        | Call::Link(_, _)
        | Call::Unlink(_)
        | Call::Rename(_, _)
        | Call::Readdir(_)
        | Call::Stat(_)
        | Call::Chdir(_) => sys_tree::play(shared, checks, who, call),
        Call::Chmod(_, _)
        | Call::Chown(_, _, _)
        | Call::Umask(_)
        | Call::CapGetFile(_)
        | Call::CapSetFile(_, _)
        | Call::CapGetFd(_)
        | Call::CapSetFd(_, _)
        | Call::MacGetFile(_)
        | Call::MacSetFile(_, _)
        | Call::MacGetFd(_)
        | Call::MacSetFd(_, _) => sys_attr::play(shared, checks, who, call),
        Call::Fork
        | Call::Exec(_)
        | Call::Exit(_)
        | Call::Wait
        | Call::Kill(_, _)
        | Call::Getpid
        | Call::Getppid
        | Call::Getids
        | Call::Setuid(_)
        | Call::Setgid(_)
        | Call::CapGetProc
        | Call::CapSetProc(_)
        | Call::MacGetProc
        | Call::MacSetProc(_) => sys_proc::play(shared, checks, who, call),
        Call::AudWrite(bytes) => auditing::aud_write(shared, checks, who, bytes),
        Call::AudSwitch(on) => auditing::aud_switch(shared, checks, who, *on),
    }
}
