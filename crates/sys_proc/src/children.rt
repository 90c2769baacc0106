// The calls `fork` and `wait`.
ghost use Rattle.std.specs.Prelude.{IsSome};
ghost use Rattle.std.specs.FinMap as map;
ghost use Rattle.kern_model.specs.ProcessRows.{fork_row, wait_row};
ghost use Rattle.kern_model.specs.State.{process_at};
ghost use Rattle.kern_model.specs.Valid.{IsValid};
ghost use Rattle.sys_lookup.specs.PlaysRow.{LeavesNothing};
ghost use Rattle.sys_proc.specs.Playing.{PlaysUnchecked};

use chk_rules::Stop;
use kern_model::{Answer, Errno, Pid, Rec};
use proc_table::{ProcError, ReapError};
use sys_lookup::{CallResult, Effect, Shared};

/// `fork`: the caller gets a child that is like it, with descriptors on the same descriptions.
pub fn fork(shared: &mut Shared, who: &Pid) -> CallResult
    requires valid { ∥ IsValid shared.old ∥₁ }
    requires living { IsSome (map.get shared.old.procs who.now) }
    ensures { PlaysUnchecked shared.old (fork_row shared.old who.now (process_at shared.old who.now)) result shared.new }
{
    let child = match shared.procs.fork(who) {
        Ok(child) => child,
        Err(ProcError::Full) => return Err(Stop::Refused(Errno::EAGAIN)),
        Err(ProcError::NoMemory(e)) => return Err(Stop::NoMemory(e)),
    };
    shared.fds.copy_process(who, &child)?;
    Ok(Effect {
        answer: Answer::Process(child),
        own: Some(Rec::Fork { who: *who, child }),
    })
}

/// `wait`: the child of the caller that ended first is taken off its list, and the call answers how it ended. It takes no memory.
pub fn wait(shared: &mut Shared, who: &Pid) -> CallResult
    requires { IsSome (map.get shared.old.procs who.now) }
    ensures played { PlaysUnchecked shared.old (wait_row shared.old who.now (process_at shared.old who.now)) result shared.new }
    ensures nothing { LeavesNothing result }
{
    match shared.procs.reap(who) {
        Ok((child, ending)) => Ok(Effect::answers(Answer::Ended(child, ending))),
        Err(ReapError::NoChild) => Err(Stop::Refused(Errno::ECHILD)),
        Err(ReapError::NoneEnded) => Err(Stop::Refused(Errno::EAGAIN)),
    }
}
