// What is reported of a call.
ghost use Rattle.std.specs.Prelude.{◌≡◌, [], IfOk, IsOk};
ghost use Rattle.kern_model.specs.declared.calls.Reply.TheVariants as reply;
ghost use Rattle.kern_model.specs.declared.calls.Errno.TheVariants as errno;
ghost use Rattle.kern_model.specs.declared.records.Rec.TheVariants as rec;
ghost use Rattle.sys_lookup.specs.PlaysRow.{LeavesNothing};
ghost use Rattle.kern_core.specs.Reports.{OutcomeOf};

use chk_rules::{Checks, Stop};
use kern_model::{CallName, CheckName, Errno, NoMemory, Outcome, Pid, Place, Rec, RecList, Reply};
use std::alloc::Global;
use sys_lookup::Effect;

/// The outcome where no living process has the number. No memory is taken.
pub fn no_process(alloc: Global) -> Outcome
    ensures { result ≡ record { reply = reply.Refused errno.ESRCH; recs = [] } }
{
    Outcome {
        reply: Reply::Refused(Errno::ESRCH),
        recs: RecList::new(alloc),
    }
}

// The record of a denial.
#[inline(never)]
fn denial(who: &Pid, call: CallName, errno: Errno, check: CheckName, place: Place) -> Rec
    ensures { result ≡ rec.Deny who.now call errno check place }
{
    Rec::Deny {
        who: *who,
        call,
        errno,
        check,
        place,
    }
}

/// The outcome of a call whose body gave this result. After the exercises stands the call's own record, or that of the
/// denial where the caller's switch is on. No memory is taken where the body leaves no
/// record.
pub fn report(
    checks: Checks,
    who: &Pid,
    audited: bool,
    name: CallName,
    played: Result<Effect, Stop>,
) -> Result<Outcome, NoMemory>
    ensures reported { IfOk result (λ outcome. OutcomeOf checks who.now audited name played outcome) }
    ensures ready { LeavesNothing played → IsOk result }
{
    let mut recs = checks.into_exercises();
    let reply = match played {
        Ok(effect) => {
            let Effect { answer, own } = effect;
            if let Some(own) = own {
                recs.push(own)?;
            }
            Reply::Done(answer)
        }
        Err(Stop::Denied(check, place)) => {
            let errno = check.errno().unwrap_or(Errno::EPERM);
            if audited {
                recs.push(denial(who, name, errno, check, place))?;
            }
            Reply::Denied {
                errno,
                check,
                place,
            }
        }
        Err(Stop::Refused(errno)) => Reply::Refused(errno),
        Err(Stop::NoMemory(e)) => return Err(e),
    };
    Ok(Outcome { reply, recs })
}
