// The call `cap_set_proc`.
ghost use Rattle.std.specs.Prelude.{◌≡◌, IsSome};
ghost use Rattle.std.specs.FinMap as map;
ghost use Rattle.kern_model.specs.ProcessRows.{cap_set_proc_row};
ghost use Rattle.kern_model.specs.Rules.{cap_grow};
ghost use Rattle.kern_model.specs.State.{process_at};
ghost use Rattle.sys_lookup.specs.PlaysRow.{PlaysRow};

use crate::changing::{CredsChange, change_creds};
use crate::checking::check_of_caller;
use cap_bits::CapState;
use chk_rules::{Checks, must};
use kern_model::{Answer, Check, CheckName, Pid, Rec};
use sys_lookup::{CallResult, Caller, Effect, Shared};

/// `cap_set_proc`: the caller sets its capability sets.
pub fn cap_set_proc(
    shared: &mut Shared,
    checks: &mut Checks,
    who: &Pid,
    caps: CapState,
) -> CallResult
    requires living { IsSome (map.get shared.old.procs who.now) }
    ensures { PlaysRow shared.old checks.old (cap_set_proc_row shared.old who.now (process_at shared.old who.now) caps) result shared.new checks.new }
{
    let caller = Caller::new(shared, who);
    must(checks, &cap_grow(&caller, who, &caps))?;
    change_creds(shared, who, CredsChange::Caps(caps));
    Ok(Effect {
        answer: Answer::Nothing,
        own: Some(Rec::CapSetProc { who: *who, caps }),
    })
}

// The check whether a caller may set its capability sets to these.
fn cap_grow(caller: &Caller<'_>, who: &Pid, caps: &CapState) -> Check
    ensures { result ≡ cap_grow who.now caller.now.process caps.now }
{
    let creds = caller.creds();
    check_of_caller(CheckName::CapGrow, creds.may_set(caps), None, caller, who)
}
