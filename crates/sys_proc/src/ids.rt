// The calls `setuid` and `setgid`.
ghost use Rattle.std.specs.Prelude.{◌≡◌, true, IfOk, IsSome};
ghost use Rattle.std.specs.FinMap as map;
ghost use Rattle.kern_model.specs.ProcessRows.{setgid_row, setuid_row};
ghost use Rattle.kern_model.specs.State.{process_at};
ghost use Rattle.chk_rules.specs.RowSteps.{GoesOn};
ghost use Rattle.sys_lookup.specs.PlaysRow.{PlaysRow};
ghost use Rattle.sys_proc.specs.IdKind.{all_check, asks_id, effective_check, may_set, set_id_row};

use crate::changing::{CredsChange, change_creds};
use crate::checking::check_of_caller;
use crate::id_kind::IdKind;
use chk_rules::{Checks, Stop, must, prefer};
use kern_model::{Check, Gid, Pid, Uid};
use sys_lookup::{CallResult, Caller, Effect, Shared};

/// `setuid`: the caller gets a user, as its real, effective and saved one where it may, and else as its effective one.
pub fn setuid(shared: &mut Shared, checks: &mut Checks, who: &Pid, user: Uid) -> CallResult
    requires living { IsSome (map.get shared.old.procs who.now) }
    ensures { PlaysRow shared.old checks.old (setuid_row shared.old who.now (process_at shared.old who.now) user) result shared.new checks.new }
{
    set_id(shared, checks, who, IdKind::User, user)
}

/// `setgid`: the caller gets a group, as its real, effective and saved one where it may, and else as its effective one.
pub fn setgid(shared: &mut Shared, checks: &mut Checks, who: &Pid, group: Gid) -> CallResult
    requires living { IsSome (map.get shared.old.procs who.now) }
    ensures { PlaysRow shared.old checks.old (setgid_row shared.old who.now (process_at shared.old who.now) group) result shared.new checks.new }
{
    set_id(shared, checks, who, IdKind::Group, group)
}

// The caller gets an id, as its real, effective and saved one where it may, and else as its effective one.
fn set_id(shared: &mut Shared, checks: &mut Checks, who: &Pid, kind: IdKind, id: u32) -> CallResult
    requires living { IsSome (map.get shared.old.procs who.now) }
    ensures { PlaysRow shared.old checks.old (set_id_row kind shared.old who.now (process_at shared.old who.now) id) result shared.new checks.new }
{
    let caller = Caller::new(shared, who);
    let all = sets_all(&caller, checks, who, kind, id)?;
    change_creds(shared, who, CredsChange::Id { kind, id, all });
    Ok(Effect::done())
}

// Whether a caller gets the id as its real, effective and saved one, and not as its effective one alone.
fn sets_all(
    caller: &Caller<'_>,
    checks: &mut Checks,
    who: &Pid,
    kind: IdKind,
    id: u32,
) -> Result<bool, Stop>
    ensures step { GoesOn checks.old (asks_id kind who.now caller.now.process id) result checks.new }
    ensures allowed { IfOk result (λ all. may_set kind caller.now.process.ids id all ≡ true) }
{
    let all = prefer(checks, &all_check(caller, who, kind, id))?;
    if !all {
        must(checks, &effective_check(caller, who, kind, id))?;
    }
    Ok(all)
}

// The check whether the id is the real, effective and saved one already.
fn all_check(caller: &Caller<'_>, who: &Pid, kind: IdKind, id: u32) -> Check
    ensures { result ≡ all_check kind who.now caller.now.process id }
{
    let creds = caller.creds();
    let holds = kind.held(&creds.ids).are_all(id);
    check_of_caller(kind.all_check_name(), holds, None, caller, who)
}

// The check whether the id is the real or the saved one.
fn effective_check(caller: &Caller<'_>, who: &Pid, kind: IdKind, id: u32) -> Check
    ensures { result ≡ effective_check kind who.now caller.now.process id }
{
    let creds = caller.creds();
    let holds = kind.held(&creds.ids).may_be_effective(id);
    check_of_caller(kind.effective_check_name(), holds, None, caller, who)
}
