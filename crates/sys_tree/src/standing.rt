// The call `chdir`.
ghost use Rattle.std.specs.Prelude.{◌≡◌, IsSome};
ghost use Rattle.std.specs.FinMap as map;
ghost use Rattle.kern_model.specs.State.{SetProcess, apply_change, process_at};
ghost use Rattle.kern_model.specs.TreeRows.{chdir_row};
ghost use Rattle.sys_lookup.specs.PlaysRow.{PlaysCall};

use chk_rules::Checks;
use kern_model::{Oid, Path, Pid};
use sys_lookup::{CallResult, Caller, Effect, PathArgument, Shared};

/// `chdir`: a directory becomes the caller's current one.
pub fn chdir(shared: &mut Shared, checks: &mut Checks, who: &Pid, path: &Path) -> CallResult
    requires living { IsSome (map.get shared.old.procs who.now) }
    ensures { PlaysCall shared.old who.now checks.old (λ s who p. chdir_row s who p path.now) result shared.new checks.new }
{
    let caller = Caller::new(shared, who);
    let (id, place) = caller.reach(checks, PathArgument::First, path)?;
    caller.enter(checks, &id, place)?;
    change_directory(shared, who, id);
    Ok(Effect::done())
}

// Has a directory be the current one of a living process.
fn change_directory(shared: &mut Shared, who: &Pid, dir: Oid)
    requires { IsSome (map.get shared.old.procs who.now) }
    ensures { shared.new ≡ apply_change shared.old (SetProcess who.now (record (process_at shared.old who.now) { cwd = dir })) }
{
    shared.procs.set_cwd(who, dir);
}
