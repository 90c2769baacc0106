// The calls `rmdir` and `unlink`.
ghost use Rattle.std.specs.Prelude.{◌≡◌, Some, IfOk, IsSome};
ghost use Rattle.std.specs.FinMap as map;
ghost use Rattle.kern_model.specs.State.{DropEntry, apply_change, look};
ghost use Rattle.kern_model.specs.TreeRows.{must_be_empty, rmdir_row, unlink_row};
ghost use Rattle.chk_rules.specs.CheckLog.{CheckLog};
ghost use Rattle.chk_rules.specs.RowSteps.{GoesOn};
ghost use Rattle.sys_lookup.specs.PlaysRow.{PlaysCall};
ghost use Rattle.sys_lookup.specs.Walks.{IsEntry};
ghost use Rattle.sys_tree.specs.Entries.{IsReadBy, entry_taken};

use chk_rules::{Checks, Stop, refuse_if};
use fs_dirs::Absent;
use kern_model::{Errno, Oid, Path, Pid};
use sys_lookup::{CallResult, Caller, Effect, LastName, Metadata, PathArgument, Shared};

/// `rmdir`: the entry of an empty directory is taken away.
pub fn rmdir(shared: &mut Shared, checks: &mut Checks, who: &Pid, path: &Path) -> CallResult
    requires living { IsSome (map.get shared.old.procs who.now) }
    ensures { PlaysCall shared.old who.now checks.old (λ s who p. rmdir_row s who p path.now) result shared.new checks.new }
{
    let caller = Caller::new(shared, who);
    let (dir, name, object) = old_entry(&caller, checks, path)?;
    must_be_empty(&caller, &object)?;
    drop_entry(shared, &dir, &name);
    Ok(Effect::done())
}

/// `unlink`: an entry of an object that is no directory is taken away.
pub fn unlink(shared: &mut Shared, checks: &mut Checks, who: &Pid, path: &Path) -> CallResult
    requires living { IsSome (map.get shared.old.procs who.now) }
    ensures { PlaysCall shared.old who.now checks.old (λ s who p. unlink_row s who p path.now) result shared.new checks.new }
{
    let caller = Caller::new(shared, who);
    let (dir, name, object) = old_entry(&caller, checks, path)?;
    caller.unlink_dir(checks, &object, PathArgument::First.last_place(path))?;
    drop_entry(shared, &dir, &name);
    Ok(Effect::done())
}

/// An entry that may be taken away: its directory, its name, and the metadata of its object.
pub fn old_entry<'a>(
    caller: &Caller<'_>,
    checks: &mut Checks,
    path: &'a Path,
) -> Result<(Oid, LastName<'a>, Metadata), Stop>
    ensures step { GoesOn checks.old (entry_taken caller.now path.now) result checks.new }
    ensures entry { IfOk result (λ e. IsEntry caller.now.state e.0 e.1 (Some e.2.id)) }
    ensures object { IfOk result (λ e. IsReadBy caller.now e.2) }
{
    let (dir, name, id) = caller
        .walk(checks, PathArgument::First, path)?
        .into_entry_of_object()?;
    let object = caller.leave_from(checks, path, &dir, &id)?;
    Ok((dir, name, object))
}

// Refuses an object that is no directory, or has entries.
fn must_be_empty(caller: &Caller<'_>, object: &Metadata) -> Result<(), Stop>
    ensures { (log : CheckLog) → IsReadBy caller.now object.now → GoesOn log (λ rest. must_be_empty caller.now.state object.now.id (rest tt)) result log }
{
    refuse_if(!object.is_directory(), Errno::ENOTDIR)?;
    refuse_if(!caller.is_empty(&object.id), Errno::ENOTEMPTY)
}

// Takes away an entry that is there.
fn drop_entry(shared: &mut Shared, dir: &Oid, name: &LastName<'_>)
    requires { IsSome (look shared.old dir.now name.now) }
    ensures { shared.new ≡ apply_change shared.old (DropEntry (dir.now, name.now)) }
{
    match shared.tree.remove(dir, name.name()) {
        Ok(()) => {}
        Err(Absent) => unreachable!(),
    }
}
