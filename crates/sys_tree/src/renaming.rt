// The call `rename`.
ghost use Rattle.std.specs.Prelude.{◌≡◌, ◌&&◌, IfOk, IsSome, not, true};
ghost use Rattle.std.specs.FinMap as map;
ghost use Rattle.kern_model.specs.Arguments.{are_names};
ghost use Rattle.kern_model.specs.State.{look};
ghost use Rattle.kern_model.specs.TreeRows.{rename_row, target_entry};
ghost use Rattle.kern_model.specs.Valid.{IsDir};
ghost use Rattle.chk_rules.specs.RowSteps.{GoesOn};
ghost use Rattle.sys_lookup.specs.PlaysRow.{PlaysCall};
ghost use Rattle.sys_lookup.specs.Walks.{IsEntry};
ghost use Rattle.sys_tree.specs.Entries.{IsReadBy, JudgesReplacing, PlaysMove, target_left};

use crate::removing::old_entry;
use chk_rules::{Checks, Stop, refuse_if};
use fs_dirs::MoveError;
use kern_model::{Errno, Oid, Path, Pid};
use sys_lookup::{CallResult, Caller, Effect, LastName, Metadata, PathArgument, Shared};

/// `rename`: an entry moves to another name, in place of what is there.
pub fn rename(
    shared: &mut Shared,
    checks: &mut Checks,
    who: &Pid,
    path: &Path,
    to: &Path,
) -> CallResult
    requires living { IsSome (map.get shared.old.procs who.now) }
    ensures played { PlaysCall shared.old who.now checks.old (λ s who p. rename_row s who p path.now to.now) result shared.new checks.new }
    ensures names { are_names to.now ≡ true }
{
    let _names = to.components();
    let caller = Caller::new(shared, who);
    let (dir, name, object) = old_entry(&caller, checks, path)?;
    let (into, new, target) = target_entry(&caller, checks, &object.id, to)?;
    let moves = give_way(&caller, checks, &object, target, to)?;
    if moves {
        move_entry(shared, &dir, &name, &into, &new)
    } else {
        Ok(Effect::done())
    }
}

// The entry to which an object is to move: its directory, its name, and what has it, if something does.
fn target_entry<'a>(
    caller: &Caller<'_>,
    checks: &mut Checks,
    id: &Oid,
    to: &'a Path,
) -> Result<(Oid, LastName<'a>, Option<Oid>), Stop>
    ensures step { GoesOn checks.old (target_entry caller.now.state caller.now.process to.now id.now) result checks.new }
    ensures entry { IfOk result (λ e. IsEntry caller.now.state e.0 e.1 e.2) }
{
    let (dir, name, target) = caller.walk(checks, PathArgument::Second, to)?.into_entry()?;
    let place = PathArgument::Second.dir_place(to);
    caller.write_directory(checks, &dir, place, &caller.held_order(id, &dir, place))?;
    Ok((dir, name, target))
}

// Has what is at the target, if something is, give way to an object, and returns whether the object moves: not where that is the
// object itself.
fn give_way(
    caller: &Caller<'_>,
    checks: &mut Checks,
    object: &Metadata,
    target: Option<Oid>,
    to: &Path,
) -> Result<bool, Stop>
    ensures { IsReadBy caller.now object.now → GoesOn checks.old (target_left caller.now to.now object.now.id target) result checks.new }
{
    let Some(id) = target else {
        return Ok(true);
    };
    let target = caller.write_object(checks, &id, PathArgument::Second.last_place(to))?;
    if id.is_same(&object.id) {
        return Ok(false);
    }
    may_replace(caller, object, &target)?;
    Ok(true)
}

// Refuses that an object takes the place of another one that is of another sort, or is a directory with entries.
fn may_replace(caller: &Caller<'_>, object: &Metadata, target: &Metadata) -> Result<(), Stop>
    ensures { JudgesReplacing caller.now object.now target.now result }
{
    let moves = object.is_directory();
    let goes = target.is_directory();
    refuse_if(only_first(moves, goes), Errno::ENOTDIR)?;
    refuse_if(only_first(goes, moves), Errno::EISDIR)?;
    let empty = caller.is_empty(&target.id);
    refuse_if(only_first(goes, empty), Errno::ENOTEMPTY)
}

// Whether the first holds and the second does not.
fn only_first(a: bool, b: bool) -> bool
    ensures { result ≡ (a && not b) }
{
    a && !b
}

// Moves an entry, unless a directory would come to lie under itself or the new directory is removed.
fn move_entry(
    shared: &mut Shared,
    dir: &Oid,
    name: &LastName<'_>,
    into: &Oid,
    new: &LastName<'_>,
) -> CallResult
    requires into { IsDir shared.old.objects into.now }
    requires there { IsSome (look shared.old dir.now name.now) }
    ensures { PlaysMove shared.old dir.now name.now into.now new.now result shared.new }
{
    match shared.tree.move_entry(dir, name.name(), into, new.name()) {
        Ok(()) => Ok(Effect::done()),
        Err(MoveError::Loop) => Err(Stop::Refused(Errno::EINVAL)),
        Err(MoveError::Removed) => Err(Stop::Refused(Errno::ENOENT)),
        Err(MoveError::NoMemory(e)) => Err(Stop::NoMemory(e)),
        Err(MoveError::Absent) => unreachable!(),
    }
}
