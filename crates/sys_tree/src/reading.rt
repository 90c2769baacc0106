// The calls `stat` and `readdir`, which change nothing.
ghost use Rattle.kern_model.specs.TreeRows.{readdir_row, stat_row};
ghost use Rattle.sys_tree.specs.Playing.{PlaysReading};

use chk_rules::{Checks, refuse_if};
use kern_model::{Answer, Errno, Path};
use sys_lookup::{CallResult, Caller, Effect, PathArgument};

/// `stat`: what is reported of the object at the end of a path.
pub fn stat(caller: &Caller<'_>, checks: &mut Checks, path: &Path) -> CallResult
    ensures { PlaysReading caller.now checks.old (λ s who p. stat_row s who p path.now) result checks.new }
{
    let (id, place) = caller.reach(checks, PathArgument::First, path)?;
    caller.read_object(checks, &id, place)?;
    Ok(Effect::answers(Answer::Stat(caller.report(&id))))
}

/// `readdir`: the names in a directory, sorted by their bytes.
pub fn readdir(caller: &Caller<'_>, checks: &mut Checks, path: &Path) -> CallResult
    ensures { PlaysReading caller.now checks.old (λ s who p. readdir_row s who p path.now) result checks.new }
{
    let (id, place) = caller.reach(checks, PathArgument::First, path)?;
    let dir = caller.read_object(checks, &id, place)?;
    refuse_if(!dir.is_directory(), Errno::ENOTDIR)?;
    caller.dac_read(checks, &dir, place)?;
    let names = caller.names(&id)?;
    Ok(Effect::answers(Answer::Names(names)))
}
