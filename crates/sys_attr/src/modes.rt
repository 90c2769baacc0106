// The calls `chmod` and `umask`.
ghost use Rattle.std.specs.Prelude.{◌≡◌, IsSome};
ghost use Rattle.std.specs.FinMap as map;
ghost use Rattle.kern_model.specs.AttrRows.{asks_mode, chmod_row, is_kept_by_right, keeps_mode};
ghost use Rattle.kern_model.specs.ProcessRows.{umask_row};
ghost use Rattle.kern_model.specs.State.{State, object_at, process_at};
ghost use Rattle.kern_model.specs.Valid.{IsValid};
ghost use Rattle.kern_model.specs.declared.numbers.Oid.{Oid};
ghost use Rattle.sys_lookup.specs.PlaysRow.{LeavesNothing, PlaysRow};
ghost use Rattle.sys_lookup.specs.StepOn.{StepOn};
ghost use Rattle.sys_lookup.specs.Shared.{metadata_of};

use crate::changing::{give_attr, give_umask};
use crate::objects::{ObjectArgument, write_named};
use chk_rules::{Checks, Stop};
use kern_model::limits::MAX_PERMISSIONS;
use kern_model::{Answer, Attr, Mode, Path, Pid, Place};
use sys_lookup::{CallResult, Caller, Effect, Metadata, Shared, has_set_id};

/// `chmod`: an object gets a mode. Its set-id bits stay away where the caller does not own it and may not keep them.
pub fn chmod(
    shared: &mut Shared,
    checks: &mut Checks,
    who: &Pid,
    path: &Path,
    mode: Mode,
) -> CallResult
    requires valid { ∥ IsValid shared.old ∥₁ }
    requires living { IsSome (map.get shared.old.procs who.now) }
    ensures { PlaysRow shared.old checks.old (chmod_row shared.old who.now (process_at shared.old who.now) path.now mode) result shared.new checks.new }
{
    let caller = Caller::new(shared, who);
    let (object, place) = write_named(&caller, checks, ObjectArgument::Path(path))?;
    let mode = ask_mode(&caller, checks, &object, mode, place)?;
    give_attr(
        shared,
        &object.id,
        Attr {
            mode,
            ..object.attr
        },
    );
    Ok(Effect::done())
}

// Asks for a mode, and returns what the object gets of it.
fn ask_mode(
    caller: &Caller<'_>,
    checks: &mut Checks,
    object: &Metadata,
    mode: Mode,
    place: Place,
) -> Result<Mode, Stop>
    ensures { StepOn checks.old object.now (λ s id. asks_mode caller.now.process mode id place (object_at s id)) result checks.new }
{
    caller.owner(checks, object, place)?;
    let by_right = keeps_by_right(caller, object, mode);
    mode_kept(caller, checks, object, AskedMode { mode, by_right }, place)
}

// Whether the caller may set this mode in full without a capability: it has no set-id bit, or the caller owns the object.
fn keeps_by_right(caller: &Caller<'_>, object: &Metadata, mode: Mode) -> bool
    ensures { (s : State) (id : Oid) → object.now ≡ metadata_of s id → result ≡ is_kept_by_right caller.now.process mode (object_at s id) }
{
    !has_set_id(mode) || caller.is_owner(object)
}

/// A mode that is asked for, and whether an object gets all of it without a capability of the caller.
#[derive(Clone, Copy, Debug, PartialEq, Eq)]
pub struct AskedMode {
    pub mode: Mode,
    pub by_right: bool,
}

/// The mode that an object gets where this one is asked for: all of it where that is by right or the caller may keep set-id bits,
/// and else its permission bits.
pub fn mode_kept(
    caller: &Caller<'_>,
    checks: &mut Checks,
    object: &Metadata,
    asked: AskedMode,
    place: Place,
) -> Result<Mode, Stop>
    ensures { StepOn checks.old object.now (λ s id. keeps_mode asked.by_right asked.mode id place (object_at s id)) result checks.new }
{
    let keeps = caller.fsetid(checks, object, asked.by_right, place)?;
    if keeps {
        Ok(asked.mode)
    } else {
        Ok(asked.mode & MAX_PERMISSIONS)
    }
}

/// `umask`: the caller gets the bits that its new objects do not get. The answer is the old ones. No memory is taken.
pub fn umask(shared: &mut Shared, checks: &Checks, who: &Pid, mode: Mode) -> CallResult
    requires living { IsSome (map.get shared.old.procs who.now) }
    ensures played { PlaysRow shared.old checks.now (umask_row shared.old who.now (process_at shared.old who.now) mode) result shared.new checks.now }
    ensures nothing { LeavesNothing result }
{
    let old = give_umask(shared, who, mode);
    Ok(Effect::answers(Answer::Bits(old)))
}
