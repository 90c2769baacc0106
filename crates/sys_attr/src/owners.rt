// The call `chown`.
ghost use Rattle.std.specs.Prelude.{IsSome};
ghost use Rattle.std.specs.FinMap as map;
ghost use Rattle.kern_model.specs.AttrRows.{asks_owner};
ghost use Rattle.kern_model.specs.State.{object_at};
ghost use Rattle.kern_model.specs.Valid.{IsValid};
ghost use Rattle.sys_lookup.specs.PlaysRow.{PlaysRow};
ghost use Rattle.sys_lookup.specs.StepOn.{StepOn};
ghost use Rattle.sys_attr.specs.Objects.{ownership_row};

use crate::changing::give_attr;
use crate::modes::{AskedMode, mode_kept};
use crate::objects::{ObjectArgument, write_named};
use chk_rules::{Checks, Stop};
use kern_model::{Attr, Mode, Path, Pid, Place};
use sys_lookup::{CallResult, Caller, Effect, Metadata, Ownership, Shared, has_set_id};

/// `chown`: an object gets an owner and a group. Its set-id bits go where the caller may not keep them.
pub fn chown(
    shared: &mut Shared,
    checks: &mut Checks,
    who: &Pid,
    path: &Path,
    to: Ownership,
) -> CallResult
    requires valid { ∥ IsValid shared.old ∥₁ }
    requires living { IsSome (map.get shared.old.procs who.now) }
    ensures { PlaysRow shared.old checks.old (ownership_row shared.old who.now path.now to) result shared.new checks.new }
{
    let caller = Caller::new(shared, who);
    let (object, place) = write_named(&caller, checks, ObjectArgument::Path(path))?;
    let mode = ask_owner(&caller, checks, &object, to, place)?;
    give_attr(
        shared,
        &object.id,
        Attr {
            owner: to.owner,
            group: to.group,
            mode,
            ..object.attr
        },
    );
    Ok(Effect::done())
}

// Asks for an owner and a group of an object, and returns the mode that it keeps.
fn ask_owner(
    caller: &Caller<'_>,
    checks: &mut Checks,
    object: &Metadata,
    to: Ownership,
    place: Place,
) -> Result<Mode, Stop>
    ensures { StepOn checks.old object.now (λ s id. asks_owner caller.now.process to.owner to.group id place (object_at s id)) result checks.new }
{
    caller.chown(checks, object, to, place)?;
    let mode = object.attr.mode;
    let by_right = !has_set_id(mode);
    mode_kept(caller, checks, object, AskedMode { mode, by_right }, place)
}
