// The call `link`.
ghost use Rattle.std.specs.Prelude.{◌≡◌, None, IfOk, IsSome, OnOk, true, false, nat_le};
ghost use Rattle.std.specs.FinMap as map;
ghost use Rattle.kern_model.specs.Arguments.{are_names};
ghost use Rattle.kern_model.specs.Entries.{is_removed, link_count};
ghost use Rattle.kern_model.specs.Kinds.{is_dir};
ghost use Rattle.kern_model.specs.State.{object_at};
ghost use Rattle.kern_model.specs.TreeRows.{asks_name, link_row, name_spot};
ghost use Rattle.kern_model.specs.Valid.{IsValid};
ghost use Rattle.kern_model.specs.declared.limits.TheConstants.{MAX_LINKS};
ghost use Rattle.chk_rules.specs.RowSteps.{GoesOn};
ghost use Rattle.sys_lookup.specs.PlaysRow.{PlaysCall};
ghost use Rattle.sys_lookup.specs.Walks.{IsEntry};

use chk_rules::{Checks, Stop, refuse_if};
use kern_model::limits::MAX_LINKS;
use kern_model::{Errno, Oid, Path, Pid, Place};
use sys_lookup::{CallResult, Caller, Effect, PathArgument, Shared, Spot};

/// `link`: an object that is no directory gets one more name.
pub fn link(
    shared: &mut Shared,
    checks: &mut Checks,
    who: &Pid,
    path: &Path,
    to: &Path,
) -> CallResult
    requires valid { ∥ IsValid shared.old ∥₁ }
    requires living { IsSome (map.get shared.old.procs who.now) }
    ensures played { PlaysCall shared.old who.now checks.old (λ s who p. link_row s who p path.now to.now) result shared.new checks.new }
    ensures names { are_names to.now ≡ true }
{
    let _names = to.components();
    let caller = Caller::new(shared, who);
    let (id, place) = caller.reach(checks, PathArgument::First, path)?;
    ask_name(&caller, checks, &id, place)?;
    let (dir, name) = name_spot(&caller, checks, &id, to)?;
    shared.add_entry(&dir, &name, &id)?;
    Ok(Effect::done())
}

// Asks for one more name of an object.
fn ask_name(caller: &Caller<'_>, checks: &mut Checks, id: &Oid, place: Place) -> Result<(), Stop>
    ensures step { GoesOn checks.old (λ rest. asks_name caller.now.state caller.now.process id.now place (rest tt)) result checks.new }
    ensures no_dir { OnOk result (is_dir (object_at caller.now.state id.now).kind ≡ false) }
    ensures few { OnOk result (nat_le MAX_LINKS (link_count caller.now.state id.now) ≡ false) }
{
    let object = caller.write_object(checks, id, place)?;
    caller.link_dir(checks, &object, place)?;
    let names = caller.name_count(id) as usize;
    refuse_if(names >= MAX_LINKS, Errno::EMLINK)
}

// The directory and the name of an entry that is to be made for an object.
fn name_spot<'a>(
    caller: &Caller<'_>,
    checks: &mut Checks,
    id: &Oid,
    to: &'a Path,
) -> Result<Spot<'a>, Stop>
    ensures step { GoesOn checks.old (name_spot caller.now.state caller.now.process to.now id.now) result checks.new }
    ensures entry { IfOk result (λ e. IsEntry caller.now.state e.0 e.1 None) }
    ensures stands { IfOk result (λ e. is_removed caller.now.state e.0 ≡ false) }
{
    let (dir, name) = caller
        .walk(checks, PathArgument::Second, to)?
        .into_new_name()?;
    let place = PathArgument::Second.dir_place(to);
    caller.enter_in(checks, &dir, place, &caller.held_order(id, &dir, place))?;
    Ok((dir, name))
}
