// The call `exec`.
ghost use Rattle.std.specs.Prelude.{◌≡◌, Ok, IsSome, None, Some, cond};
ghost use Rattle.std.specs.FinMap as map;
ghost use Rattle.kern_model.specs.Kinds.{sets_group as mode_sets_group, sets_user as mode_sets_user};
ghost use Rattle.kern_model.specs.ProcessRows.{asks_program, exec_row, run};
ghost use Rattle.kern_model.specs.State.{object_at, process_at};
ghost use Rattle.sys_lookup.specs.PlaysRow.{PlaysRow};
ghost use Rattle.sys_proc.specs.Playing.{PlaysUnchecked};
ghost use Rattle.sys_lookup.specs.StepOn.{StepOn};

use chk_rules::{Checks, Stop};
use kern_model::{Answer, Attr, Gid, Path, Pid, Place, Rec, Uid};
use sys_lookup::{
    CallResult, Caller, Effect, Metadata, PathArgument, Shared, sets_group, sets_user,
};

/// `exec`: the caller takes on the credentials that a program gives.
pub fn exec(shared: &mut Shared, checks: &mut Checks, who: &Pid, path: &Path) -> CallResult
    requires living { IsSome (map.get shared.old.procs who.now) }
    ensures { PlaysRow shared.old checks.old (exec_row shared.old who.now (process_at shared.old who.now) path.now) result shared.new checks.new }
{
    let caller = Caller::new(shared, who);
    let (id, place) = caller.reach(checks, PathArgument::First, path)?;
    let program = caller.read_object(checks, &id, place)?;
    ask_program(&caller, checks, &program, place)?;
    Ok(run(shared, who, &program))
}

// Checks that the caller may execute a program that was read.
fn ask_program(
    caller: &Caller<'_>,
    checks: &mut Checks,
    program: &Metadata,
    place: Place,
) -> Result<(), Stop>
    ensures { StepOn checks.old program.now (λ s id rest. asks_program caller.now.process id place (object_at s id) (rest tt)) result checks.new }
{
    caller.exec_kind(checks, program, place)?;
    caller.dac_execute(checks, program, place)
}

// A process takes on the credentials that a program gives. No memory is taken.
fn run(shared: &mut Shared, who: &Pid, program: &Metadata) -> Effect
    requires living { IsSome (map.get shared.old.procs who.now) }
    ensures { PlaysUnchecked shared.old (run shared.old.bound who.now (process_at shared.old who.now) program.now.id program.now.attr) (Ok result) shared.new }
{
    let bound = shared.bound;
    let Some(creds) = shared.procs.creds_mut(who) else {
        unreachable!();
    };
    let attr = &program.attr;
    creds.exec_transform(&attr.caps, &bound, user_of(attr), group_of(attr));
    Effect {
        answer: Answer::Nothing,
        own: Some(Rec::Exec {
            who: *who,
            file: program.id,
            file_caps: attr.caps.shown(),
            caps: creds.caps,
        }),
    }
}

// The user that a program gives, if its mode sets one.
fn user_of(attr: &Attr) -> Option<Uid>
    ensures { result ≡ cond (mode_sets_user attr.now.mode) (Some attr.now.owner) None }
{
    sets_user(attr.mode).then_some(attr.owner)
}

// The group that a program gives, if its mode sets one.
fn group_of(attr: &Attr) -> Option<Gid>
    ensures { result ≡ cond (mode_sets_group attr.now.mode) (Some attr.now.group) None }
{
    sets_group(attr.mode).then_some(attr.group)
}
