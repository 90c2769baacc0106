// The calls `aud_write` and `aud_switch`.
ghost use Rattle.std.specs.Prelude.{◌≡◌, IsSome, None, false};
ghost use Rattle.std.specs.FinMap as map;
ghost use Rattle.kern_model.specs.AuditRows.{aud_switch_row, aud_write_row};
ghost use Rattle.kern_model.specs.Rules.{on_caller};
ghost use Rattle.kern_model.specs.State.{SetProcess, apply_change, process_at};
ghost use Rattle.sys_lookup.specs.PlaysRow.{PlaysRow};

use chk_rules::{Checks, Stop, must};
use kern_model::{Answer, ByteList, Check, CheckName, Pid, Place, Rec, Thing};
use sys_lookup::{Caller, Effect, Shared};

/// `aud_write`: a note is left in the trail.
#[inline(never)]
pub fn aud_write(
    shared: &Shared,
    checks: &mut Checks,
    who: &Pid,
    bytes: &ByteList,
) -> Result<Effect, Stop>
    requires { IsSome (map.get shared.now.procs who.now) }
    ensures { PlaysRow shared.now checks.old (aud_write_row shared.now who.now (process_at shared.now who.now) bytes.now) result shared.now checks.new }
{
    let caller = Caller::new(shared, who);
    must(checks, &by_capability(CheckName::AudWrite, who, &caller))?;
    Ok(Effect {
        answer: Answer::Nothing,
        own: Some(Rec::Note {
            who: *who,
            bytes: bytes.copy()?,
        }),
    })
}

/// `aud_switch`: whether denials of the caller leave records is set.
#[inline(never)]
pub fn aud_switch(
    shared: &mut Shared,
    checks: &mut Checks,
    who: &Pid,
    on: bool,
) -> Result<Effect, Stop>
    requires { IsSome (map.get shared.old.procs who.now) }
    ensures { PlaysRow shared.old checks.old (aud_switch_row shared.old who.now (process_at shared.old who.now) on) result shared.new checks.new }
{
    let caller = Caller::new(shared, who);
    must(checks, &by_capability(CheckName::AudSwitch, who, &caller))?;
    switch(shared, who, on);
    Ok(Effect {
        answer: Answer::Nothing,
        own: Some(Rec::Switch { who: *who, on }),
    })
}

// Sets whether denials of a living process leave records.
fn switch(shared: &mut Shared, who: &Pid, on: bool)
    requires { IsSome (map.get shared.old.procs who.now) }
    ensures { shared.new ≡ apply_change shared.old (SetProcess who.now (record (process_at shared.old who.now) { audited = on })) }
{
    shared.procs.set_audited(who, on);
}

// The check of the caller that only a capability passes.
fn by_capability(name: CheckName, who: &Pid, caller: &Caller<'_>) -> Check
    ensures { result ≡ on_caller name false None who.now caller.now.process }
{
    Check {
        name,
        holds: false,
        thing: Thing::Process(*who),
        thing_label: caller.label(),
        new_label: None,
        place: Place::Caller,
    }
}
