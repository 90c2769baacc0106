// The call `mac_set_proc`.
ghost use Rattle.std.specs.Prelude.{◌≡◌, IsSome};
ghost use Rattle.std.specs.FinMap as map;
ghost use Rattle.kern_model.specs.ProcessRows.{asks_own_label, mac_set_proc_row};
ghost use Rattle.kern_model.specs.Rules.{mac_subject};
ghost use Rattle.chk_rules.specs.RowSteps.{GoesOn};
ghost use Rattle.sys_lookup.specs.PlaysRow.{PlaysCall};

use crate::changing::{CredsChange, change_creds};
use crate::checking::check_of_caller;
use chk_rules::{Checks, Stop, mac_write_ok, must};
use kern_model::{Answer, Check, CheckName, Pid, Rec};
use lab_lattice::Label;
use sys_lookup::{CallResult, Caller, Effect, Shared};

/// `mac_set_proc`: the caller gets a label. To get another one than it has takes the capability.
pub fn mac_set_proc(shared: &mut Shared, checks: &mut Checks, who: &Pid, label: Label) -> CallResult
    requires living { IsSome (map.get shared.old.procs who.now) }
    ensures { PlaysCall shared.old who.now checks.old (λ s who p. mac_set_proc_row s who p label) result shared.new checks.new }
{
    let caller = Caller::new(shared, who);
    may_get(&caller, checks, who, &label)?;
    let old = caller.label();
    change_creds(shared, who, CredsChange::Label(label));
    Ok(Effect {
        answer: Answer::Nothing,
        own: Some(Rec::MacSetProc {
            who: *who,
            old,
            new: label,
        }),
    })
}

// Checks that a caller may get a label: it has it already, or has the capability.
fn may_get(caller: &Caller<'_>, checks: &mut Checks, who: &Pid, label: &Label) -> Result<(), Stop>
    ensures { GoesOn checks.old (λ rest. asks_own_label who.now caller.now.process label.now (rest tt)) result checks.new }
{
    if mac_write_ok(label, &caller.label()) {
        Ok(())
    } else {
        must(checks, &mac_subject(caller, who, label))
    }
}

// The check whether a caller may get another label: never without the capability.
fn mac_subject(caller: &Caller<'_>, who: &Pid, label: &Label) -> Check
    ensures { result ≡ mac_subject who.now caller.now.process label.now }
{
    check_of_caller(CheckName::MacSubject, false, Some(*label), caller, who)
}
