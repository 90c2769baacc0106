// The calls `exit` and `kill`.
ghost use Rattle.std.specs.Prelude.{◌≡◌, IsSome, Ok, option_copied, option_map};
ghost use Rattle.std.specs.FinMap as map;
ghost use Rattle.kern_model.specs.ProcessRows.{asks_signal, exit_row, kill_row, kill_with, signal_row as signalled_row};
ghost use Rattle.kern_model.specs.Rules.{kill_rule as kill_check, mac_write_process};
ghost use Rattle.kern_model.specs.State.{process_at};
ghost use Rattle.kern_model.specs.Valid.{IsValid};
ghost use Rattle.chk_rules.specs.RowSteps.{GoesOn};
ghost use Rattle.proc_table.specs.Procs.{creds_of};
ghost use Rattle.sys_lookup.specs.PlaysRow.{PlaysRow};
ghost use Rattle.sys_proc.specs.Playing.{PlaysUnchecked};

use chk_rules::{Checks, Stop, mac_write_ok, must};
use kern_model::{Answer, Check, CheckName, Ending, Errno, Pid, Place, Rec, Signal, Thing};
use lab_lattice::Label;
use proc_table::Proc;
use sys_lookup::{CallResult, Caller, Effect, Shared, must_if};

/// `exit`: the caller ends. It takes no memory.
pub fn exit(shared: &mut Shared, who: &Pid, code: u8) -> Effect
    requires valid { ∥ IsValid shared.old ∥₁ }
    requires living { IsSome (map.get shared.old.procs who.now) }
    ensures { PlaysUnchecked shared.old (exit_row shared.old who.now (process_at shared.old who.now) code) (Ok result) shared.new }
{
    end(shared, who, Ending::Exit(code))
}

/// `kill`: a process ends by a signal, or the call asks only whether the caller may send it one.
pub fn kill(
    shared: &mut Shared,
    checks: &mut Checks,
    who: &Pid,
    target: &Pid,
    signal: Signal,
) -> CallResult
    requires valid { ∥ IsValid shared.old ∥₁ }
    requires living { IsSome (map.get shared.old.procs who.now) }
    ensures { PlaysRow shared.old checks.old (kill_row shared.old who.now (process_at shared.old who.now) target.now signal) result shared.new checks.new }
{
    let sender = Caller::new(shared, who);
    must(checks, &mac_write(&sender, target, &target.label))?;
    let Some(receiver) = receiver_of(shared, target) else {
        return Err(Stop::Refused(Errno::ESRCH));
    };
    may_signal(&sender, checks, target, receiver)?;
    Ok(send_signal(shared, target, signal))
}

// The living process with the number of a signal's receiver, if there is one.
fn receiver_of<'a>(shared: &'a Shared, target: &Pid) -> Option<&'a Proc>
    ensures { option_map creds_of (option_copied result) ≡ option_map creds_of (map.get shared.now.procs target.now) }
{
    shared.procs.find(target)
}

// Checks that a process may send a signal to a living one, whose present label may be another than that of its number.
fn may_signal(
    sender: &Caller<'_>,
    checks: &mut Checks,
    target: &Pid,
    receiver: &Proc,
) -> Result<(), Stop>
    ensures { GoesOn checks.old (λ rest. asks_signal sender.now.process target.now receiver.now (rest tt)) result checks.new }
{
    let present = &receiver.creds.label;
    let is_other = !mac_write_ok(present, &target.label);
    must_if(is_other, checks, &mac_write(sender, target, present))?;
    must(checks, &kill_rule(sender, target, receiver))
}

// The check whether a process may write another one, by a label.
fn mac_write(sender: &Caller<'_>, target: &Pid, label: &Label) -> Check
    ensures { result ≡ mac_write_process sender.now.process target.now label.now }
{
    Check {
        name: CheckName::MacWrite,
        holds: mac_write_ok(&sender.label(), label),
        thing: Thing::Process(*target),
        thing_label: *label,
        new_label: None,
        place: Place::Target,
    }
}

// The check whether a process may send another one a signal, by their users.
fn kill_rule(sender: &Caller<'_>, target: &Pid, receiver: &Proc) -> Check
    ensures { result ≡ kill_check sender.now.process target.now receiver.now }
{
    let creds = sender.creds();
    let from = &creds.ids;
    let to = &receiver.creds.ids;
    let holds = from.ruid == to.ruid
        || from.ruid == to.suid
        || from.euid == to.ruid
        || from.euid == to.suid;
    Check {
        name: CheckName::Kill,
        holds,
        thing: Thing::Process(*target),
        thing_label: receiver.creds.label,
        new_label: None,
        place: Place::Target,
    }
}

// A signal reaches a living process. It takes no memory.
fn send_signal(shared: &mut Shared, target: &Pid, signal: Signal) -> Effect
    requires valid { ∥ IsValid shared.old ∥₁ }
    requires living { IsSome (map.get shared.old.procs target.now) }
    ensures { PlaysUnchecked shared.old (signalled_row shared.old target.now (process_at shared.old target.now) signal) (Ok result) shared.new }
{
    match signal {
        Signal::Zero => Effect::done(),
        Signal::Term => end(shared, target, Ending::Term),
        Signal::Kill => end(shared, target, Ending::Kill),
    }
}

// A living process ends: its descriptors close, its children lose their parent, and its parent learns how it ended. It takes no
// memory.
fn end(shared: &mut Shared, who: &Pid, ending: Ending) -> Effect
    requires valid { ∥ IsValid shared.old ∥₁ }
    requires living { IsSome (map.get shared.old.procs who.now) }
    ensures { PlaysUnchecked shared.old (kill_with shared.old who.now (process_at shared.old who.now) ending) (Ok result) shared.new }
{
    shared.fds.drop_process(who, &mut shared.tree);
    shared.procs.finish(who, ending);
    Effect {
        answer: Answer::Nothing,
        own: Some(Rec::Exit { who: *who, ending }),
    }
}
