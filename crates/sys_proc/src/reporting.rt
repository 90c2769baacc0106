// The calls `getpid`, `getppid`, `getids`, `cap_get_proc` and `mac_get_proc`.
ghost use Rattle.std.specs.Prelude.{◌≡◌, IfOk, IsOk, true};
ghost use Rattle.kern_model.specs.Arguments.{has_names};
ghost use Rattle.kern_model.specs.ProcessRows.{reports};
ghost use Rattle.kern_model.specs.State.{State};
ghost use Rattle.kern_model.specs.Table.{row};
ghost use Rattle.chk_rules.specs.CheckLog.{CheckLog};
ghost use Rattle.sys_lookup.specs.PlaysRow.{LeavesNothingOf};
ghost use Rattle.sys_lookup.specs.Memory.{takes_no_memory};
ghost use Rattle.sys_lookup.specs.PlaysRow.{PlaysRow};
ghost use Rattle.sys_proc.specs.Playing.{is_own_call};

use kern_model::{Answer, Call, NoMemory, Pid};
use sys_lookup::{CallResult, Caller, Effect};

/// `getpid`, `getppid`, `getids`, `cap_get_proc` and `mac_get_proc`: what the caller is. Of these only `getids` takes memory.
#[tactic(auto, using(crate::proofs::OwnLemmas::own_names))]
pub fn report(caller: &Caller<'_>, who: &Pid, call: &Call) -> CallResult
    requires { is_own_call call.now ≡ true }
    ensures played { (s : State) (log : CheckLog) → PlaysRow s log (row s who.now caller.now.process call.now) result s log }
    ensures names { has_names call.now ≡ true }
    ensures nothing { LeavesNothingOf call.now result }
{
    let answer = own_answer(caller, who, call)?;
    Ok(Effect::answers(answer))
}

// What the row of a call answers that asks what its caller is.
fn own_answer(caller: &Caller<'_>, who: &Pid, call: &Call) -> Result<Answer, NoMemory>
    requires { is_own_call call.now ≡ true }
    ensures answer { (s : State) → IfOk result (λ answer. row s who.now caller.now.process call.now ≡ reports answer) }
    ensures ready { takes_no_memory call.now ≡ true → IsOk result }
{
    let creds = caller.creds();
    match call {
        Call::Getpid => Ok(Answer::Process(*who)),
        Call::Getppid => Ok(Answer::Parent(caller.parent())),
        Call::Getids => Ok(Answer::Ids(creds.ids.copy()?)),
        Call::CapGetProc => Ok(Answer::Caps(creds.caps)),
        Call::MacGetProc => Ok(Answer::Mark(creds.label)),
        _ => unreachable!(),
    }
}
