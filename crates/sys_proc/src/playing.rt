// The calls on processes, as one.
ghost use Rattle.std.specs.Prelude.{◌≡◌, IsSome, true};
ghost use Rattle.std.specs.FinMap as map;
ghost use Rattle.kern_model.specs.Arguments.{has_names};
ghost use Rattle.kern_model.specs.Valid.{IsValid};
ghost use Rattle.kern_model.specs.Table.{row};
ghost use Rattle.sys_lookup.specs.PlaysRow.{LeavesNothingOf, PlaysCall};
ghost use Rattle.sys_proc.specs.Playing.{is_process_call};

use crate::capabilities::cap_set_proc;
use crate::children::{fork, wait};
use crate::ends::{exit, kill};
use crate::ids::{setgid, setuid};
use crate::labels::mac_set_proc;
use crate::programs::exec;
use crate::reporting::report;
use chk_rules::Checks;
use kern_model::{Call, Pid};
use sys_lookup::{CallResult, Caller, Shared};

/// Plays a call of a living process on processes: their children and ends, ids, programs, capability sets and labels.
#[inline(never)]
#[tactic(auto, using(crate::proofs::OwnLemmas::process_names))]
pub fn play(shared: &mut Shared, checks: &mut Checks, who: &Pid, call: &Call) -> CallResult
    requires call { is_process_call call.now ≡ true }
    requires valid { ∥ IsValid shared.old ∥₁ }
    requires living { IsSome (map.get shared.old.procs who.now) }
    ensures played { PlaysCall shared.old who.now checks.old (λ s who p. row s who p call.now) result shared.new checks.new }
    ensures names { has_names call.now ≡ true }
    ensures nothing { LeavesNothingOf call.now result }
{
    match call {
        Call::Fork => fork(shared, who),
        Call::Exit(code) => Ok(exit(shared, who, *code)),
        Call::Wait => wait(shared, who),
        Call::Kill(target, signal) => kill(shared, checks, who, target, *signal),
        Call::Exec(path) => exec(shared, checks, who, path),
        Call::Setuid(user) => setuid(shared, checks, who, *user),
        Call::Setgid(group) => setgid(shared, checks, who, *group),
        Call::CapSetProc(caps) => cap_set_proc(shared, checks, who, *caps),
        Call::MacSetProc(label) => mac_set_proc(shared, checks, who, *label),
        Call::Getpid | Call::Getppid | Call::Getids | Call::CapGetProc | Call::MacGetProc => {
            report(&Caller::new(shared, who), who, call)
        }
        _ => unreachable!(),
    }
}
