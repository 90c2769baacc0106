// One call of a program.
ghost use Rattle.std.specs.Prelude.{◌≡◌, ◌≤◌, ◌<◌, ◌∷◌, [], true, IfErr, OnOk};
ghost use Rattle.kern_model.specs.Arguments.{has_names, is_call};
ghost use Rattle.kern_model.specs.Step.{step};
ghost use Rattle.sched_progs.specs.Running.{item_of_step, standings_after_call};
ghost use Rattle.sched_progs.specs.Watching.{IsWithin, SawCalls};
ghost use Rattle.sched_progs.specs.declared.watch.SchedFault.TheVariants as fault;

use crate::following::follow;
use crate::last_reply::LastReply;
use crate::standing::{Standing, Standings};
use crate::watch::{SchedFault, Watch};
use kern_model::{Call, Calls, Pid};

// The names that a call may give to an entry are names, as those of every path.
#[tactic(auto, unfolding(kern_model::specs::Arguments::has_names))]
fn names_in(call: &Call)
    ensures { has_names call.now ≡ true }
{
    match call {
        Call::OpenPath(path, _, _)
        | Call::Mkfifo(path, _)
        | Call::Mkdir(path, _)
        | Call::Link(_, path)
        | Call::Rename(_, path) => {
            let _names = path.components();
        }
        _ => {}
    }
}

/// Makes a call of a process that is at `mine` then, tells the watch, and follows which processes live.
pub fn make_call<C: Calls, W: Watch>(
    kernel: &mut C,
    standings: &mut Standings,
    who: &Pid,
    mine: Standing,
    call: &Call,
    watch: &mut W,
) -> Result<(), SchedFault>
    requires call { is_call (C.state kernel.old).top call.now ≡ true }
    requires going { W.refused watch.old ≡ [] }
    requires within { IsWithin (W.top watch.old) (item_of_step (C.state kernel.old) who.now call.now) }
    ensures saw { SawCalls result (item_of_step (C.state kernel.old) who.now call.now ∷ []) (W.seen watch.old) (W.seen watch.new) (W.refused watch.new) }
    ensures state { OnOk result (C.state kernel.new ≡ (step (C.state kernel.old) who.now call.now).state) }
    ensures standings { OnOk result (standings.new ≡ standings_after_call (C.state kernel.old) who.now mine call.now standings.old) }
    ensures names { has_names call.now ≡ true }
    ensures top { W.top watch.new ≡ W.top watch.old }
    ensures rest { W.same_rest watch.old watch.new }
    ensures later { W.faults watch.old ≤ W.faults watch.new }
    ensures cause { IfErr result (λ e. e ≡ fault.Stopped → W.faults watch.old < W.faults watch.new) }
{
    names_in(call);
    let outcome = kernel.call(who, call)?;
    watch.saw(who, call, &outcome)?;
    let mine = Standing {
        last: LastReply::of(&outcome.reply),
        ..mine
    };
    follow(standings, who, mine, outcome.recs.items())?;
    Ok(())
}
