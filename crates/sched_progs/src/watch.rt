// Who is told of the calls of programs.
ghost use Rattle.std.specs.Prelude.{◌≡◌, ◌≤◌, ◌<◌, [], ℕ, List, IfErr};
ghost use Rattle.lab_lattice.specs.Label.{Label as LabelValue};
ghost use Rattle.sched_progs.specs.Turns.{LoopItem};
ghost use Rattle.sched_progs.specs.Watching.{IsWithin, Saw, item_of};

use kern_model::{Call, NoMemory, Outcome, Pid};

/// Why programs ended before their last turn.
#[derive(Clone, Copy, Debug, PartialEq, Eq)]
pub enum SchedFault {
    /// The watch stopped them.
    Stopped,
    /// Memory ran out.
    NoMemory,
}

impl From<NoMemory> for SchedFault {
    ghost use Rattle.std.specs.Prelude.{◌≡◌};
    ghost use Rattle.sched_progs.specs.declared.watch.SchedFault.TheVariants.{NoMemory};

    ghost from_gives = { λ _ e. e ≡ NoMemory };

    fn from(_: NoMemory) -> Self {
        SchedFault::NoMemory
    }
}

/// Who is told of each call of programs, in order.
pub trait Watch {
    ghost use Rattle.sched_progs.specs.declared.watch.SchedFault.TheVariants.{Stopped};

    /// The calls that it saw.
    ghost seen: { Self → List LoopItem };

    /// The call that it refused, or none.
    ghost refused: { Self → List LoopItem };

    /// How many faults it has counted.
    ghost faults: { Self → ℕ };

    /// The label that dominates all others.
    ghost top: { Self → LabelValue };

    /// What a call leaves as it is.
    ghost same_rest: { Self → Self → Type 0 };

    /// Takes in one call, of which its label dominates each label. After a refusal it takes in no more.
    fn saw(&mut self, who: &Pid, call: &Call, outcome: &Outcome) -> Result<(), SchedFault>
        requires going { refused self.old ≡ [] }
        requires within { IsWithin (top self.old) (item_of who.now call.now outcome.now) }
        ensures saw { Saw result (item_of who.now call.now outcome.now) (seen self.old) (seen self.new) (refused self.new) }
        ensures top { top self.new ≡ top self.old }
        ensures rest { same_rest self.old self.new }
        ensures later { faults self.old ≤ faults self.new }
        ensures cause { IfErr result (λ e. e ≡ Stopped → faults self.old < faults self.new) };

    ghost rest_refl: { (a : Self) → same_rest a a };

    ghost rest_trans: { (a b c : Self) → same_rest a b → same_rest b c → same_rest a c };
}
