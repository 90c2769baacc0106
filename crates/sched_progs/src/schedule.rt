// Turns of labels.
ghost use Rattle.std.specs.Prelude.{◌≡◌, ◌≤◌, ◌<◌, [], Some, IfErr, OnOk, option_to_list};
ghost use Rattle.std.specs.FinMap as map;
ghost use Rattle.std.specs.List.{repeat};
ghost use Rattle.kern_model.specs.Maps.{get_or};
ghost use Rattle.sched_progs.specs.Loop.{items_of_turns, state_after_turns};
ghost use Rattle.sched_progs.specs.Running.{IsRunning};
ghost use Rattle.sched_progs.specs.Scheduling.{state_of};
ghost use Rattle.sched_progs.specs.Standings.{progress_at, steps_at};
ghost use Rattle.sched_progs.specs.Turns.{turn, turn_of_process};
ghost use Rattle.sched_progs.specs.Watching.{SawCalls};
ghost use Rattle.sched_progs.specs.declared.watch.SchedFault.TheVariants as fault;

use crate::calling::make_call;
use crate::moving::move_from;
use crate::program::Program;
use crate::standing::{Standing, Standings};
use crate::watch::{SchedFault, Watch};
use kern_model::{Calls, LabelMap, Pid};
use lab_lattice::Label;
use script_text::ProgStep;

/// Where processes are, and which number had the last turn of each label.
pub struct Schedule {
    pub standings: Standings,
    pub last_turns: LabelMap<u16>,
}

impl Drop for Schedule {
    fn drop(self) {
        let Schedule {
            standings: _,
            last_turns: _,
        } = self;
    }
}

// The steps of the program at a place of the table.
fn steps_at(programs: &[(Pid, Program)], place: usize) -> &[ProgStep]
    ensures { result.now ≡ steps_at programs.now place }
{
    match programs.get(place) {
        Some((_, program)) => program.steps.items(),
        None => &[],
    }
}

impl Schedule {
    /// Turns of these labels, going round them so many times.
    pub fn rounds<C: Calls, W: Watch>(
        &mut self,
        kernel: &mut C,
        programs: &[(Pid, Program)],
        slices: &[Label],
        rounds: u32,
        watch: &mut W,
    ) -> Result<(), SchedFault>
        requires running { IsRunning (C.state kernel.old) programs.now self.old.standings (W.top watch.old) }
        requires going { W.refused watch.old ≡ [] }
        ensures saw { SawCalls result (items_of_turns (state_of (C.state kernel.old) programs.now self.old) (repeat rounds slices.now)) (W.seen watch.old) (W.seen watch.new) (W.refused watch.new) }
        ensures state { OnOk result (C.state kernel.new ≡ (state_after_turns (state_of (C.state kernel.old) programs.now self.old) (repeat rounds slices.now)).kernel) }
        ensures top { W.top watch.new ≡ W.top watch.old }
        ensures rest { W.same_rest watch.old watch.new }
        ensures later { W.faults watch.old ≤ W.faults watch.new }
        ensures cause { IfErr result (λ e. e ≡ fault.Stopped → W.faults watch.old < W.faults watch.new) }
    {
        for _ in 0..rounds {
            self.turns(kernel, programs, slices, watch)?;
        }
        Ok(())
    }

    /// Turns of these labels, one after another.
    pub fn turns<C: Calls, W: Watch>(
        &mut self,
        kernel: &mut C,
        programs: &[(Pid, Program)],
        slices: &[Label],
        watch: &mut W,
    ) -> Result<(), SchedFault>
        requires running { IsRunning (C.state kernel.old) programs.now self.old.standings (W.top watch.old) }
        requires going { W.refused watch.old ≡ [] }
        ensures saw { SawCalls result (items_of_turns (state_of (C.state kernel.old) programs.now self.old) slices.now) (W.seen watch.old) (W.seen watch.new) (W.refused watch.new) }
        ensures going { OnOk result (W.refused watch.new ≡ []) }
        ensures state { OnOk result (state_of (C.state kernel.new) programs.now self.new ≡ state_after_turns (state_of (C.state kernel.old) programs.now self.old) slices.now) }
        ensures running { OnOk result (IsRunning (C.state kernel.new) programs.now self.new.standings (W.top watch.new)) }
        ensures top { W.top watch.new ≡ W.top watch.old }
        ensures rest { W.same_rest watch.old watch.new }
        ensures later { W.faults watch.old ≤ W.faults watch.new }
        ensures cause { IfErr result (λ e. e ≡ fault.Stopped → W.faults watch.old < W.faults watch.new) }
    {
        for label in slices {
            self.turn(kernel, programs, label, watch)?;
        }
        Ok(())
    }

    /// A turn of a label.
    pub fn turn<C: Calls, W: Watch>(
        &mut self,
        kernel: &mut C,
        programs: &[(Pid, Program)],
        label: &Label,
        watch: &mut W,
    ) -> Result<(), SchedFault>
        requires running { IsRunning (C.state kernel.old) programs.now self.old.standings (W.top watch.old) }
        requires going { W.refused watch.old ≡ [] }
        ensures saw { SawCalls result (option_to_list (turn (state_of (C.state kernel.old) programs.now self.old) label.now).item) (W.seen watch.old) (W.seen watch.new) (W.refused watch.new) }
        ensures state { OnOk result (state_of (C.state kernel.new) programs.now self.new ≡ (turn (state_of (C.state kernel.old) programs.now self.old) label.now).state) }
        ensures running { OnOk result (IsRunning (C.state kernel.new) programs.now self.new.standings (W.top watch.new)) }
        ensures top { W.top watch.new ≡ W.top watch.old }
        ensures rest { W.same_rest watch.old watch.new }
        ensures later { W.faults watch.old ≤ W.faults watch.new }
        ensures cause { IfErr result (λ e. e ≡ fault.Stopped → W.faults watch.old < W.faults watch.new) }
    {
        let last = self.last_turn(label);
        let Some((who, standing)) = self.standings.next(label, last) else {
            return Ok(());
        };
        self.last_turns.insert(*label, who.n)?;
        self.turn_of(kernel, programs, &who, standing, watch)
    }

    // The number that had the last turn of a label, 0 where none had one.
    fn last_turn(&self, label: &Label) -> u16
        ensures { result ≡ get_or self.now.last_turns label.now 0 }
    {
        match self.last_turns.get(label) {
            Some(n) => *n,
            None => 0,
        }
    }

    // A turn of a process.
    fn turn_of<C: Calls, W: Watch>(
        &mut self,
        kernel: &mut C,
        programs: &[(Pid, Program)],
        who: &Pid,
        standing: Standing,
        watch: &mut W,
    ) -> Result<(), SchedFault>
        requires running { IsRunning (C.state kernel.old) programs.now self.old.standings (W.top watch.old) }
        requires there { map.get self.old.standings who.now ≡ Some standing }
        requires going { W.refused watch.old ≡ [] }
        ensures saw { SawCalls result (option_to_list (turn_of_process (state_of (C.state kernel.old) programs.now self.old) who.now (progress_at programs.now standing)).item) (W.seen watch.old) (W.seen watch.new) (W.refused watch.new) }
        ensures state { OnOk result (state_of (C.state kernel.new) programs.now self.new ≡ (turn_of_process (state_of (C.state kernel.old) programs.now self.old) who.now (progress_at programs.now standing)).state) }
        ensures running { OnOk result (IsRunning (C.state kernel.new) programs.now self.new.standings (W.top watch.new)) }
        ensures top { W.top watch.new ≡ W.top watch.old }
        ensures rest { W.same_rest watch.old watch.new }
        ensures later { W.faults watch.old ≤ W.faults watch.new }
        ensures cause { IfErr result (λ e. e ≡ fault.Stopped → W.faults watch.old < W.faults watch.new) }
    {
        let steps = steps_at(programs, standing.program);
        let (place, call) = move_from(steps, standing.last, standing.place);
        let mine = Standing { place, ..standing };
        match call {
            Some(call) => make_call(kernel, &mut self.standings, who, mine, call, watch),
            None => {
                self.standings.set(who, mine)?;
                Ok(())
            }
        }
    }
}
