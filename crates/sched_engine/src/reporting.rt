// What reports the calls of programs.
ghost use Rattle.std.specs.Prelude.{◌≡◌, ◌+◌, [], true, IfOk, OnOk, length};
ghost use Rattle.std.specs.FinMap as map;
ghost use Rattle.kern_model.specs.Valid.{IsValid};
ghost use Rattle.lab_engine.specs.declared.reporting.Report.TheVariants as a_report;
ghost use Rattle.lab_engine.specs.Player.{SameBorrows, WritesTo};
ghost use Rattle.lab_engine.specs.Playing.{WritesBoth};
ghost use Rattle.lab_engine.specs.Readable.{AreReadable};
ghost use Rattle.lab_engine.specs.Report.{call_sends};
ghost use Rattle.lab_engine.specs.Reporter.{HasCall, HasSeen, call_on, calls_seen};
ghost use Rattle.lab_text.specs.Policy.{top_of};
ghost use Rattle.sched_progs.specs.Loop.{loop, loop_end};
ghost use Rattle.sched_progs.specs.Programs.{are_programs};
ghost use Rattle.sched_engine.specs.Reporting.{AreItemsReadable, IsGoing, items_in, items_sends, sched_fault_of};

use crate::schedule::Schedule;
use ghost_list::GhostList;
use io_ends::Sink;
use kern_model::{Call, Calls, NoMemory, Outcome, Pid, PidList};
use lab_engine::{Fault, ReplyLine, Report, Reporter, Texts};
use sched_progs::{SchedFault, Watch, run_programs};

// Reports a call after `count` others, and returns its number. Where a `u64` cannot hold the number, it returns out of
// memory.
fn report_next<K: Sink, T: Sink>(
    reporter: &mut Reporter<'_, K, T>,
    count: u64,
    call: ReplyLine<'_>,
    outcome: &Outcome,
) -> Result<u64, Fault>
    requires call { HasCall call }
    requires all { reporter.old.report ≡ a_report.All }
    requires seen { HasSeen count reporter.old.seen.items reporter.old.stopped.items }
    ensures writes { WritesTo result (call_sends a_report.All reporter.old.texts.policy.now (count + 1) (call_on call.entry outcome.now)) reporter.old reporter.new }
    ensures number { IfOk result (λ number. number ≡ count + 1) }
    ensures readable { OnOk result (AreReadable reporter.old.texts.policy.now (count + 1) outcome.now.recs) }
    ensures kept { OnOk result (reporter.new.report ≡ a_report.All) }
    ensures shown { OnOk result (HasSeen (count + 1) reporter.new.seen.items reporter.new.stopped.items) }
    ensures same { SameBorrows reporter.old reporter.new }
{
    let number = count.checked_add(1).ok_or(NoMemory)?;
    reporter.report_call(number, call, outcome)?;
    Ok(number)
}

// How a fault ends the programs.
fn sched_fault(fault: Fault) -> SchedFault
    ensures { result ≡ sched_fault_of fault }
{
    match fault {
        Fault::NoMemory => SchedFault::NoMemory,
        Fault::Read | Fault::Write | Fault::Trail => SchedFault::Stopped,
    }
}

// A reporter that is told of the calls of programs.
#[derive(Drop)]
struct ProgramReporter<'a, K: Sink, T: Sink> {
    reporter: Reporter<'a, K, T>,
    // How many calls were seen.
    count: u64,
    // The fault that stopped it, or out of memory where none did.
    fault: Fault,
    // The calls that were seen.
    seen: GhostList<Pid, Call, Outcome>,
    // The call that was refused, or none.
    refused: GhostList<Pid, Call, Outcome>,
    ghost going: { IsGoing (items_in refused.items) count fault reporter.report (calls_seen reporter.seen.items) (calls_seen reporter.stopped.items) },
}

impl<'a, K: Sink, T: Sink> Watch for ProgramReporter<'a, K, T> {
    ghost use Rattle.io_ends.specs.Ends.{SinkView};
    ghost use Rattle.std.specs.Prelude.{refl};
    ghost use Rattle.std.proofs.Common.{◌∙◌};
    ghost use Rattle.sched_engine.specs.Reporting.{HoldItems, end_faults};

    ghost seen = { λ r. items_in r.seen.items };

    ghost refused = { λ r. items_in r.refused.items };

    ghost faults = { λ r. end_faults r.fault };

    ghost top = { λ r. top_of r.reporter.texts.policy.now };

    ghost same_rest = { λ a b. SameBorrows a.reporter b.reporter × ((out trail : SinkView)
        → HoldItems a.reporter.texts.policy.now a.count a.fault (items_in a.seen.items) (items_in a.refused.items) out (K.view a.reporter.out.now) trail (T.view a.reporter.trail.now)
        → HoldItems b.reporter.texts.policy.now b.count b.fault (items_in b.seen.items) (items_in b.refused.items) out (K.view b.reporter.out.now) trail (T.view b.reporter.trail.now)) };

    fn saw(&mut self, who: &Pid, call: &Call, outcome: &Outcome) -> Result<(), SchedFault> {
        let line = ReplyLine::Program(who, call);
        match report_next(&mut self.reporter, self.count, line, outcome) {
            Ok(number) => {
                self.seen = self.seen.with(who, call, outcome);
                self.count = number;
                Ok(())
            }
            Err(fault) => {
                self.refused = self.refused.with(who, call, outcome);
                self.fault = fault;
                Err(sched_fault(fault))
            }
        }
    }

    ghost rest_refl = { λ a. ((refl, refl, refl), λ out trail held. held) };

    ghost rest_trans = { λ a b c p q. ((q.0.0 ∙ p.0.0, p.0.1 ∙ q.0.1, p.0.2 ∙ q.0.2), λ out trail held. q.1 out trail (p.1 out trail held)) };
}

/// A schedule, and the processes that live when it begins.
#[derive(Clone, Copy)]
pub struct Started<'a> {
    pub living: &'a PidList,
    pub schedule: &'a Schedule,
}

/// Runs the programs of a schedule in turns by label, those of the living processes, and reports each call as soon as it is
/// answered: its records to the trail, and then its reply to the output. Returns how many calls there were.
pub fn report_programs<C: Calls, K: Sink, T: Sink>(
    kernel: &mut C,
    started: Started<'_>,
    texts: Texts<'_>,
    out: &mut K,
    trail: &mut T,
) -> Result<u64, Fault>
    requires valid { IsValid (C.state kernel.old) }
    requires living { started.living.now ≡ map.keys (C.state kernel.old).procs }
    requires programs { are_programs (C.state kernel.old).top started.schedule.now.programs ≡ true }
    requires top { (C.state kernel.old).top ≡ top_of texts.policy.now }
    ensures writes { WritesBoth result (items_sends texts.entry.policy.now (loop (C.state kernel.old) started.entry.schedule.now.programs started.entry.schedule.now.slices started.entry.schedule.now.rounds))
        (K.view out.old) (K.view out.new) (T.view trail.old) (T.view trail.new) }
    ensures count { IfOk result (λ count. count ≡ length (loop (C.state kernel.old) started.entry.schedule.now.programs started.entry.schedule.now.slices started.entry.schedule.now.rounds)) }
    ensures state { OnOk result (C.state kernel.new ≡ loop_end (C.state kernel.old) started.entry.schedule.now.programs started.entry.schedule.now.slices started.entry.schedule.now.rounds) }
    ensures readable { OnOk result (AreItemsReadable texts.entry.policy.now (loop (C.state kernel.old) started.entry.schedule.now.programs started.entry.schedule.now.slices started.entry.schedule.now.rounds)) }
{
    let room = &mut Vec::new(texts.alloc);
    let reporter = Reporter::new(texts, Report::All, room, out, trail);
    let mut watch = ProgramReporter {
        reporter,
        count: 0,
        fault: Fault::NoMemory,
        seen: GhostList::new(),
        refused: GhostList::new(),
    };
    let Started { living, schedule } = started;
    match run_programs(
        texts.alloc,
        kernel,
        living,
        &schedule.programs,
        &schedule.slices,
        schedule.rounds,
        &mut watch,
    ) {
        Ok(()) => Ok(watch.count),
        Err(_) => Err(watch.fault),
    }
}
