// Programs, as their lines are read.
ghost use Rattle.std.specs.Prelude.{◌≡◌, [], IfOk};
ghost use Rattle.sched_engine.specs.Programs.{with_program, with_step};

use fs_path::List;
use kern_model::{NoMemory, Pid};
use sched_progs::{Program, ProgramTable};
use script_text::ProgStep;
use std::alloc::Global;
use std::collections::BTreeSet;
use std::marker::Model;

/// The most steps of a program.
pub const MAX_STEPS: usize = 256;

/// Programs in the order of their lines. A step goes to the last one, and no process has two. So that no line is compared with
/// all lines before it, it is kept which processes have one.
#[derive(Drop)]
pub struct ProgramsSoFar {
    // The programs before the last one.
    earlier: ProgramTable,
    last: Option<(Pid, Program)>,
    owners: BTreeSet<Pid>,
}

impl Model for ProgramsSoFar {
    ghost use Rattle.std.specs.Prelude.{◌++◌, option_to_list};
    ghost use Rattle.std.specs.Coded.{codes};
    ghost use Rattle.std.specs.FinSet as set;
    ghost use Rattle.cap_bits.specs.Cap.{cap_cmp, cap_code};
    ghost use Rattle.lab_lattice.specs.Label.{label_code};
    ghost use Rattle.sched_progs.specs.Programs.{Programs};
    ghost use Rattle.sched_engine.specs.Programs.{AreOwners};

    ghost Value = { Programs };

    ghost coded = { Prim.hlevel (codes, set.code {R = cap_cmp} cap_code, label_code) };

    ghost view = { λ p. p.earlier ++ option_to_list p.last };

    ghost invariant = { λ p. AreOwners p.earlier p.last p.owners };
}

impl ProgramsSoFar {
    /// No program.
    pub fn new(alloc: Global) -> Self
        ensures { result ≡ [] }
    {
        ProgramsSoFar {
            earlier: List::new(alloc),
            last: None,
            owners: BTreeSet::new(alloc),
        }
    }

    /// With the empty program of a process, unless it has one.
    pub fn with_program(self, alloc: Global, who: Pid) -> Result<Option<Self>, NoMemory>
        ensures { IfOk result (λ programs. programs ≡ with_program self who) }
    {
        let mut programs = self;
        if !programs.owners.insert(who)? {
            return Ok(None);
        }
        let steps = List::new(alloc);
        if let Some(last) = programs.last.replace((who, Program { steps })) {
            programs.earlier.push(last)?;
        }
        Ok(Some(programs))
    }

    /// With a step at the end of the last program, where there is one that has room for it.
    pub fn with_step(self, step: ProgStep) -> Result<Option<Self>, NoMemory>
        ensures { IfOk result (λ programs. programs ≡ with_step self step) }
    {
        let ProgramsSoFar {
            earlier,
            last,
            owners,
        } = self;
        let Some((who, mut program)) = last else {
            return Ok(None);
        };
        if program.steps.items().len() >= MAX_STEPS {
            return Ok(None);
        }
        program.steps.push(step)?;
        Ok(Some(ProgramsSoFar {
            earlier,
            last: Some((who, program)),
            owners,
        }))
    }

    /// All programs.
    pub fn into_table(self) -> Result<ProgramTable, NoMemory>
        ensures { IfOk result (λ table. table ≡ self) }
    {
        let ProgramsSoFar {
            mut earlier,
            last,
            owners: _,
        } = self;
        if let Some(last) = last {
            earlier.push(last)?;
        }
        Ok(earlier)
    }
}
