// The programs of processes.

use fs_path::List;
use kern_model::Pid;
use script_text::ProgStep;

/// The steps of a program, in order.
pub type StepList = List<ProgStep>;

/// What a process does: it chooses its next call by the last reply.
#[derive(Debug)]
pub struct Program {
    pub steps: StepList,
}

impl Drop for Program {
    fn drop(self) {
        let Program { steps: _ } = self;
    }
}

/// The programs of processes. One that is not named has an empty program.
pub type ProgramTable = List<(Pid, Program)>;
