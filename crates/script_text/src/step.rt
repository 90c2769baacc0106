// The steps of programs.

use fs_path::List;
use kern_model::{Call, Pid};
use lab_lattice::Label;

/// Labels.
pub type LabelList = List<Label>;

/// When a jump is taken, by the last reply to the process.
#[derive(Clone, Copy, Debug, PartialEq, Eq)]
pub enum When {
    /// Always.
    Always,
    /// There was no reply yet.
    Fresh,
    /// The last call was done.
    Done,
    /// A check denied the last call.
    Denied,
    /// The last call was refused, and no check denied it.
    Refused,
    /// The last call was done, and its reply is this one number.
    Number(u32),
}

/// A step of a program.
#[derive(Debug)]
pub enum ProgStep {
    /// Makes a call.
    Do(Call),
    /// Goes on at the step with this number, counted from 0, where `when` holds, and else at the next step.
    Jump { when: When, to: u8 },
    /// Ends the turn, and stays.
    Stop,
}

impl Drop for ProgStep {
    fn drop(self) {
        match self {
            ProgStep::Do(_) => {}
            ProgStep::Jump { when: _, to: _ } => {}
            ProgStep::Stop => {}
        }
    }
}

/// What a line of programs says.
#[derive(Debug)]
pub enum StepLine {
    /// Nothing: it is blank or a comment.
    Blank,
    /// The labels that have turns, one after another.
    Slices(LabelList),
    /// How many times the turns go round the labels.
    Rounds(u32),
    /// The steps of this process follow.
    Program(Pid),
    /// One step.
    One(ProgStep),
}

impl Drop for StepLine {
    fn drop(self) {
        match self {
            StepLine::Blank => {}
            StepLine::Slices(_) => {}
            StepLine::Rounds(_) => {}
            StepLine::Program(_) => {}
            StepLine::One(_) => {}
        }
    }
}
