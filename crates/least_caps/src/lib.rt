//! Capabilities that a run never needed: which ones its exercises name, the world without others, and what a run from that is.
#![tactic(auto)]

ghost use Rattle.least_caps.specs.Laws.{NarrowedEnd, NarrowedExercises, NarrowedRecords, NarrowedReplies, NarrowedSets};

mod narrowing;
mod needs;

pub use narrowing::narrow;
pub use needs::{asks, named, stands};

/// Capabilities that a run never needed are not needed for it. Let a world be accepted, let a script that may be played ask for
/// no capability sets, and let no exercise of its run name one of some capabilities. From the world without these, the run has
/// the same replies, and the same exercises in order, less some by check `fsetid`: a file that has no other capabilities has
/// nothing to clear then. Each process ends with the sets that it had, without these capabilities. All other records are the same, without these in
/// the sets that they have, and so is the last state, in its bound and its files too.
pub fn narrowed_run()
    ensures replies { NarrowedReplies }
    ensures exercises { NarrowedExercises }
    ensures sets { NarrowedSets }
    ensures records { NarrowedRecords }
    ensures end { NarrowedEnd }
{}
