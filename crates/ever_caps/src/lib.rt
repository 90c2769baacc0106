//! Capabilities that no process can ever have, from the sets of a world alone, and labels that nothing can ever cross.
//!
//! By the capabilities over labels are meant the five that override the rules on them: `cap_mac_downgrade`, `cap_mac_read`,
//! `cap_mac_relabel_subj`, `cap_mac_upgrade` and `cap_mac_write`. Each law is stated in `specs/Laws.antt`.
#![tactic(auto)]

ghost use Rattle.ever_caps.specs.Laws.{AbsentStep, AbsentUnnamed, EverHasSource, NeverBoot, NeverEnd, NeverExercised};
ghost use Rattle.ever_caps.specs.Laws.{ConfinedAlone, ConfinedInside, ConfinedUncrossed, ConfinedWorlds, UncrossedAlone, UncrossedInside, UncrossedWorlds};

mod labels;
mod sets;

pub use labels::Crossers;
pub use sets::{all_processes, ever, is_confined, mac_ever, mac_given_to, mac_in};

/// A capability that no process has effective or permitted, that no file permits within the bound, and that is not both
/// inheritable of a process and inheritable of a file, stays so over each step, and no record of the step is an exercise of it.
/// For every state and every call.
pub fn absent_step()
    ensures state { AbsentStep }
    ensures recs { AbsentUnnamed }
{}

/// A capability that is not in the set `ever` of a world is absent from its first state and from the last state of each run, and
/// no record of a run is an exercise of it. For every world and every script.
pub fn never_had()
    ensures boot { NeverBoot }
    ensures end { NeverEnd }
    ensures recs { NeverExercised }
{}

/// Each of the five capabilities over labels that a process may ever have in a world is held by one of its processes, or given
/// by one of its files, and each that is held or given is one that a process may ever have.
pub fn ever_has_source()
    ensures { EverHasSource }
{}

/// Where none of the five capabilities over labels is in the set `ever` of a world, no record of a run crosses any label, for
/// every script. So each label's Low tags are answered what they are answered in the part alone, and two such worlds with the
/// same part answer Low tags alike in two scripts with the same Low items.
pub fn confined()
    ensures inside { ConfinedInside }
    ensures alone { ConfinedAlone }
    ensures worlds { ConfinedWorlds }
{}

/// Let the other three of the five capabilities be not in the set `ever` of a world, and let each process that has
/// `cap_mac_read` or `cap_mac_upgrade`, or to which a file gives one of them whose label its own dominates, have a label strictly
/// above one label. Then no record of a run crosses this one, for every script. So its Low tags are answered what they are
/// answered in the part alone, and two such worlds with the same part answer Low tags alike in two scripts with the same Low
/// items. Where none of the five is in the set `ever`, this is so of each label.
pub fn uncrossed()
    ensures inside { UncrossedInside }
    ensures alone { UncrossedAlone }
    ensures worlds { UncrossedWorlds }
    ensures confined { ConfinedUncrossed }
{}
