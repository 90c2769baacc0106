//! The laws of isolation, on the definitions alone. A label is Low for `l` where `l` dominates it. What
//! crosses `l` is an exercise of one of the five capabilities that override the rules on labels, between
//! labels of which some are Low and some are not. Each law is stated in `specs/Laws.antt`. Those of isolation, that a
//! valid state stays valid, and that the labels in calls and in records are below the highest one (`labels_below`, and the
//! clauses `call` and `recs` of `step_below`) are for each call whose arguments are in their ranges, or for each script that
//! may be played. The others ask nothing of the call. The laws on one step of isolation are of a valid state that is kept.
#![tactic(auto)]

ghost use Rattle.iso_laws.specs.Laws.{LowStepReply, LowStepRecords, LowStepState, OtherStep, KeptStep, ValidStep};
ghost use Rattle.iso_laws.specs.Laws.{KeptBoot, ValidBoot, IsolatedPrefix, IsolatedWhole, IsolatedEnd, IsolatedInside, TwoWorldsAgree, TwoWorldsSame};
ghost use Rattle.iso_laws.specs.Laws.{LabelsBelow, CallerBelow, CallBelow, ReplyBelow, RecordsBelow};
ghost use Rattle.iso_laws.specs.Laws.{CapsByRecords, CapsStay, DropsByRecords, GrowthByRecords, OwnTrail};
ghost use Rattle.iso_laws.specs.Laws.{RefusalsAreNamed, DrawnStep, NumbersStep, NumbersRun, GoneRun};
ghost use Rattle.iso_laws.specs.Laws.{TopBoot, TopStep, UnnamedCapability, RowsAreItems, UniformExec};

/// A step of a Low process that crosses nothing gives in the part the same reply, the same records, and the
/// part of the new state. The same holds for a Low tag that names no living process.
pub fn low_step()
    ensures reply { LowStepReply }
    ensures recs { LowStepRecords }
    ensures state { LowStepState }
{}

/// A step of a process that is not Low leaves the part as it was, unless it crosses.
pub fn other_step()
    ensures { OtherStep }
{}

/// Numbers, present labels and what belongs together stay on one side of each label, unless a step crosses it. A
/// valid state stays valid, whatever crosses, where the arguments of the call are in their ranges and what a new entry may be
/// named is a name.
pub fn kept_step()
    ensures kept { KeptStep }
    ensures valid { ValidStep }
{}

/// In the first state of a world numbers, present labels and what belongs together are on one side of each label. The
/// first state of a world that is accepted is valid.
pub fn kept_boot()
    ensures kept { KeptBoot }
    ensures valid { ValidBoot }
{}

/// The highest label of a first state is that of its world, and each step leaves it as it is. For every world and call.
pub fn top_stays()
    ensures boot { TopBoot }
    ensures step { TopStep }
{}

/// What Low tags are answered up to any call before the first one that crosses is a prefix of what they are answered
/// where the part of the world is all there is, and only the Low items are played. Where no call crosses, both are the
/// same, and so are the parts of the states in which both end.
pub fn isolated()
    ensures prefix { IsolatedPrefix }
    ensures whole { IsolatedWhole }
    ensures end { IsolatedEnd }
    ensures inside { IsolatedInside }
{}

/// In two worlds with the same part and two scripts with the same Low items, Low tags are answered the same, as far as
/// neither run has a call that crosses: one list is a prefix of the other. Where no call crosses, both are the same.
pub fn two_worlds()
    ensures prefixes { TwoWorldsAgree }
    ensures whole { TwoWorldsSame }
{}

/// Each label in a record of a run is below the highest label of its world, and so are those of the numbers in it. For
/// each script that may be played.
pub fn labels_below()
    ensures { LabelsBelow }
{}

/// Each label in a step of a valid state is below its highest label: in the number of a caller that lives, in the call, in
/// the reply and in the records. The modes in the reply lie within octal 6777. Of the labels in the call and in the records
/// this is for calls whose arguments are in their ranges.
pub fn step_below()
    ensures caller { CallerBelow }
    ensures call { CallBelow }
    ensures reply { ReplyBelow }
    ensures recs { RecordsBelow }
{}

/// The capability sets of each process that lives at the end of a run are those that the records give. For every call.
pub fn caps_by_records()
    ensures { CapsByRecords }
{}

/// What `cap_set_proc` makes permitted was permitted, by the records before its own. For every call.
pub fn drops_by_records()
    ensures { DropsByRecords }
{}

/// Permitted sets grow by exec alone: each capability that is permitted to a process, by the records, was permitted to
/// an ancestor at its start, or a program gave it to an ancestor. For every call.
pub fn growth_by_records()
    ensures { GrowthByRecords }
{}

/// Each record of a run may come after those before it. By those, a process that starts or that is the child of a fork is
/// new, and each other process that a record is about is known; a program gives the sets of the exec formula, `cap_set_proc`
/// gives sets that may be had from those before, and what is exercised is effective. For every call.
pub fn own_trail()
    ensures { OwnTrail }
{}

/// A process that lives before and after a step keeps its capability sets, unless a record of the step gives it others: of
/// `exec` or `cap_set_proc` by it, or of the fork that made it. For every call.
pub fn caps_stay()
    ensures { CapsStay }
{}

/// Refusals are named: a reply that a check denied holds EACCES or EPERM, and no other refusal holds one of them. For every
/// call.
pub fn refusals_are_named()
    ensures { RefusalsAreNamed }
{}

/// Numbers that were drawn stay drawn, whatever the state. What is there after a step of a valid state, or after a part of a
/// run, and was not there before has a number that was drawn in between. So what has a number that was drawn and is not there
/// does not come back. For every call.
pub fn numbers_go_on()
    ensures drawn { DrawnStep }
    ensures step { NumbersStep }
    ensures run { NumbersRun }
    ensures gone { GoneRun }
{}

/// A capability that no exercise of a step names is not needed for it. Where it is taken from the caller's effective set
/// before, the reply and the records are the same, and so are the new states once it is taken, in both, from the caller and
/// for `fork` from its child. Excepted is the reply of `cap_get_proc`, which reports the set. For every call.
pub fn unnamed_capability()
    ensures { UnnamedCapability }
{}

/// A row of the call table and its list of items, of which the first that stops counts, have the same exercises, and the
/// same check or refusal stops them. For every row.
pub fn rows_are_items()
    ensures { RowsAreItems }
{}

/// Where a file has uniform sets, the exec formula makes effective what the effective set of the file and the new permitted
/// set share.
pub fn uniform_exec()
    ensures { UniformExec }
{}
