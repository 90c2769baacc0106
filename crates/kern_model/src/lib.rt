//! The types of the kernel. What they mean is in `specs/`: the state, the rows of the call table, one step,
//! the first state and whole runs.
#![tactic(auto)]

mod calls;
mod checks;
mod drawn;
mod kernel;
mod label_map;
pub mod limits;
mod named;
mod numbers;
mod objects;
mod records;
mod valid;
mod words;
mod world;

pub use calls::{Answer, Call, CallName, Ending, Errno, OpenFlags, Reply, Signal, Whence};
pub use checks::{Check, CheckName, Place, Thing, Verdict, Want};
pub use drawn::Numbers;
pub use fs_path::{ByteList, List, Name, NameList, NoMemory, Path};
pub use kernel::Calls;
pub use label_map::LabelMap;
pub use numbers::{Did, Fd, Gid, GroupList, Ids, Mode, Oid, Pid, Uid};
pub use objects::{Attr, Body, Kind, Object, StatAnswer};
pub use records::{Exercise, Outcome, Rec, RecList};
pub use valid::world_valid;
pub use words::{put_ending, put_place};
pub use world::{
    CallList, ObjectList, PidList, ProcList, ScriptItem, World, WorldObject, WorldProc,
};
