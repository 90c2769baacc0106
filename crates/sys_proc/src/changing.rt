// How a call changes the credentials of a process.
ghost use Rattle.std.specs.Prelude.{◌≡◌, IsSome, OnErr, OnOk, false, true};
ghost use Rattle.std.specs.FinMap as map;
ghost use Rattle.kern_model.specs.State.{process_at};
ghost use Rattle.proc_table.specs.Procs.{creds_of, with_creds};
ghost use Rattle.sys_proc.specs.Changing.{state_with_process, creds_after, is_allowed};

use crate::id_kind::IdKind;
use cap_bits::CapState;
use kern_model::Pid;
use lab_lattice::Label;
use proc_creds::{Creds, NotAllowed};
use sys_lookup::Shared;

/// A change of the credentials of a process.
#[derive(Clone, Copy)]
pub enum CredsChange {
    /// An id of a kind, as the real, effective and saved one with `all`, and else as the effective one alone.
    Id { kind: IdKind, id: u32, all: bool },
    /// The capability sets.
    Caps(CapState),
    /// The present label.
    Label(Label),
}

impl CredsChange {
    // Makes the change, where its rule allows it.
    fn make(self, creds: &mut Creds) -> Result<(), NotAllowed>
        ensures made { OnOk result ((is_allowed self creds.old ≡ true) × (creds.new ≡ creds_after self creds.old)) }
        ensures refused { OnErr result ((is_allowed self creds.old ≡ false) × (creds.new ≡ creds.old)) }
    {
        match self {
            CredsChange::Id { kind, id, all } => kind.set(creds, id, all),
            CredsChange::Caps(caps) => creds.cap_set(caps),
            CredsChange::Label(label) => {
                creds.mac_set(label);
                Ok(())
            }
        }
    }
}

/// Changes the credentials of a living process, which the rule of the change allows. No memory is taken.
pub fn change_creds(shared: &mut Shared, who: &Pid, change: CredsChange)
    requires living { IsSome (map.get shared.old.procs who.now) }
    requires allowed { is_allowed change (creds_of (process_at shared.old who.now)) ≡ true }
    ensures { shared.new ≡ state_with_process shared.old who.now (λ p. with_creds p (creds_after change (creds_of p))) }
{
    let Some(creds) = shared.procs.creds_mut(who) else {
        unreachable!();
    };
    match change.make(creds) {
        Ok(()) => {}
        Err(NotAllowed) => unreachable!(),
    }
}
