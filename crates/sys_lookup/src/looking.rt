// What a caller looks up of itself and of the state.
ghost use Rattle.std.specs.Prelude.{◌≡◌, IfOk};
ghost use Rattle.std.specs.FinMap as map;
ghost use Rattle.kern_model.specs.Entries.{is_empty, is_removed, link_count, names_in};
ghost use Rattle.kern_model.specs.Rules.{is_above_holders};
ghost use Rattle.kern_model.specs.Stat.{stat_of};
ghost use Rattle.kern_model.specs.State.{look};
ghost use Rattle.proc_table.specs.Procs.{creds_of};
ghost use Rattle.sys_lookup.specs.Shared.{metadata_of};

use crate::caller::Caller;
use crate::shared::{Metadata, Shared};
use cap_bits::CapState;
use kern_model::{Name, NameList, NoMemory, Oid, Pid, PidList, StatAnswer};
use lab_lattice::Label;
use proc_creds::Creds;

impl Caller<'_> {
    /// The caller's credentials.
    pub fn creds(&self) -> &Creds
        ensures { result.now ≡ creds_of self.now.process }
    {
        let process = self.process;
        &process.creds
    }

    /// The caller's present label.
    pub fn label(&self) -> Label
        ensures { result ≡ self.now.process.label }
    {
        let process = self.process;
        process.creds.label
    }

    /// The caller's capability sets.
    pub fn caps(&self) -> CapState
        ensures { result ≡ self.now.process.caps }
    {
        let process = self.process;
        process.creds.caps
    }

    /// Whether denials of the caller leave records.
    pub fn is_audited(&self) -> bool
        ensures { result ≡ self.now.process.audited }
    {
        let process = self.process;
        process.audited
    }

    /// The caller's current directory.
    pub fn cwd(&self) -> Oid
        ensures { result ≡ self.now.process.cwd }
    {
        let process = self.process;
        process.cwd
    }

    /// The caller's parent, if it has one.
    pub fn parent(&self) -> Option<Pid>
        ensures { result ≡ self.now.process.parent }
    {
        let process = self.process;
        process.parent
    }

    /// The metadata of an object, or of the stub where there is none.
    #[inline(always)]
    pub fn metadata(&self, id: &Oid) -> Metadata
        ensures { result ≡ metadata_of self.now.state id.now }
    {
        self.shared.metadata(id)
    }

    /// What is reported of an object, or of the stub where there is none.
    pub fn report(&self, id: &Oid) -> StatAnswer
        ensures { result ≡ stat_of self.now.state id.now }
    {
        self.shared.report(id)
    }

    /// Where a name leads in a directory, if it leads anywhere.
    pub fn look(&self, dir: &Oid, name: &Name) -> Option<Oid>
        ensures { result ≡ look self.now.state dir.now name.now }
    {
        let shared = self.shared;
        shared.tree.look(dir, name)
    }

    /// Whether a directory contains no entries.
    pub fn is_empty(&self, dir: &Oid) -> bool
        ensures { result ≡ is_empty self.now.state dir.now }
    {
        let shared = self.shared;
        shared.tree.is_empty(dir)
    }

    /// Whether no name leads to a directory any more, which is not the root.
    pub fn is_removed(&self, dir: &Oid) -> bool
        ensures { result ≡ is_removed self.now.state dir.now }
    {
        let shared = self.shared;
        shared.tree.is_removed(dir)
    }

    /// How many names an object has.
    pub fn name_count(&self, id: &Oid) -> u32
        ensures { result ≡ link_count self.now.state id.now }
    {
        let shared = self.shared;
        shared.tree.name_count(id)
    }

    /// The names in a directory, sorted by their bytes.
    #[tactic(auto, unfolding(kern_model::specs::Entries::names_in))]
    pub fn names(&self, dir: &Oid) -> Result<NameList, NoMemory>
        ensures { IfOk result (λ names. names ≡ names_in self.now.state dir.now) }
    {
        let shared = self.shared;
        let names = shared.tree.names(dir)?;
        Ok(names)
    }

    /// Whether a label dominates those of all directories that hold an object.
    pub fn is_above_holders(&self, id: &Oid, label: &Label) -> bool
        ensures { result ≡ is_above_holders self.now.state id.now label.now }
    {
        let shared = self.shared;
        shared.tree.is_above_holders(id, label)
    }
}

impl Shared {
    /// The numbers of the living processes, by label and then by number.
    pub fn live(&self) -> Result<PidList, NoMemory>
        ensures { IfOk result (λ numbers. numbers ≡ map.keys self.now.procs) }
    {
        let numbers = self.procs.live()?;
        Ok(numbers)
    }
}
