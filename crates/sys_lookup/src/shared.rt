// The state that the calls share.
ghost use Rattle.std.specs.Prelude.{◌≡◌};
ghost use Rattle.kern_model.specs.Kinds.{is_dir};

use cap_bits::{CapSet, FileCaps};
use fd_table::FdTable;
use fs_dirs::Tree;
use kern_model::{Attr, Kind, Object, Oid};
use lab_lattice::Label;
use proc_table::Procs;
use std::marker::Model;

/// The tree, the open files and the processes, the bound of capabilities over exec, and the highest label. Each process that has
/// descriptors is living.
pub struct Shared {
    pub tree: Tree,
    pub fds: FdTable,
    pub procs: Procs,
    pub bound: CapSet,
    pub top: Label,
}

impl Model for Shared {
    ghost use Rattle.kern_model.specs.State.{State};
    ghost use Rattle.kern_model.proofs.StateCode.{state_code};

    ghost Value = { State };

    ghost coded = { state_code };

    ghost use Rattle.sys_lookup.specs.Owners.{HasOwners};
    ghost use Rattle.sys_lookup.specs.Shared.{state_of};

    ghost view = { state_of };

    ghost invariant = { λ h. ∥ HasOwners h.procs.procs h.fds.processes ∥₁ };
}

// Written out, so that a drop is one call.
impl Drop for Shared {
    fn drop(self) {
        let Shared {
            tree: _,
            fds: _,
            procs: _,
            bound: _,
            top: _,
        } = self;
    }
}

/// An object as checks read it: all but its content.
#[derive(Clone, Copy)]
pub struct Metadata {
    pub id: Oid,
    pub kind: Kind,
    pub label: Label,
    pub attr: Attr,
}

impl Metadata {
    ghost use Rattle.kern_model.specs.State.{stub_object};
    ghost use Rattle.sys_lookup.specs.Shared.{metadata_with};

    /// Those of an object with this number.
    #[inline(always)]
    pub(crate) fn of(id: &Oid, object: &Object) -> Metadata
        ensures { result ≡ metadata_with id.now object.now }
    {
        Metadata {
            id: *id,
            kind: object.kind,
            label: object.label,
            attr: object.attr,
        }
    }

    /// Those of the stub, which stands for an object that is not there: it has the highest label.
    #[inline(always)]
    pub(crate) fn of_stub(id: &Oid, top: &Label) -> Metadata
        ensures { result ≡ metadata_with id.now (stub_object top.now) }
    {
        Metadata {
            id: *id,
            kind: Kind::File,
            label: *top,
            attr: Attr {
                owner: 0,
                group: 0,
                mode: 0,
                caps: FileCaps::none(),
            },
        }
    }

    /// Whether the object is a directory.
    pub fn is_directory(&self) -> bool
        ensures { result ≡ is_dir self.now.kind }
    {
        match self.kind {
            Kind::Dir => true,
            Kind::File | Kind::Fifo | Kind::Pipe => false,
        }
    }
}

impl Shared {
    ghost use Rattle.sys_lookup.specs.Shared.{metadata_of};

    /// The metadata of an object, or of the stub where there is none.
    #[inline(always)]
    #[tactic(auto, unfolding(kern_model::specs::Maps::get_or))]
    pub fn metadata(&self, id: &Oid) -> Metadata
        ensures { result ≡ metadata_of self.now id.now }
    {
        match self.tree.nodes().get(id) {
            Some(object) => Metadata::of(id, object),
            None => Metadata::of_stub(id, &self.top),
        }
    }
}
