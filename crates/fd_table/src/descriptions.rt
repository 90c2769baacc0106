// Open descriptions, and how many of them each object has.
ghost use Rattle.std.specs.Prelude.{◌≡◌, ◌==◌, ◌+◌, ◌<◌, ◌≤◌, None, Some, OnErr, OnOk, cond};
ghost use Rattle.std.specs.FinMap as map;
ghost use Rattle.kern_model.specs.Valid.{IsThere};
ghost use Rattle.fd_table.specs.Descriptions.{has_user, made_for, uses_of, with_one_less};
ghost use Rattle.fd_table.specs.declared.shared.Shared.{Shared as Value};

use crate::shared::{How, Shared};
use crate::uses::Uses;
use kern_model::{Did, NoMemory, Oid};
use num_table::Table;
use std::alloc::Global;
use std::marker::Model;

/// Open descriptions by their numbers.
#[derive(Drop)]
pub struct Descriptions {
    shared: Table<Shared>,
    uses: Uses,
}

impl Model for Descriptions {
    ghost use Rattle.std.specs.FinMap as map;
    ghost use Rattle.std.specs.Coded.{codes};
    ghost use Rattle.lab_lattice.specs.Label.{label_code};
    ghost use Rattle.kern_model.specs.Keys.{did_cmp};
    ghost use Rattle.kern_model.specs.ByNumber.{by_did};
    ghost use Rattle.fd_table.specs.declared.shared.Shared.{Shared};
    ghost use Rattle.fd_table.specs.Descriptions.{AreCounted};

    ghost Value = { map.FinMap did_cmp Shared };

    ghost coded = { map.code (Prim.hlevel (codes, label_code)) (Prim.hlevel (codes, label_code)) };

    ghost view = { λ d. by_did d.shared };

    ghost invariant = { λ d. AreCounted (by_did d.shared) d.uses };
}

impl Descriptions {
    /// No description.
    pub fn new(alloc: Global) -> Self
        ensures { result ≡ map.empty }
    {
        Descriptions {
            shared: Table::new(alloc),
            uses: Uses::new(alloc),
        }
    }

    /// The description with a number, if there is one.
    pub fn get(&self, did: &Did) -> Option<Shared>
        ensures { result ≡ map.get self.now did.now }
    {
        self.shared.get_at(did).copied()
    }

    /// Makes a description of an object, to which one descriptor refers.
    pub fn insert(&mut self, did: &Did, object: Oid, how: How) -> Result<(), NoMemory>
        requires { map.get self.old did.now ≡ None }
        ensures ok { OnOk result (self.new ≡ map.insert self.old did.now (made_for object how)) }
        ensures err { OnErr result (self.new ≡ self.old) }
    {
        let shared = Shared {
            object,
            how,
            offset: 0,
            holders: 1,
        };
        self.shared.set_at(did, shared)?;
        if let Err(e) = self.uses.add_one(&object, how) {
            self.shared.remove_at(did);
            return Err(e);
        }
        Ok(())
    }

    /// Sets the offset of a description. It takes no memory.
    pub fn set_offset(&mut self, did: &Did, offset: u32)
        requires { IsThere self.old did.now }
        ensures { (s : Value) → map.get self.old did.now ≡ Some s → self.new ≡ map.insert self.old did.now (record s { offset = offset }) }
    {
        let Some(shared) = self.shared.get_mut_at(did) else {
            unreachable!();
        };
        shared.offset = offset;
    }

    /// Counts one descriptor more of a description. It takes no memory.
    pub fn hold(&mut self, did: &Did)
        requires there { IsThere self.old did.now }
        requires few { (s : Value) → map.get self.old did.now ≡ Some s → s.holders < 18_446_744_073_709_551_615 }
        ensures { (s : Value) → map.get self.old did.now ≡ Some s → self.new ≡ map.insert self.old did.now (record s { holders = s.holders + 1 }) }
    {
        let Some(shared) = self.shared.get_mut_at(did) else {
            unreachable!();
        };
        shared.holders += 1;
    }

    /// Counts one descriptor less of a description, which goes with the last one. Returns its object where that has no
    /// description any more. It takes no memory.
    #[inline(always)]
    pub fn release(&mut self, did: &Did) -> Option<Oid>
        requires { IsThere self.old did.now }
        ensures left { (s : Value) → map.get self.old did.now ≡ Some s → self.new ≡ with_one_less self.old did.now s }
        ensures unused { (s : Value) → map.get self.old did.now ≡ Some s → result ≡ cond (uses_of self.new s.object == 0) (Some s.object) None }
    {
        let Some(shared) = self.shared.get_mut_at(did) else {
            unreachable!();
        };
        if shared.holders > 1 {
            shared.holders -= 1;
            return None;
        }
        let Shared { object, how, .. } = *shared;
        self.shared.remove_at(did);
        self.uses.remove_one(&object, how);
        self.if_unused(&object)
    }

    // An object, where it has no description.
    fn if_unused(&self, id: &Oid) -> Option<Oid>
        ensures { result ≡ cond (uses_of self.now id.now == 0) (Some id.now) None }
    {
        if self.uses.count(id).all == 0 {
            Some(*id)
        } else {
            None
        }
    }

    /// Whether an object has a description for reading.
    pub fn has_reader(&self, id: &Oid) -> bool
        ensures { result ≡ has_user (λ s. s.how.reads) self.now id.now }
    {
        self.uses.count(id).readers > 0
    }

    /// Whether an object has a description for writing.
    pub fn has_writer(&self, id: &Oid) -> bool
        ensures { result ≡ has_user (λ s. s.how.writes) self.now id.now }
    {
        self.uses.count(id).writers > 0
    }
}
