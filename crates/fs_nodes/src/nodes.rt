// The objects.
ghost use Rattle.std.specs.Prelude.{◌≡◌, ◌↔◌, ◌≤◌, ◌<◌, ◌++◌, ℕ, [], Some, None, Err, IfOk, IsSome, OnErr, OnOk, drop, length, min, nat_lt, option_copied, take};
ghost use Rattle.std.specs.Borrow.{sem};
ghost use Rattle.std.specs.FinMap as map;
ghost use Rattle.slab.specs.Slab.{get, slab_len};
ghost use Rattle.kern_model.specs.Keys.{same_oid};
ghost use Rattle.kern_model.specs.Kinds.{object_with};
ghost use Rattle.kern_model.specs.State.{last_drawn};
ghost use Rattle.kern_model.specs.FileRows.{written_over};
ghost use Rattle.kern_model.specs.Valid.{IsThere};
ghost use Rattle.kern_model.specs.declared.limits.TheConstants.{MAX_OBJECTS};
ghost use Rattle.kern_model.specs.declared.numbers.Oid.{Oid as Number};
ghost use Rattle.kern_model.specs.declared.objects.Object.{Object as Value};
ghost use Rattle.fs_nodes.specs.Lending.{LendsSlot};
ghost use Rattle.kern_model.specs.Maps.{IfPresent};
ghost use Rattle.fs_nodes.specs.Nodes.{FitsPipe, ForBytes, IsFile, IsTooBig, copy_len, next_in, no_nodes, with_new, with_object, with_written};

use crate::NoMemory;
use crate::buffers::Buffers;
use crate::index::Index;
use fs_path::ByteList;
use kern_model::limits::MAX_FILE_BYTES;
use kern_model::{Attr, Body, Kind, Object, Oid};
use lab_lattice::Label;
use slab::Slab;
use std::alloc::Global;
use std::marker::Model;

/// Why no object is made.
#[derive(Clone, Copy, Debug, PartialEq, Eq)]
pub enum NodeError {
    /// All numbers of the label are drawn.
    Full,
    NoMemory(NoMemory),
}

/// Why bytes are not written.
#[derive(Clone, Copy, Debug, PartialEq, Eq)]
pub enum WriteError {
    /// The offset is past the end of the file.
    PastEnd,
    /// The file would have more bytes than a file may have.
    TooBig,
    NoMemory(NoMemory),
}

impl From<NoMemory> for WriteError {
    ghost use Rattle.std.specs.Prelude.{◌≡◌};
    ghost use Rattle.fs_nodes.specs.declared.nodes.WriteError.TheVariants as error;

    ghost from_gives = { λ e n. n ≡ error.NoMemory e };

    fn from(e: NoMemory) -> Self {
        WriteError::NoMemory(e)
    }
}

impl From<NoMemory> for NodeError {
    ghost use Rattle.std.specs.Prelude.{◌≡◌};
    ghost use Rattle.fs_nodes.specs.declared.nodes.NodeError.TheVariants as error;

    ghost from_gives = { λ e n. n ≡ error.NoMemory e };

    fn from(e: NoMemory) -> Self {
        NodeError::NoMemory(e)
    }
}

/// The objects by their numbers, and the last number drawn of each label. No object is ever removed.
pub struct Nodes {
    alloc: Global,
    slots: Slab<Object>,
    index: Index,
}

impl Drop for Nodes {
    fn drop(self) {
        let Nodes {
            alloc: _,
            slots: _,
            index: _,
        } = self;
    }
}

impl Model for Nodes {
    ghost use Rattle.lab_lattice.specs.Label.{label_code};
    ghost use Rattle.fs_nodes.specs.Nodes.{NodeSlots, IsPlaced, objects_in, slots_code};
    ghost use Rattle.kern_model.proofs.StateCode.{object_code, oid_code};

    ghost Value = { NodeSlots };

    ghost coded = { slots_code oid_code object_code label_code };

    ghost view = { λ n. record { table = record { objects = objects_in n.slots n.index.keys; numbers = n.index.numbers }; slots = n.slots; keys = n.index.keys } };

    ghost invariant = { λ n. IsPlaced n.slots n.index.keys n.index.numbers };
}

impl Nodes {
    ghost use Rattle.fs_nodes.specs.Lending.{LendsObject};

    /// A table without objects, with no number drawn.
    pub fn new(alloc: Global) -> Result<Nodes, NoMemory>
        ensures { IfOk result (λ nodes. nodes.table ≡ no_nodes) }
    {
        Ok(Nodes {
            alloc,
            slots: Slab::new(alloc),
            index: Index::new(alloc),
        })
    }

    /// The slab that holds the objects, and nothing else.
    pub fn slots(&self) -> &Slab<Object>
        ensures slots { result.now ≡ self.now.slots }
        ensures size { slab_len result.now ≡ map.len self.now.table.objects }
    {
        &self.slots
    }

    /// The key of an object in the slab that [`slots`](Nodes::slots) lends, or `None` where there is no such object.
    pub fn key(&self, id: &Oid) -> Option<usize>
        ensures key { result ≡ map.get self.now.keys id.now }
        ensures absent { (result ≡ None) ↔ (map.get self.now.table.objects id.now ≡ None) }
        ensures holds { (key : ℕ) → result ≡ Some key → get self.now.slots key ≡ map.get self.now.table.objects id.now }
        ensures apart { (a b : Number) (key : ℕ) → map.get self.now.keys a ≡ Some key → map.get self.now.keys b ≡ Some key → a ≡ b }
    {
        self.index.get(id)
    }

    /// The object with a number, if there is one.
    pub fn get(&self, id: &Oid) -> Option<&Object>
        ensures { option_copied result ≡ map.get self.now.table.objects id.now }
    {
        let key = self.index.get(id)?;
        self.slots.get(key)
    }

    // The object with a number, for changes to it.
    fn object_mut(&mut self, id: &Oid) -> &mut Object
        requires { IsThere self.old.table.objects id.now }
        ensures* writes_back { sem 𝓛 (LendsObject self.entry id.now result) }
        ensures value { map.get self.old.table.objects id.now ≡ Some result.now }
    {
        object_at(&mut self.slots, self.index.place(id))
    }

    /// Whether a number of a label is left.
    pub fn can_create(&self, label: &Label) -> bool
        ensures { result ≡ nat_lt (last_drawn self.now.table.numbers label.now) MAX_OBJECTS }
    {
        self.index.has_next(label)
    }

    /// Makes an object under the next number of its label, and returns the number.
    pub fn create(&mut self, label: Label, attr: Attr, body: Body) -> Result<Oid, NodeError>
        ensures id { IfOk result (λ id. id ≡ next_in self.old.table label) }
        ensures made { OnOk result (self.new.table ≡ with_new self.old.table label (object_with label attr body)) }
        ensures full { (result ≡ Err NodeError.Full) ↔ (MAX_OBJECTS ≤ last_drawn self.old.table.numbers label) }
        ensures err { OnErr result (self.new.table ≡ self.old.table) }
    {
        if !self.can_create(&label) {
            return Err(NodeError::Full);
        }
        Ok(self.create_next(label, attr, body)?)
    }

    /// The same for a caller who knows that a number of the label is left.
    pub fn create_next(&mut self, label: Label, attr: Attr, body: Body) -> Result<Oid, NoMemory>
        requires { last_drawn self.old.table.numbers label < MAX_OBJECTS }
        ensures id { IfOk result (λ id. id ≡ next_in self.old.table label) }
        ensures made { OnOk result (self.new.table ≡ with_new self.old.table label (object_with label attr body)) }
        ensures err { OnErr result (self.new.table ≡ self.old.table) }
    {
        let object = object_from(self.alloc, label, attr, body);
        let id = self.index.next(&object.label);
        self.slots.reserve(1)?;
        let key = self.slots.vacant_key();
        self.index.enter(&id, key)?;
        self.slots.insert_reserved(object);
        Ok(id)
    }

    /// Gives an object other attributes. It does not allocate.
    pub fn set_attr(&mut self, id: &Oid, attr: Attr)
        requires { IsThere self.old.table.objects id.now }
        ensures { IfPresent self.old.table.objects id.now (λ o. self.new.table ≡ with_object self.old.table id.now (record o { attr = attr })) }
    {
        self.object_mut(id).attr = attr;
    }

    /// Gives an object another label. It does not allocate.
    pub fn set_label(&mut self, id: &Oid, label: Label)
        requires { IsThere self.old.table.objects id.now }
        ensures { IfPresent self.old.table.objects id.now (λ o. self.new.table ≡ with_object self.old.table id.now (record o { label = label })) }
    {
        self.object_mut(id).label = label;
    }

    /// Empties a file. It does not allocate.
    pub fn truncate(&mut self, id: &Oid)
        requires { IsFile self.old.table.objects id.now }
        ensures { IfPresent self.old.table.objects id.now (λ o. self.new.table ≡ with_object self.old.table id.now (record o { bytes = [] })) }
    {
        let empty = ByteList::new(self.alloc);
        self.object_mut(id).bytes = empty;
    }

    /// Writes bytes into a file from an offset on.
    pub fn write_at(&mut self, id: &Oid, at: u32, bytes: &[u8]) -> Result<(), WriteError>
        requires { IsFile self.old.table.objects id.now }
        ensures written { IfPresent self.old.table.objects id.now (λ o. OnOk result (self.new.table ≡ with_written self.old.table id.now o at bytes.now)) }
        ensures past_end { IfPresent self.old.table.objects id.now (λ o. (result ≡ Err WriteError.PastEnd) ↔ (length o.bytes < at)) }
        ensures too_big { IfPresent self.old.table.objects id.now (λ o. (result ≡ Err WriteError.TooBig) ↔ IsTooBig o.bytes at bytes.now) }
        ensures err { OnErr result (self.new.table ≡ self.old.table) }
    {
        write_over(&mut self.object_mut(id).bytes, at, bytes)
    }

    /// The bytes of an object from an offset on: `n` of them, or all that are left where fewer are.
    pub fn read_at(&self, id: &Oid, at: u32, n: u32) -> Result<ByteList, NoMemory>
        ensures { IfPresent self.now.table.objects id.now (λ o. IfOk result (λ bytes. bytes ≡ take n (drop at o.bytes))) }
    {
        let Some(object) = self.get(id) else {
            return Ok(ByteList::new(self.alloc));
        };
        let bytes = object.bytes.items();
        let from = (at as usize).min(bytes.len());
        let to = from + (n as usize).min(bytes.len() - from);
        ByteList::from_slice(self.alloc, &bytes[from..to])
    }
}

// The object under a key of the slab that has one.
fn object_at(slots: &mut Slab<Object>, key: usize) -> &mut Object
    requires { IsSome (get slots.old key) }
    ensures* writes_back { sem 𝓛 (LendsSlot slots.entry key result) }
    ensures value { get slots.old key ≡ Some result.now }
{
    match slots.get_mut(key) {
        Some(object) => object,
        None => unreachable!(),
    }
}

// Writes bytes over those of a file from an offset on.
fn write_over(old: &mut ByteList, at: u32, bytes: &[u8]) -> Result<(), WriteError>
    ensures written { OnOk result (old.new ≡ written_over old.old at bytes.now) }
    ensures past_end { (result ≡ Err WriteError.PastEnd) ↔ (length old.old < at) }
    ensures too_big { (result ≡ Err WriteError.TooBig) ↔ IsTooBig old.old at bytes.now }
    ensures err { OnErr result (old.new ≡ old.old) }
{
    let at = at as usize;
    if at > old.items().len() {
        return Err(WriteError::PastEnd);
    }
    if at + bytes.len() > MAX_FILE_BYTES {
        return Err(WriteError::TooBig);
    }
    old.write_at(at, bytes)?;
    Ok(())
}

// A new object.
fn object_from(alloc: Global, label: Label, attr: Attr, body: Body) -> Object
    ensures { result ≡ object_with label attr body }
{
    let (kind, bytes) = match body {
        Body::Dir => (Kind::Dir, ByteList::new(alloc)),
        Body::File(bytes) => (Kind::File, bytes),
        Body::Fifo => (Kind::Fifo, ByteList::new(alloc)),
        Body::Pipe => (Kind::Pipe, ByteList::new(alloc)),
    };
    Object {
        kind,
        label,
        attr,
        bytes,
    }
}

impl Buffers for Nodes {
    ghost use Rattle.std.specs.Prelude.{◌≡◌, refl};
    ghost use Rattle.std.proofs.Common.{◌∙◌};

    ghost objects = { λ n. n.table.objects };

    ghost rest_same = { λ a b. b.table.numbers ≡ a.table.numbers };

    fn object(&self, id: &Oid) -> Option<&Object> {
        self.get(id)
    }

    fn put_bytes(&mut self, id: &Oid, bytes: &[u8]) -> Result<(), NoMemory> {
        self.object_mut(id).bytes.extend_from_slice(bytes)
    }

    fn take_bytes(&mut self, id: &Oid, buf: &mut [u8]) -> usize {
        self.object_mut(id).bytes.take_first(buf)
    }

    fn drop_bytes(&mut self, id: &Oid) {
        let empty = ByteList::new(self.alloc);
        self.object_mut(id).bytes = empty;
    }

    ghost reflexive = { λ x. refl };

    ghost transitive = { λ x y z p q. q ∙ p };
}
