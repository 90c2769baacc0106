// The tree.
ghost use Rattle.std.specs.Prelude.{◌≡◌, ◌↔◌, ◌<◌, ◌≤◌, ◌+◌, true, false, [], None, Err, IfOk, IsErr, IsSome, OnErr, OnOk, length};
ghost use Rattle.std.specs.List.{list_all};
ghost use Rattle.std.specs.FinMap as map;
ghost use Rattle.kern_model.specs.Entries.{entry_count, is_empty, is_removed, is_under, link_count, names_in};
ghost use Rattle.kern_model.specs.FileRows.{written_over};
ghost use Rattle.kern_model.specs.Kinds.{is_dir, object_with};
ghost use Rattle.kern_model.specs.Rules.{is_above_holders};
ghost use Rattle.kern_model.specs.State.{State, last_drawn, look, object_at, root};
ghost use Rattle.lab_lattice.specs.Label.{dominates};
ghost use Rattle.kern_model.specs.Valid.{IsDir, IsThere};
ghost use Rattle.kern_model.specs.declared.limits.TheConstants.{MAX_FILE_BYTES, MAX_OBJECTS};
ghost use Rattle.fs_nodes.specs.Nodes.{IsFile, next_in, with_new};
ghost use Rattle.fs_dirs.specs.declared.links.Holder.{Holder as Held};
ghost use Rattle.fs_dirs.specs.Directory.{TakesFewSteps};
ghost use Rattle.fs_dirs.specs.Entries.{dir_of};
ghost use Rattle.fs_dirs.specs.Tree.{AreEntries, HasObject, IfEntry, IfObject, IsAbsentFromRemoved, MayBeAdded, MayEnterRemoved, root_alone, state_of_tree, with_moved, would_loop};

use crate::NoMemory;
use crate::below::Below;
use crate::counting::{
    clear_counts, count_labels, count_name, look_where_counted, uncount_found, uncount_name,
};
use crate::entries::Entries;
use crate::holder_labels::HolderLabels;
use crate::links::Holder;
use crate::spots::{SpotRef, Spots};
use fs_nodes::{Buffers, NodeError, Nodes, WriteError};
use fs_path::{Name, NameList, Steps};
use kern_model::{Attr, Body, Kind, Object, Oid};
use lab_lattice::{Label, Lattice, bottom};
use std::alloc::Global;
use std::marker::Model;
use std::sync::ledger::Ledger;

/// Why no entry is added.
#[derive(Clone, Copy, Debug, PartialEq, Eq)]
pub enum AddError {
    /// The name is there already.
    Exists,
    /// The directory is removed.
    Removed,
    NoMemory(NoMemory),
}

impl From<NoMemory> for AddError {
    ghost use Rattle.std.specs.Prelude.{◌≡◌};
    ghost use Rattle.fs_dirs.specs.declared.tree.AddError.TheVariants as error;

    ghost from_gives = { λ e n. n ≡ error.NoMemory e };

    fn from(e: NoMemory) -> Self {
        AddError::NoMemory(e)
    }
}

/// Why no entry is moved.
#[derive(Clone, Copy, Debug, PartialEq, Eq)]
pub enum MoveError {
    /// The name is not there.
    Absent,
    /// A directory would lie under itself.
    Loop,
    /// The new directory is removed.
    Removed,
    NoMemory(NoMemory),
}

impl From<NoMemory> for MoveError {
    ghost use Rattle.std.specs.Prelude.{◌≡◌};
    ghost use Rattle.fs_dirs.specs.declared.tree.MoveError.TheVariants as error;

    ghost from_gives = { λ e n. n ≡ error.NoMemory e };

    fn from(e: NoMemory) -> Self {
        MoveError::NoMemory(e)
    }
}

/// A name that is not there.
#[derive(Clone, Copy, Debug, PartialEq, Eq)]
pub struct Absent;

// Where fewer directories hold an object, a label is compared to that of each.
const FEW: usize = 16;

/// The objects, and the entries of the directories among them.
pub struct Tree {
    alloc: Global,
    nodes: Nodes,
    entries: Entries,
    // How many names stand at each label, of each object that got a new label while many directories held it.
    labels: HolderLabels,
}

impl Drop for Tree {
    fn drop(self) {
        let Tree {
            alloc: _,
            nodes: _,
            entries: _,
            labels: _,
        } = self;
    }
}

impl Model for Tree {
    ghost use Rattle.std.specs.FinMap as map;
    ghost use Rattle.lab_lattice.specs.Label.{label_code};
    ghost use Rattle.fs_nodes.specs.Nodes.{slots_code};
    ghost use Rattle.fs_dirs.specs.Tree.{IsTree, TreeView, tree_code};
    ghost use Rattle.kern_model.proofs.StateCode.{object_code, oid_code, spot_code};

    ghost Value = { TreeView };

    ghost coded = { tree_code (slots_code oid_code object_code label_code) (map.code spot_code oid_code) };

    ghost view = { λ t. record { nodes = t.nodes; entries = t.entries } };

    ghost invariant = { λ t. IsTree t.nodes.table t.entries t.labels };
}

/// The number of the root directory.
pub fn root_directory() -> Oid
    ensures { result ≡ root }
{
    Oid {
        label: bottom(),
        n: 1,
    }
}

// Whether it is the kind of a directory.
fn is_dir(kind: Kind) -> bool
    ensures { result ≡ is_dir kind }
{
    matches!(kind, Kind::Dir)
}

// The root directory alone.
fn root_nodes(alloc: Global, attr: Attr) -> Result<Nodes, NoMemory>
    ensures { IfOk result (λ nodes. nodes.table ≡ root_alone attr) }
{
    let mut nodes = Nodes::new(alloc)?;
    match nodes.create(bottom(), attr, Body::Dir) {
        Ok(_) => Ok(nodes),
        Err(NodeError::NoMemory(e)) => Err(e),
        Err(NodeError::Full) => unreachable!(),
    }
}

impl Tree {
    /// The root directory alone, at the bottom label.
    pub fn new(alloc: Global, attr: Attr) -> Result<Tree, NoMemory>
        ensures nodes { IfOk result (λ tree. tree.nodes.table ≡ root_alone attr) }
        ensures entries { IfOk result (λ tree. tree.entries ≡ map.empty) }
    {
        let nodes = root_nodes(alloc, attr)?;
        let entries = Entries::new(alloc);
        Ok(Tree {
            alloc,
            nodes,
            entries,
            labels: HolderLabels::new(alloc),
        })
    }

    /// The tree of these objects, and of all its entries at once.
    pub fn load(alloc: Global, nodes: Nodes, spots: Spots) -> Result<Tree, NoMemory>
        requires { AreEntries nodes.table spots }
        ensures nodes { IfOk result (λ tree. tree.nodes ≡ nodes) }
        ensures entries { IfOk result (λ tree. tree.entries ≡ spots) }
    {
        Ok(Tree {
            alloc,
            nodes,
            entries: spots.into_entries(),
            labels: HolderLabels::new(alloc),
        })
    }

    /// The objects.
    pub fn nodes(&self) -> &Nodes
        ensures { result.now ≡ self.now.nodes }
    {
        &self.nodes
    }

    /// The object to which a name in a directory leads, if it is there. The comparisons of names and of their heads count in
    /// `steps`. The clause bounds this count; no clause says that it leaves out no comparison.
    pub fn look_counted<L: Ledger>(
        &self,
        dir: &Oid,
        name: &Name,
        steps: &mut Steps<L>,
    ) -> Option<Oid>
        ensures found { result ≡ look (state_of_tree self.now) dir.now name.now }
        ensures counted { TakesFewSteps (entry_count (state_of_tree self.now) dir.now) steps.old steps.new }
    {
        self.entries.look_counted(dir, name, steps)
    }

    /// The object to which a name in a directory leads, if it is there.
    pub fn look(&self, dir: &Oid, name: &Name) -> Option<Oid>
        ensures { result ≡ look (state_of_tree self.now) dir.now name.now }
    {
        self.entries.look(dir, name)
    }

    /// Whether no name stands in a directory.
    pub fn is_empty(&self, dir: &Oid) -> bool
        ensures { result ≡ is_empty (state_of_tree self.now) dir.now }
    {
        self.entries.len(dir) == 0
    }

    /// How many names stand in a directory.
    pub fn entry_count(&self, dir: &Oid) -> u64
        ensures { result ≡ entry_count (state_of_tree self.now) dir.now }
    {
        self.entries.len(dir) as u64
    }

    /// The names in a directory, sorted by their bytes.
    pub fn names(&self, dir: &Oid) -> Result<NameList, NoMemory>
        ensures { IfOk result (λ names. names ≡ names_in (state_of_tree self.now) dir.now) }
    {
        self.entries.names(dir)
    }

    /// How many names an object has.
    pub fn name_count(&self, id: &Oid) -> u32
        ensures { result ≡ link_count (state_of_tree self.now) id.now }
    {
        self.entries.name_count(id)
    }

    // Whether a label dominates that of an object.
    fn is_below(&self, id: &Oid, label: &Label) -> bool
        ensures { result ≡ dominates label.now (object_at (state_of_tree self.now) id.now).label }
    {
        match self.nodes.get(id) {
            Some(object) => label.dominates(&object.label),
            None => true,
        }
    }

    // Whether a label dominates those of all these directories.
    fn are_below(&self, holders: &[Holder], label: &Label) -> bool
        ensures { result ≡ list_all (λ (h : Held). dominates label.now (object_at (state_of_tree self.now) (dir_of h)).label) holders.now }
    {
        holders
            .iter()
            .all(|holder| self.is_below(&holder.dir(), label))
    }

    /// Whether a label dominates those of all directories that hold a name of an object. It looks at each of them once, or
    /// where these are many and their labels are counted, at each label. It takes no memory.
    pub fn is_above_holders(&self, id: &Oid, label: &Label) -> bool
        ensures { (s : State) → s.objects ≡ self.now.nodes.table.objects → s.entries ≡ self.now.entries → result ≡ is_above_holders s id.now label.now }
    {
        let holders = self.entries.holders(id);
        if holders.len() < FEW {
            return self.are_below(holders, label);
        }
        match self.labels.all_below(id, label) {
            Some(below) => below,
            None => self.are_below(holders, label),
        }
    }

    /// Whether a directory is not the root, and no directory holds it.
    pub fn is_removed(&self, dir: &Oid) -> bool
        ensures { result ≡ is_removed (state_of_tree self.now) dir.now }
    {
        if dir.is_same(&root_directory()) {
            return false;
        }
        self.entries.name_count(dir) == 0
    }

    /// Makes an object under the next number of its label, and returns the number. It makes no entry. The program asks whether a
    /// number is left, and calls [`create_next`](Tree::create_next).
    pub fn create(&mut self, label: Label, attr: Attr, body: Body) -> Result<Oid, NodeError>
        ensures id { IfOk result (λ id. id ≡ next_in self.old.nodes.table label) }
        ensures made { OnOk result (self.new.nodes.table ≡ with_new self.old.nodes.table label (object_with label attr body)) }
        ensures full { (result ≡ Err NodeError.Full) ↔ (MAX_OBJECTS ≤ last_drawn self.old.nodes.table.numbers label) }
        ensures err { OnErr result (self.new.nodes.table ≡ self.old.nodes.table) }
        ensures entries { self.new.entries ≡ self.old.entries }
    {
        if !self.nodes.can_create(&label) {
            return Err(NodeError::Full);
        }
        Ok(self.create_next(label, attr, body)?)
    }

    /// The same for a caller who knows that a number of the label is left.
    pub fn create_next(&mut self, label: Label, attr: Attr, body: Body) -> Result<Oid, NoMemory>
        requires { last_drawn self.old.nodes.table.numbers label < MAX_OBJECTS }
        ensures id { IfOk result (λ id. id ≡ next_in self.old.nodes.table label) }
        ensures made { OnOk result (self.new.nodes.table ≡ with_new self.old.nodes.table label (object_with label attr body)) }
        ensures err { OnErr result (self.new.nodes.table ≡ self.old.nodes.table) }
        ensures entries { self.new.entries ≡ self.old.entries }
    {
        self.nodes.create_next(label, attr, body)
    }

    /// Gives an object other attributes. It takes no memory.
    pub fn set_attr(&mut self, id: &Oid, attr: Attr)
        requires { IsThere self.old.nodes.table.objects id.now }
        ensures attr { IfObject self.old id.now (λ o. HasObject self.old id.now (record o { attr = attr }) self.new) }
        ensures entries { self.new.entries ≡ self.old.entries }
    {
        self.nodes.set_attr(id, attr);
    }

    // Has the names of an object counted by the labels of its directories, where these are many and there is memory for it.
    fn count_holders(&mut self, id: &Oid)
        ensures { self.new ≡ self.old }
    {
        let holders = self.entries.holders(id);
        if holders.len() < FEW || self.labels.is_counted(id) {
            return;
        }
        if let Ok(counts) = count_labels(self.alloc, &self.nodes, holders) {
            self.labels.count(id, counts);
        }
    }

    /// Gives an object another label. It does not fail: where no memory is left, the object's names are not counted by the labels
    /// of its directories.
    pub fn set_label(&mut self, id: &Oid, label: Label)
        requires { IsThere self.old.nodes.table.objects id.now }
        ensures label { IfObject self.old id.now (λ o. HasObject self.old id.now (record o { label = label }) self.new) }
        ensures entries { self.new.entries ≡ self.old.entries }
    {
        clear_counts(&mut self.labels, &self.entries, id);
        self.nodes.set_label(id, label);
        self.count_holders(id);
    }

    /// Empties a file. It takes no memory.
    pub fn truncate(&mut self, id: &Oid)
        requires { IsFile self.old.nodes.table.objects id.now }
        ensures bytes { IfObject self.old id.now (λ o. HasObject self.old id.now (record o { bytes = [] }) self.new) }
        ensures entries { self.new.entries ≡ self.old.entries }
    {
        self.nodes.truncate(id);
    }

    /// Writes bytes into a file from a place on.
    pub fn write_at(&mut self, id: &Oid, at: u32, bytes: &[u8]) -> Result<(), WriteError>
        requires { IsFile self.old.nodes.table.objects id.now }
        ensures written { IfObject self.old id.now (λ o. OnOk result (HasObject self.old id.now (record o { bytes = written_over o.bytes at bytes.now }) self.new)) }
        ensures past_end { IfObject self.old id.now (λ o. (result ≡ Err WriteError.PastEnd) ↔ (length o.bytes < at)) }
        ensures too_big { IfObject self.old id.now (λ o. (result ≡ Err WriteError.TooBig) ↔ (at ≤ length o.bytes) × (MAX_FILE_BYTES < at + length bytes.now)) }
        ensures err { OnErr result (self.new.nodes.table ≡ self.old.nodes.table) }
        ensures entries { self.new.entries ≡ self.old.entries }
    {
        self.nodes.write_at(id, at, bytes)
    }

    /// Has a new name in a directory lead to an object.
    pub fn add(&mut self, dir: &Oid, name: &Name, id: &Oid) -> Result<(), AddError>
        requires dir { IsDir self.old.nodes.table.objects dir.now }
        requires may { MayBeAdded (state_of_tree self.old) id.now }
        ensures added { OnOk result (self.new ≡ record self.old { entries = map.insert self.old.entries (dir.now, name.now) id.now }) }
        ensures exists { (result ≡ Err AddError.Exists) ↔ IsSome (look (state_of_tree self.old) dir.now name.now) }
        ensures removed { (result ≡ Err AddError.Removed) ↔ IsAbsentFromRemoved self.old dir.now name.now }
        ensures err { OnErr result (self.new ≡ self.old) }
    {
        if self.look(dir, name).is_some() {
            return Err(AddError::Exists);
        }
        if self.is_removed(dir) {
            return Err(AddError::Removed);
        }
        self.add_absent(dir, name, id)?;
        Ok(())
    }

    /// Has a name that is absent from a directory lead to an object. The directory is not removed.
    pub fn add_absent(&mut self, dir: &Oid, name: &Name, id: &Oid) -> Result<(), NoMemory>
        requires dir { IsDir self.old.nodes.table.objects dir.now }
        requires stands { is_removed (state_of_tree self.old) dir.now ≡ false }
        requires absent { look (state_of_tree self.old) dir.now name.now ≡ None }
        requires may { MayBeAdded (state_of_tree self.old) id.now }
        ensures added { OnOk result (self.new ≡ record self.old { entries = map.insert self.old.entries (dir.now, name.now) id.now }) }
        ensures err { OnErr result (self.new ≡ self.old) }
    {
        self.entries.insert(dir, name.copy()?, id)?;
        count_name(&mut self.labels, &self.nodes, id, dir);
        Ok(())
    }

    /// Removes a name from a directory. It takes no memory.
    pub fn remove(&mut self, dir: &Oid, name: &Name) -> Result<(), Absent>
        ensures removed { OnOk result (self.new ≡ record self.old { entries = map.remove self.old.entries (dir.now, name.now) }) }
        ensures absent { IsErr result ↔ (look (state_of_tree self.old) dir.now name.now ≡ None) }
        ensures err { OnErr result (self.new ≡ self.old) }
    {
        match self.entries.remove(dir, name) {
            Some(id) => {
                uncount_name(&mut self.labels, &self.nodes, &id, dir);
                Ok(())
            }
            None => Err(Absent),
        }
    }

    // Whether an object is there and is a directory.
    fn is_directory(&self, id: &Oid) -> bool
        ensures { result ≡ is_dir (object_at (state_of_tree self.now) id.now).kind }
    {
        match self.nodes.get(id) {
            Some(object) => is_dir(object.kind),
            None => false,
        }
    }

    // Whether an object would lie under itself in a directory.
    fn would_loop(&self, id: &Oid, dir: &Oid) -> bool
        requires { IsDir self.now.nodes.table.objects dir.now }
        ensures { result ≡ would_loop (state_of_tree self.now) id.now dir.now }
    {
        self.is_directory(id) && self.under(dir, id)
    }

    /// Moves an entry to another name, in place of what is there. Where both names are one, nothing changes.
    pub fn move_entry(
        &mut self,
        from: &Oid,
        old: &Name,
        to: &Oid,
        new: &Name,
    ) -> Result<(), MoveError>
        requires { IsDir self.old.nodes.table.objects to.now }
        ensures moved { IfEntry self.old from.now old.now (λ id. OnOk result (self.new ≡ with_moved self.old (from.now, old.now) (to.now, new.now) id)) }
        ensures absent { (result ≡ Err MoveError.Absent) ↔ (look (state_of_tree self.old) from.now old.now ≡ None) }
        ensures loops { IfEntry self.old from.now old.now (λ id. (result ≡ Err MoveError.Loop) ↔ (would_loop (state_of_tree self.old) id to.now ≡ true)) }
        ensures removed { IfEntry self.old from.now old.now (λ id. (result ≡ Err MoveError.Removed) ↔ MayEnterRemoved self.old id to.now) }
        ensures err { OnErr result (self.new ≡ self.old) }
    {
        let Some(id) = self.entries.look(from, old) else {
            return Err(MoveError::Absent);
        };
        if self.would_loop(&id, to) {
            return Err(MoveError::Loop);
        }
        if self.is_removed(to) {
            return Err(MoveError::Removed);
        }
        let from = SpotRef {
            dir: from,
            name: old,
        };
        let to = SpotRef { dir: to, name: new };
        if from.is_same(&to) {
            return Ok(());
        }
        let replaced = look_where_counted(&self.labels, &self.entries, &to);
        self.entries.relocate(&from, &to, &id)?;
        uncount_found(&mut self.labels, &self.nodes, &replaced, to.dir);
        count_name(&mut self.labels, &self.nodes, &id, to.dir);
        uncount_name(&mut self.labels, &self.nodes, &id, from.dir);
        Ok(())
    }

    /// Whether a directory is another one or lies under it. Each step up from it is followed by one down from the other one, so
    /// the shorter way decides.
    pub fn under(&self, dir: &Oid, top: &Oid) -> bool
        requires { IsDir self.now.nodes.table.objects dir.now }
        ensures { result ≡ is_under (state_of_tree self.now) dir.now top.now }
    {
        let mut current = *dir;
        let mut left = self.entries.total();
        let mut below = Below::new(self.alloc, top, &self.entries);
        'up: while !current.is_same(top) {
            if left == 0 || below.is_over() {
                return false;
            }
            let Some(above) = self.entries.holder(&current) else {
                return false;
            };
            current = above;
            left -= 1;
            below.step(&self.entries, dir);
        }
        true
    }
}

impl Buffers for Tree {
    ghost use Rattle.std.specs.Prelude.{◌≡◌, refl};
    ghost use Rattle.std.proofs.Common.{◌∙◌};

    ghost objects = { λ t. t.nodes.table.objects };

    ghost rest_same = { λ a b. (b.nodes.table.numbers ≡ a.nodes.table.numbers) × (b.entries ≡ a.entries) };

    fn object(&self, id: &Oid) -> Option<&Object> {
        self.nodes.get(id)
    }

    fn put_bytes(&mut self, id: &Oid, bytes: &[u8]) -> Result<(), NoMemory> {
        self.nodes.put_bytes(id, bytes)
    }

    fn take_bytes(&mut self, id: &Oid, buf: &mut [u8]) -> usize {
        self.nodes.take_bytes(id, buf)
    }

    fn drop_bytes(&mut self, id: &Oid) {
        self.nodes.drop_bytes(id);
    }

    ghost reflexive = { λ x. (refl, refl) };

    ghost transitive = { λ x y z p q. (q.0 ∙ p.0, q.1 ∙ p.1) };
}
