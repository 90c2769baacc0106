// The children of each parent.
ghost use Rattle.std.specs.Prelude.{◌≡◌, ◌+◌, ◌-◌, ◌<◌, ◌==◌, [], ◌∷◌, ◌++◌, length, OnErr, OnOk, slice_get};
ghost use Rattle.std.specs.FinMap as map;
ghost use Rattle.proc_table.specs.Children.{IsSwapRemoved, IsSwapRemovedAt, list_at};

use kern_model::{NoMemory, Pid};
use num_table::Table;
use smallvec::SmallVec;
use std::alloc::Global;
use std::marker::Model;

/// The children of one parent, in any order.
#[derive(Drop)]
pub struct ChildList {
    // A single one takes no memory of its own.
    children: SmallVec<Pid, 1>,
}

impl Model for ChildList {
    ghost use Rattle.std.specs.Prelude.{List};
    ghost use Rattle.kern_model.specs.declared.numbers.Pid.{Pid};
    ghost use Rattle.kern_model.proofs.StateCode.{pids_code};

    ghost Value = { List Pid };

    ghost coded = { pids_code };

    ghost view = { λ l. l.children.items };
}

impl ChildList {
    /// One child.
    fn new(alloc: Global, child: Pid) -> Self
        ensures { result ≡ child ∷ [] }
    {
        ChildList {
            children: SmallVec::from_buf(alloc, [child]),
        }
    }

    /// How many there are.
    fn len(&self) -> usize
        ensures { result ≡ length self.now }
    {
        self.children.len()
    }

    /// The last one, if there is one.
    fn last(&self) -> Option<Pid>
        ensures { result ≡ slice_get self.now (length self.now - 1) }
    {
        self.children.last().copied()
    }

    /// Appends a child.
    fn push(&mut self, child: Pid) -> Result<(), NoMemory>
        ensures ok { OnOk result (self.new ≡ self.old ++ child ∷ []) }
        ensures err { OnErr result (self.new ≡ self.old) }
    {
        self.children.push(child)?;
        Ok(())
    }

    /// Removes the child at a place, to which the last one moves. Returns who stands there then, if someone does. It takes no
    /// memory.
    fn swap_remove(&mut self, place: usize) -> Option<Pid>
        requires { place < length self.old }
        ensures removed { IsSwapRemoved self.old place self.new }
        ensures moved { result ≡ slice_get self.new place }
    {
        self.children.swap_remove(place);
        self.children.get(place).copied()
    }
}

/// The children of each parent. A parent without a child has no list.
#[derive(Drop)]
pub struct ChildLists {
    alloc: Global,
    by_parent: Table<ChildList>,
}

impl Model for ChildLists {
    ghost use Rattle.std.specs.Prelude.{List};
    ghost use Rattle.std.specs.FinMap as map;
    ghost use Rattle.kern_model.specs.declared.numbers.Pid.{Pid};
    ghost use Rattle.kern_model.specs.Keys.{pid_cmp};
    ghost use Rattle.kern_model.specs.ByNumber.{by_pid};
    ghost use Rattle.kern_model.proofs.StateCode.{pid_code, pids_code};

    ghost Value = { map.FinMap pid_cmp (List Pid) };

    ghost coded = { map.code pid_code pids_code };

    ghost view = { λ l. by_pid l.by_parent };
}

impl ChildLists {
    /// No child.
    pub fn new(alloc: Global) -> Self
        ensures { result ≡ map.empty }
    {
        ChildLists {
            alloc,
            by_parent: Table::new(alloc),
        }
    }

    /// How many children a parent has.
    pub fn count(&self, parent: &Pid) -> usize
        ensures { result ≡ length (list_at self.now parent.now) }
    {
        match self.by_parent.get_at(parent) {
            Some(list) => list.len(),
            None => 0,
        }
    }

    /// The last child of a parent, if it has one.
    pub fn last(&self, parent: &Pid) -> Option<Pid>
        ensures { result ≡ slice_get (list_at self.now parent.now) (length (list_at self.now parent.now) - 1) }
    {
        self.by_parent.get_at(parent)?.last()
    }

    /// Appends a child of a parent.
    pub fn push(&mut self, parent: &Pid, child: &Pid) -> Result<(), NoMemory>
        ensures ok { OnOk result (self.new ≡ map.insert self.old parent.now (list_at self.old parent.now ++ child.now ∷ [])) }
        ensures err { OnErr result (self.new ≡ self.old) }
    {
        if let Some(list) = self.by_parent.get_mut_at(parent) {
            return list.push(*child);
        }
        self.by_parent
            .set_at(parent, ChildList::new(self.alloc, *child))
    }

    /// Removes the child at a place of a parent's list, to which the last one moves. Returns who stands there then, if someone
    /// does. It takes no memory.
    pub fn swap_remove(&mut self, parent: &Pid, place: usize) -> Option<Pid>
        requires { place < length (list_at self.old parent.now) }
        ensures removed { IsSwapRemovedAt self.old parent.now place self.new }
        ensures moved { result ≡ slice_get (list_at self.new parent.now) place }
    {
        let Some(list) = self.by_parent.get_mut_at(parent) else {
            unreachable!();
        };
        let moved = list.swap_remove(place);
        if list.len() == 0 {
            drop(self.by_parent.remove_at(parent));
        }
        moved
    }
}
