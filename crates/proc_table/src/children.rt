// Which living processes are children of which.
ghost use Rattle.std.specs.Prelude.{◌≡◌, ◌+◌, ◌&&◌, ◌||◌, not, true, false, OnErr, OnOk, MatchOption};
ghost use Rattle.kern_model.specs.Keys.{is_pid, same_pid};
ghost use Rattle.kern_model.specs.declared.numbers.Pid.{Pid as Number};
ghost use Rattle.proc_table.specs.Children.{child_count, is_child};

use crate::child_lists::ChildLists;
use crate::positions::{Position, change};
use kern_model::{NoMemory, Pid};
use num_table::Table;
use std::alloc::Global;
use std::marker::Model;

/// The living children by their parents, so that a child of a process, and the place of a child, are found without a search.
#[derive(Drop)]
pub struct Children {
    lists: ChildLists,
    positions: Table<Position>,
}

impl Model for Children {
    ghost use Rattle.std.specs.Coded.{codes};
    ghost use Rattle.lab_lattice.specs.Label.{label_code};
    ghost use Rattle.kern_model.specs.ByNumber.{by_pid};
    ghost use Rattle.proc_table.specs.Children.{AreInPlace, ChildIndex, child_index_code};

    ghost Value = { ChildIndex };

    ghost coded = { child_index_code (Prim.hlevel (codes, label_code)) (Prim.hlevel (codes, label_code)) (Prim.hlevel (codes, label_code)) };

    ghost view = { λ c. record { lists = c.lists; positions = by_pid c.positions } };

    ghost invariant = { λ c. AreInPlace (record { lists = c.lists; positions = by_pid c.positions }) };
}

impl Children {
    /// No child.
    pub fn new(alloc: Global) -> Self
        ensures { (q c : Number) → is_child result q c ≡ false }
    {
        Children {
            lists: ChildLists::new(alloc),
            positions: Table::new(alloc),
        }
    }

    /// Enters a child, if it has a parent.
    pub fn add(&mut self, parent: &Option<Pid>, child: &Pid) -> Result<(), NoMemory>
        requires { (q : Number) → is_child self.old q child.now ≡ false }
        ensures ok { OnOk result ((q c : Number) → is_child self.new q c ≡ (is_pid q parent.now && same_pid c child.now || is_child self.old q c)) }
        ensures err { OnErr result ((q c : Number) → is_child self.new q c ≡ is_child self.old q c) }
    {
        match parent {
            Some(parent) => self.add_to(parent, child),
            None => Ok(()),
        }
    }

    // Enters a child of a parent.
    fn add_to(&mut self, parent: &Pid, child: &Pid) -> Result<(), NoMemory>
        requires { (q : Number) → is_child self.old q child.now ≡ false }
        ensures ok { OnOk result ((q c : Number) → is_child self.new q c ≡ (same_pid q parent.now && same_pid c child.now || is_child self.old q c)) }
        ensures err { OnErr result (self.new ≡ self.old) }
    {
        let place = self.lists.count(parent);
        let parent = *parent;
        self.positions.set_at(child, Position { parent, place })?;
        if let Err(e) = self.lists.push(&parent, child) {
            self.positions.remove_at(child);
            return Err(e);
        }
        Ok(())
    }

    /// Removes a child, if it is one. It takes no memory.
    pub fn remove(&mut self, child: &Pid)
        ensures left { (q c : Number) → is_child self.new q c ≡ (not (same_pid c child.now) && is_child self.old q c) }
        ensures count { (q : Number) → is_child self.old q child.now ≡ true → child_count self.new q + 1 ≡ child_count self.old q }
    {
        if let Some(position) = self.positions.remove_at(child) {
            if let Some(moved) = self.lists.swap_remove(&position.parent, position.place) {
                change(&mut self.positions, &moved, position);
            }
        }
    }

    /// A child of a parent, if it has one.
    pub fn first(&self, parent: &Pid) -> Option<Pid>
        ensures { MatchOption result ((c : Number) → is_child self.now parent.now c ≡ false) (λ c. is_child self.now parent.now c ≡ true) }
    {
        self.lists.last(parent)
    }
}
