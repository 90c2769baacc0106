// What rows ask of a directory that is written.
ghost use Rattle.std.specs.Prelude.{◌≡◌, IfOk, OnOk, false};
ghost use Rattle.kern_model.specs.Create.{enter_in, make_in, write_directory};
ghost use Rattle.kern_model.specs.Entries.{is_removed};
ghost use Rattle.chk_rules.specs.RowSteps.{GoesOn};
ghost use Rattle.sys_lookup.specs.Directories.{leave_from_with, read_object_with, write_object_with};
ghost use Rattle.sys_lookup.specs.Shared.{metadata_of};

use crate::argument::PathArgument;
use crate::caller::Caller;
use crate::shared::Metadata;
use chk_rules::{Checks, Stop, must, refuse_if};
use kern_model::{Check, Errno, Oid, Path, Place};

impl Caller<'_> {
    /// Reads an object, by label, and returns its metadata.
    #[inline(always)]
    pub fn read_object(&self, checks: &mut Checks, id: &Oid, place: Place) -> Result<Metadata, Stop>
        ensures step { GoesOn checks.old (read_object_with self.now id.now place) result checks.new }
        ensures object { IfOk result (λ object. object ≡ metadata_of self.now.state id.now) }
    {
        let object = self.metadata(id);
        self.mac_read(checks, &object, place)?;
        Ok(object)
    }

    /// Writes an object, by label, and returns its metadata.
    #[inline(always)]
    pub fn write_object(
        &self,
        checks: &mut Checks,
        id: &Oid,
        place: Place,
    ) -> Result<Metadata, Stop>
        ensures step { GoesOn checks.old (write_object_with self.now id.now place) result checks.new }
        ensures object { IfOk result (λ object. object ≡ metadata_of self.now.state id.now) }
    {
        let object = self.metadata(id);
        self.mac_write(checks, &object, place)?;
        Ok(object)
    }

    /// Writes a directory, by label and mode, where the order of labels holds.
    pub fn write_directory(
        &self,
        checks: &mut Checks,
        dir: &Oid,
        place: Place,
        order: &Check,
    ) -> Result<(), Stop>
        ensures { GoesOn checks.old (λ rest. write_directory self.now.state self.now.process dir.now place order.now (rest tt)) result checks.new }
    {
        let object = self.write_object(checks, dir, place)?;
        self.dac_write(checks, &object, place)?;
        must(checks, order)
    }

    /// Writes a directory in which an entry is to be made. It may not be removed.
    pub fn enter_in(
        &self,
        checks: &mut Checks,
        dir: &Oid,
        place: Place,
        order: &Check,
    ) -> Result<(), Stop>
        ensures stands { OnOk result (is_removed self.now.state dir.now ≡ false) }
        ensures step { GoesOn checks.old (λ rest. enter_in self.now.state self.now.process dir.now place order.now (rest tt)) result checks.new }
    {
        self.write_directory(checks, dir, place, order)?;
        refuse_if(self.is_removed(dir), Errno::ENOENT)
    }

    /// Writes a directory in which the caller is to make an object.
    pub fn make_in(&self, checks: &mut Checks, dir: &Oid, place: Place) -> Result<(), Stop>
        ensures stands { OnOk result (is_removed self.now.state dir.now ≡ false) }
        ensures step { GoesOn checks.old (λ rest. make_in self.now.state self.now.process dir.now place (rest tt)) result checks.new }
    {
        let object = self.write_object(checks, dir, place)?;
        self.dac_write(checks, &object, place)?;
        self.created_order(checks, &object, place)?;
        refuse_if(self.is_removed(dir), Errno::ENOENT)
    }

    /// Writes the directory from which the entry at the end of a path is to be taken, and the entry's object, and returns the
    /// object's metadata.
    pub fn leave_from(
        &self,
        checks: &mut Checks,
        path: &Path,
        dir: &Oid,
        id: &Oid,
    ) -> Result<Metadata, Stop>
        ensures step { GoesOn checks.old (leave_from_with self.now path.now dir.now id.now) result checks.new }
        ensures object { IfOk result (λ object. object ≡ metadata_of self.now.state id.now) }
    {
        let place = PathArgument::First.dir_place(path);
        let parent = self.write_object(checks, dir, place)?;
        self.dac_write(checks, &parent, place)?;
        self.write_object(checks, id, PathArgument::First.last_place(path))
    }
}
