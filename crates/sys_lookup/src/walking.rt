// The walk of a path.
ghost use Rattle.std.specs.Prelude.{◌≡◌, ◌≤◌, length, IfOk, OnOk};
ghost use Rattle.kern_model.specs.Walk.{enter, last_place, reach, start_of, walk};
ghost use Rattle.kern_model.specs.Valid.{IsDir};
ghost use Rattle.kern_model.specs.declared.numbers.Oid.{Oid as Number};
ghost use Rattle.chk_rules.specs.RowSteps.{GoesOn};
ghost use Rattle.sys_lookup.specs.Walks.{IsFound, IsLedTo, find_name, found_by, pass_name, pass_names, place_in, reach_end};

use crate::argument::PathArgument;
use crate::caller::Caller;
use crate::found::{Found, present};
use crate::last_name::LastName;
use chk_rules::{Checks, Stop, refuse_if};
use fs_dirs::root_directory;
use kern_model::{Errno, Name, Oid, Path, Place};

impl Caller<'_> {
    /// Walks a path to an object that is there, and returns its number and its place.
    pub fn reach(
        &self,
        checks: &mut Checks,
        which: PathArgument,
        path: &Path,
    ) -> Result<(Oid, Place), Stop>
        ensures step { GoesOn checks.old (reach_end self.now.state self.now.process (place_in which) path.now) result checks.new }
        ensures led { IfOk result (λ r. IsLedTo self.now.state (start_of self.now.process path.now) r.0) }
    {
        let found = self.walk(checks, which, path)?;
        let id = found.to_object()?;
        Ok((id, which.last_place(path)))
    }

    /// Walks a path from where it starts. Its last name may be absent.
    pub fn walk<'a>(
        &self,
        checks: &mut Checks,
        which: PathArgument,
        path: &'a Path,
    ) -> Result<Found<'a>, Stop>
        ensures step { GoesOn checks.old (walk self.now.state self.now.process (place_in which) path.now) (found_by result) checks.new }
        ensures found { IfOk result (IsFound self.now.state (start_of self.now.process path.now)) }
    {
        let start = self.start_of(path);
        match path.components() {
            [] => Ok(Found::Start(start)),
            [names @ .., last] => {
                let dir = self.pass_all(checks, which, start, names)?;
                let place = which.place(names.len() as u8);
                self.find_name(checks, place, dir, last)
            }
        }
    }

    /// Enters a directory: it may be read, is a directory, and may be searched.
    #[inline(always)]
    pub fn enter(&self, checks: &mut Checks, dir: &Oid, place: Place) -> Result<(), Stop>
        ensures step { GoesOn checks.old (λ rest. enter self.now.state self.now.process dir.now place (rest tt)) result checks.new }
        ensures dir { OnOk result (IsDir self.now.state.objects dir.now) }
    {
        let object = self.metadata(dir);
        self.mac_read(checks, &object, place)?;
        refuse_if(!object.is_directory(), Errno::ENOTDIR)?;
        self.dac_search(checks, &object, place)
    }

    // Where a path starts.
    fn start_of(&self, path: &Path) -> Oid
        ensures { result ≡ start_of self.now.process path.now }
    {
        if path.absolute {
            root_directory()
        } else {
            self.cwd()
        }
    }

    // Looks up the names that are not the last, from where the path starts: they lead to where the walk goes on.
    fn pass_all(
        &self,
        checks: &mut Checks,
        which: PathArgument,
        start: Oid,
        names: &[Name],
    ) -> Result<Oid, Stop>
        requires { length names.now ≤ 31 }
        ensures { GoesOn checks.old (pass_names self.now.state self.now.process (place_in which) 0 start names.now) result checks.new }
    {
        let mut dir = start;
        for (passed, name) in names.iter().enumerate() {
            let place = which.place(passed as u8);
            dir = self.pass(checks, place, dir, name)?;
        }
        Ok(dir)
    }

    // Looks up the last name of a walk, which may be absent.
    #[tactic(auto, unfolding(chk_rules::specs::RowSteps::EndsBy))]
    fn find_name<'a>(
        &self,
        checks: &mut Checks,
        place: Place,
        dir: Oid,
        name: &'a Name,
    ) -> Result<Found<'a>, Stop>
        ensures step { GoesOn checks.old (find_name self.now.state self.now.process place dir name.now) (found_by result) checks.new }
        ensures found { (start : Number) → IfOk result (IsFound self.now.state start) }
    {
        self.enter(checks, &dir, place)?;
        let object = self.look(&dir, name);
        Ok(Found::Entry(dir, LastName::new(name), object))
    }

    // Looks up a name that is not the last: it leads to where the walk goes on.
    fn pass(&self, checks: &mut Checks, place: Place, dir: Oid, name: &Name) -> Result<Oid, Stop>
        ensures { GoesOn checks.old (pass_name self.now.state self.now.process place dir name.now) result checks.new }
    {
        self.enter(checks, &dir, place)?;
        present(self.look(&dir, name))
    }
}
